//! Scripts of sessions: what is read of them, and what is written of the sessions that they hold.
//!
//! `run` is the whole of it, from a source to a sink: `input` reads the source to its end, `script` reads the sessions,
//! `dealing` deals them to workers, `serving` serves them and writes what came of them, each by `output`.
#![tactic(auto)]

mod dealing;
mod input;
mod output;
mod run;
mod script;
mod serving;

pub use input::{Input, read_whole};
pub use output::write_outcome;
pub use run::{RunEnd, run_script};
pub use script::{ScriptFault, plain_number, read_script};

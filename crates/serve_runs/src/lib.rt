//! Runs of a server: one port a worker, all workers side by side over one executor, and the number of sessions at the end.
//!
//! `serve` is all of it; `hiring` makes the workers, `verdict` tells how they ended, and `writing` writes how many sessions were
//! served. The last two serve any kind of workers.
#![tactic(auto)]

mod hiring;
mod serve;
mod verdict;
mod writing;

pub use serve::{ServeEnd, Serving, serve_ports};
pub use verdict::{Verdict, verdict_on};
pub use writing::write_total;

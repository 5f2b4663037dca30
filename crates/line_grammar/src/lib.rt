//! The grammar of lines: which command with which arguments a line of the protocol spells.
//!
//! The table of rows is a definition of `arc_core` (`KeyValueGrammar`, `Grammar`), and what is read here is exactly
//! what it spells. Lines are read where they lie, and nothing here takes memory.
//!
//! `lines` reads a whole line, and has the laws on lines; `names` knows the names of commands, `kv` how the words behind
//! them go on, `parts` the words that are no key and no number, `faults` what is wrong with a line. What a line spells,
//! a `Head`, is a type of `arc_core`.
#![tactic(auto)]

mod faults;
mod kv;
mod lines;
mod names;
mod parts;
#[cfg(test)]
mod tests;

pub use arc_core::{BlockFault, Command, CommandName, Head};
pub use faults::LineFault;
pub use lines::{KvHeads, head_is_no_fault, line_spells_one_head, read_line};
pub use parts::{next_exptime, next_from_1, no_reply};

//! The grammar of every line: which command with which arguments a line of the protocol spells, on key-value items and
//! on lists, sets and maps.
//!
//! The table of rows is a definition of `arc_core` (`CollectionLines`, and a file for each kind), and what is read here is
//! exactly what it spells. Key-value lines are read by `line_grammar`. Lines are read where they lie, and nothing here
//! takes memory.
//!
//! | To find | Look in |
//! |---|---|
//! | the request of a line and its block | `joins` |
//! | a whole line, its laws, and which block it asks for | `lines` |
//! | the names of commands on collections, by their two words | `names` |
//! | how the words behind a name go on | `list` (and `create` of all kinds), `set`, `map` |
//! | what rows have in common: indices, attributes, fields, `drop`, the end of a line | `parts` |
//!
//! What a line spells, a `CollHead`, is a type of `arc_core`.
#![tactic(auto)]

mod joins;
mod lines;
mod list;
mod map;
mod names;
mod parts;
mod set;
#[cfg(test)]
mod tests;

pub use arc_core::{BlockFault, CollCommand, CollHead, CollName};
pub use joins::join;
pub use line_grammar::LineFault;
pub use lines::{
    AllHeads, bad_block_is_no_request, head_is_no_fault, line_spells_one_head,
    quit_is_nothing_else, read_head,
};

//! The words of lines on trees: what their parts are, and how a line of each command is read.
//!
//! The rows are definitions in `specs/`, made of the parts that `arc_core` has for rows, and what is read here is exactly what
//! they are read as from the left. Lines are read where they lie, and nothing here takes memory.
//!
//! | To find | Look in |
//! |---|---|
//! | what a line asks of a tree, and of attributes | `commands`, `attr_commands` |
//! | how the words behind a command's name go on | `trees`, `attrs` |
//! | bkeys, ranges and flags | `ranges` |
//! | filters | `filters` |
//! | offset and count, initial numbers, lengths | `counts` |
//! | what an update changes | `changes` |
//! | attributes of a tree that is made, `drop`, `delete` | `creations` |
//! | the end of a line | `endings` |
//! | names of attributes, and pairs | `attr_words` |
//! | the law that each row is read as what it spells | `laws` |
#![tactic(auto)]

mod attr_commands;
mod attr_words;
pub mod attrs;
mod changes;
mod commands;
mod counts;
mod creations;
mod endings;
mod filters;
mod laws;
mod ranges;
#[cfg(test)]
mod tests;
pub mod trees;

pub use attr_commands::AttrCommand;
pub use attr_words::{AttrPairs, AttrWords, pair};
pub use commands::{TreeCommand, TreeHead};
pub use laws::rows_read_what_they_spell;

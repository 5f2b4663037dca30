//! Reads of trees: positions of bkeys, elements by position, numbers of elements in a range, and cursors along a range.
#![tactic(auto)]

mod cursors;
mod leaves;
mod positions;
#[cfg(test)]
mod tests;
mod way;

pub use cursors::{Cursor, count_in, places};
pub use positions::{Position, at_position, position_of};

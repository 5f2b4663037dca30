//! Reads over many trees at once: their elements of one range, merged by bkey.
//!
//! `walks` has one tree's way along the range, `tournament` finds the walk whose element is next, and `merge` puts both together.
//! `laws` says what a whole read hands out.
#![tactic(auto)]

mod laws;
mod merge;
#[cfg(test)]
mod tests;
mod tournament;
mod walks;

pub use laws::{adds_are_sorted, reads_are_merged};
pub use merge::Merge;

//! What an insert of a new bkey does in a tree that is full or whose bkeys are bounded.
//!
//! `plans` has the rule, `ends` the smallest and the greatest bkey of the elements with the new one, and the numbers of
//! elements that lie below a bkey.
#![tactic(auto)]

mod ends;
mod plans;
#[cfg(test)]
mod tests;

pub use plans::{Limits, TrimPlan, plan};

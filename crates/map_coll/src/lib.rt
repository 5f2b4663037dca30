//! Maps: values under distinct fields, in the order of insertion, found by the bytes of their fields.
//!
//! `pairs` has all of it. The laws on lists that show what another list holds are `arc_core`'s (`MappedLists`).
#![tactic(auto)]

mod pairs;
#[cfg(test)]
mod tests;

pub use pairs::MapColl;

//! Sets: distinct values in the order of insertion, found by their bytes.
//!
//! `values` has all of it. The laws on lists that show what another list holds are `arc_core`'s (`MappedLists`).
#![tactic(auto)]

#[cfg(test)]
mod tests;
mod values;

pub use values::SetColl;

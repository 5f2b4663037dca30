//! Lists: their elements by place, where an insert at an index goes, and what a range of indices names.
//!
//! `list` has the elements, `plan` the place of an insert and its trim, `span` the part that a range names. The types
//! `ListPlan` and `Part`, and the definitions of both, are `arc_core`'s.
#![tactic(auto)]

mod list;
mod plan;
mod span;
#[cfg(test)]
mod tests;

pub use arc_core::{ListPlan, Part};
pub use list::ListColl;

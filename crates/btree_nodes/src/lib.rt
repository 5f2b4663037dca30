//! Counted B+trees: the elements of a tree by rising bkeys, in nodes of 16 to 32 that know how many elements are below
//! each child.
#![tactic(auto)]

mod child;
mod moving;
mod runs;
mod search;
mod spare;
mod steps;
mod tree;

pub use child::{Child, Part, child_at};
pub use search::{child_with, count_before, number_below};
pub use steps::Steps;
pub use tree::Tree;

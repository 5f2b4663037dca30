//! The attributes of an item, read and set by their names.
//!
//! Nothing here takes memory.
//!
//! `names` knows which word names which attribute, `read` reads a value, `set` sets one.
#![tactic(auto)]

mod names;
mod read;
mod set;
#[cfg(test)]
mod tests;

pub use names::attr_names;
pub use read::{AttrUnknown, read_attr};
pub use set::{AttrFault, set_attr};

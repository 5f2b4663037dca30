//! Key-value items: a value with its client flags, expiry and cas unique, and what is made of it.
//!
//! `item` is the item, `joins` makes one of another's value and of bytes around it, `counts` counts values that spell
//! numbers.
#![tactic(auto)]

mod counts;
mod item;
mod joins;
#[cfg(test)]
mod tests;

pub use counts::{NotNumeric, counted};
pub use item::KvItem;
pub use joins::JoinFault;

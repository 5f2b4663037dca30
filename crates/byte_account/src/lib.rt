//! The shelf: which items stay in memory.
//!
//! It keeps items under their keys, accounts the bytes of each, keeps the order in which they were used, and finds
//! room for more by the least eviction. Sticky items are accounted and never evicted, and within a share of their own.
//!
//! - `shelf`: the shelf itself, over its two sides
//! - `recency_list`: the side of the items that may be evicted, most recently used first
//! - `numbers`: how a key's place is found there
//! - `sticky_table`: the side of the sticky items
//! - `room`, `put`: the answers on room and on putting an item
//! - `weighs`: what the shelf asks of an item
#![tactic(auto)]

mod numbers;
mod put;
mod recency_list;
mod room;
mod shelf;
mod sticky_table;
mod weighs;

pub use put::Put;
pub use room::Room;
pub use shelf::Shelf;
pub use weighs::Weighs;

#[cfg(test)]
mod tests;

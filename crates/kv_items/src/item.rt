//! The item.
ghost use Rattle.std.specs.Prelude.{◌≤◌, length};

use arc_core::{Expiry, Value};

/// A key-value item. Its value has 1,048,576 bytes at most.
#[derive(Drop)]
pub struct KvItem {
    /// What the client keeps beside the value.
    pub flags: u32,
    pub expiry: Expiry,
    /// The cas unique.
    pub unique: u64,
    pub value: Value,
    ghost fits: { length value ≤ 1048576 },
}

//! Items made of a value, or of the value of another item.
ghost use Rattle.std.specs.Prelude.{◌≡◌, ◌≤◌, length, IfOk};
ghost use Rattle.arc_core.specs.Item.{key_value};
ghost use Rattle.kv_items.specs.PlainItem.{plain_item};
ghost use Rattle.kv_items.specs.Joining.{Joins};

use crate::KvItem;
use arc_core::{Expiry, MAX_VALUE_BYTES, NoMemory, Value};
use std::alloc::Global;

/// Why two pieces and a value were not joined.
#[derive(Clone, Copy, Debug, PartialEq, Eq)]
pub enum JoinFault {
    /// They have so many bytes, more than 1,048,576.
    TooLong(usize),
    /// Memory was refused.
    NoMemory,
}

impl KvItem {
    /// An item with a copy of the value, which has 1,048,576 bytes at most. `NoMemory` comes for want of memory alone.
    pub fn new(
        alloc: Global,
        flags: u32,
        expiry: Expiry,
        unique: u64,
        value: &[u8],
    ) -> Result<KvItem, NoMemory>
        requires { length value.now ≤ 1048576 }
        ensures { IfOk result (λ item. plain_item item ≡ key_value flags expiry unique value.now) }
    {
        let value = Value::copy(alloc, value)?;
        Ok(KvItem {
            flags,
            expiry,
            unique,
            value,
        })
    }

    /// The item with `front`, its value and `back` as one value, and with another cas unique. `front` and `back` have
    /// 1,048,576 bytes each at most. (memcached's `append` and `prepend`: client flags and expiry stay.)
    ///
    /// `TooLong` comes exactly where they have more than 1,048,576 bytes together. `NoMemory` comes for want of memory
    /// alone.
    pub fn joined(&self, front: &[u8], back: &[u8], unique: u64) -> Result<KvItem, JoinFault>
        requires front { length front.now ≤ 1048576 }
        requires back { length back.now ≤ 1048576 }
        ensures { Joins self.now front.now back.now unique result }
    {
        let len = front.len() + self.value.bytes().len() + back.len();
        if len > MAX_VALUE_BYTES as usize {
            return Err(JoinFault::TooLong(len));
        }
        let Ok(value) = self.value.joined(front, back) else {
            return Err(JoinFault::NoMemory);
        };
        Ok(KvItem {
            flags: self.flags,
            expiry: self.expiry,
            unique,
            value,
        })
    }
}

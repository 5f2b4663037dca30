//! Values of items and elements.
ghost use Rattle.std.specs.Prelude.{◌≡◌, ◌+◌, ◌^◌, ◌<◌, ◌++◌, length, IfOk};

use crate::NoMemory;
use bytes::Bytes;
use std::alloc::Global;
use std::marker::Model;

/// The most bytes of an item's value, and of a block of keys.
pub const MAX_VALUE_BYTES: u32 = 1_048_576;

/// The most bytes of an element's value.
pub const MAX_ELEMENT_BYTES: u32 = 32_768;

// From so many bytes on a value is shared. (Measured, a value that is stored and read once: with 1,024 bytes 583
// instructions and 88 ns where it is copied, 799 and 98 ns where it is shared; with 2,048 bytes 140 ns and 123 ns; with
// 4,096 bytes 1,459 and 173 ns, 1,229 and 143 ns.)
const SHARED_LEN: usize = 2_048;

/// The bytes of an item or element. Contracts see it as the list of its bytes.
///
/// A large value has its memory in common with all that were shared of it. A small one has its own.
#[derive(Drop)]
pub struct Value {
    block: Block,
}

// Where the bytes lie. `Shared` is boxed to keep a value within 32 bytes.
#[derive(Drop)]
enum Block {
    Own(Vec<u8>),
    Shared(Box<Bytes>),
}

impl Model for Value {
    ghost use Rattle.std.specs.Prelude.{List, ℕ};
    ghost use Rattle.arc_core.specs.Growth.{bytes_of};

    ghost Value = { List ℕ };

    ghost view = { λ value. bytes_of value.block };
}

impl Value {
    /// The value of bytes that have memory of their own, which is not copied. `NoMemory` comes for want of memory alone.
    pub fn of_vec(bytes: Vec<u8>) -> Result<Value, NoMemory>
        ensures { IfOk result (λ value. value ≡ bytes.items) }
    {
        let alloc = *bytes.allocator();
        if bytes.len() < SHARED_LEN {
            return Ok(Value {
                block: Block::Own(bytes),
            });
        }
        let bytes = Bytes::from_vec(bytes)?;
        Ok(Value {
            block: Block::Shared(Box::new(alloc, bytes)?),
        })
    }

    /// Copies bytes. `NoMemory` comes for want of memory alone.
    pub fn copy(alloc: Global, bytes: &[u8]) -> Result<Value, NoMemory>
        ensures { IfOk result (λ copy. copy ≡ bytes.now) }
    {
        Value::of_vec(Vec::from_slice(alloc, bytes)?)
    }

    /// An equal value: a large one has the same memory, a small one is copied. `NoMemory` comes for want of memory alone.
    pub fn share(&self) -> Result<Value, NoMemory>
        ensures { IfOk result (λ equal. equal ≡ self.now) }
    {
        let alloc = self.allocator();
        let block = match &self.block {
            Block::Own(bytes) => Block::Own(Vec::from_slice(alloc, bytes)?),
            Block::Shared(bytes) => Block::Shared(Box::new(alloc, Bytes::clone(bytes)?)?),
        };
        Ok(Value { block })
    }

    /// The bytes of `front`, of this value and of `back`, one after another, which are fewer than 2^64. `NoMemory` comes
    /// for want of memory alone.
    pub fn joined(&self, front: &[u8], back: &[u8]) -> Result<Value, NoMemory>
        requires { length front.now + length self.now + length back.now < 2 ^ 64 }
        ensures { IfOk result (λ joined. joined ≡ front.now ++ self.now ++ back.now) }
    {
        let own = self.bytes();
        let len = front.len() + own.len() + back.len();
        let mut bytes = Vec::with_capacity(self.allocator(), len)?;
        bytes.extend_from_slice(front)?;
        bytes.extend_from_slice(own)?;
        bytes.extend_from_slice(back)?;
        Value::of_vec(bytes)
    }

    /// The value's bytes.
    pub fn bytes(&self) -> &[u8]
        ensures { result.now ≡ self.now }
    {
        match &self.block {
            Block::Own(bytes) => bytes,
            Block::Shared(bytes) => bytes.as_slice(),
        }
    }
    // What gave the value its memory.
    fn allocator(&self) -> Global {
        match &self.block {
            Block::Own(bytes) => *bytes.allocator(),
            Block::Shared(bytes) => *Box::allocator(bytes),
        }
    }
}

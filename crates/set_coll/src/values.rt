//! The values of a set.
ghost use Rattle.std.specs.Prelude.{◌≡◌, ◌+◌, ◌%◌, ◌^◌, ◌≤◌, ◌<◌, [], ◌∷◌, ◌++◌, length, map, remove, drop, slice_get, IfSome, OnOk, OnErr};
ghost use Rattle.arc_core.specs.CollectionSize.{value_size, values_size};
ghost use Rattle.arc_core.specs.SetReading.{place_of, AreDistinct};

use arc_core::NoMemory;
use indexmap::IndexSet;
use std::alloc::Global;
use std::marker::Model;

// The most values of a set, so that its count and its places are numbers of 32 bits.
const MAX_VALUES: usize = 4_294_967_295;

/// The values of a set.
///
/// Contracts see it as the list of its distinct values, in the order of insertion, and `spare`, the number of further
/// values for which it has room. It has room for at most 2^32 - 1 values in all, far above what a set may be made to
/// hold.
#[derive(Drop)]
pub struct SetColl {
    table: IndexSet<Vec<u8>>,
    // The stated sizes of the values together, modulo 2^64.
    size: u64,
}

impl Model for SetColl {
    ghost use Rattle.std.specs.Prelude.{◌≡◌, ◌%◌, ◌^◌, ◌≤◌, length, map};
    ghost use Rattle.arc_core.specs.CollectionSize.{values_size};
    ghost use Rattle.indexmap.specs.IndexSet.{spare};
    ghost use Rattle.set_coll.specs.SetContents.{SetContents, most_values, room_of};

    ghost Value = { SetContents };

    ghost view = { λ it. record {
      values = map (λ v. v.items) it.table.keys;
      spare = room_of (length it.table.keys) (spare it.table);
    } };

    ghost invariant = { λ it. (length it.table.keys ≤ most_values) × (it.size ≡ values_size (map (λ v. v.items) it.table.keys) % 2 ^ 64) };
}

impl SetColl {
    /// The empty set. Takes no memory.
    pub fn new(alloc: Global) -> SetColl
        ensures { result.values ≡ [] }
    {
        SetColl {
            table: IndexSet::new(alloc),
            size: 0,
        }
    }

    /// The number of values, which are distinct.
    pub fn count(&self) -> u32
        ensures count { result ≡ length self.now.values }
        ensures distinct { AreDistinct self.now.values }
    {
        self.table.len() as u32
    }

    /// The stated sizes of the values together, in bytes and modulo 2^64: 32 and its bytes for each (this server's own).
    /// It is a number that each change keeps right, so that no value is looked at.
    pub fn size(&self) -> u64
        ensures { result ≡ values_size self.now.values % 2 ^ 64 }
    {
        self.size
    }

    /// Makes room for one more value.
    ///
    /// `NoMemory` comes for want of memory, and in a set of 2^32 - 1 values. It never comes where there is room.
    pub fn reserve(&mut self) -> Result<(), NoMemory>
        ensures values { self.new.values ≡ self.old.values }
        ensures room { OnOk result (1 ≤ self.new.spare) }
        ensures spare { self.old.spare ≤ self.new.spare }
        ensures refused { OnErr result (self.old.spare ≡ 0) }
    {
        if self.table.len() == MAX_VALUES {
            return Err(NoMemory);
        }
        self.table.reserve(1)?;
        Ok(())
    }

    /// The place of a value, counted from 0 in the order of insertion. Takes no memory.
    pub fn place_of(&self, value: &[u8]) -> Option<u32>
        ensures place { result ≡ place_of value.now self.now.values }
        ensures within { IfSome result (λ place. place < length self.now.values) }
    {
        let place = self.table.get_index_of(value)?;
        Some(place as u32)
    }

    /// Puts a new value last. Takes no memory.
    pub fn insert_spare(&mut self, value: Vec<u8>)
        requires spare { 1 ≤ self.old.spare }
        requires absent { place_of value.items self.old.values ≡ None }
        ensures values { self.new.values ≡ self.old.values ++ value.items ∷ [] }
        ensures spare { self.old.spare ≤ self.new.spare + 1 }
    {
        self.size = self.size.wrapping_add(value_size(&value));
        self.table.insert(value).unwrap();
    }

    /// The value at a place.
    pub fn at(&self, place: u32) -> &[u8]
        requires { place < length self.now.values }
        ensures { slice_get self.now.values place ≡ Some result.now }
    {
        &self.table.as_slice()[place as usize]
    }

    /// Removes the value at a place. The others keep their order, which costs a move of each that is behind it. Takes no
    /// memory.
    pub fn remove(&mut self, place: u32)
        requires { place < length self.old.values }
        ensures values { self.new.values ≡ remove self.old.values place }
        ensures spare { self.old.spare ≤ self.new.spare }
    {
        let gone = value_size(&self.table.as_slice()[place as usize]);
        self.size = self.size.wrapping_sub(gone);
        self.table.shift_remove_index(place as usize);
    }

    /// Removes the first `n` values, or all where there are fewer, in one step. The others keep their order. Takes no
    /// memory.
    pub fn remove_first(&mut self, n: u32)
        ensures values { self.new.values ≡ drop n self.old.values }
        ensures spare { self.old.spare ≤ self.new.spare }
    {
        let n = self.table.len().min(n as usize);
        let gone = values_size(&self.table.as_slice()[..n]);
        self.size = self.size.wrapping_sub(gone);
        self.table.drain(..n);
    }

    /// Removes all values in one step. Takes no memory.
    pub fn remove_all(&mut self)
        ensures values { self.new.values ≡ [] }
        ensures spare { self.old.spare ≤ self.new.spare }
    {
        self.size = 0;
        self.table.clear();
    }
}

// The stated size of a value, in bytes.
fn value_size(value: &[u8]) -> u64
    ensures { result ≡ value_size value.now }
{
    32 + value.len() as u64
}

// The stated sizes of these values together, modulo 2^64.
fn values_size(values: &[Vec<u8>]) -> u64
    ensures { result ≡ values_size (map (λ v. v.items) values.now) % 2 ^ 64 }
{
    let mut size = 0u64;
    for value in values {
        size = size.wrapping_add(value_size(value));
    }
    size
}

//! The elements of a list.
ghost use Rattle.std.specs.Prelude.{◌≡◌, ◌+◌, ◌-◌, ◌%◌, ◌^◌, ◌≤◌, ◌<◌, ℕ, [], length, insert, slice_get, slice_range, OnOk, OnErr, IfSome};
ghost use Rattle.std.specs.List.{remove_range};
ghost use Rattle.arc_core.specs.CollectionSize.{value_size, values_size};
ghost use Rattle.arc_core.specs.InsertPlan.{IsListAction, KeepsLimit, insert_plan};
ghost use Rattle.arc_core.specs.Span.{span};

use crate::plan::plan_of;
use crate::span::part_of;
use arc_core::{Action, IndexRange, ListPlan, NoMemory, Part, Value};
use std::alloc::Global;
use std::collections::VecDeque;
use std::marker::Model;

// The most elements of a list, so that its count and its places are numbers of 32 bits.
const MAX_ELEMENTS: usize = 4_294_967_295;

/// The elements of a list.
///
/// Contracts see it as the list of the elements' values, from the head on, and `spare`, the number of further elements
/// for which it has room. It has room for at most 2^32 - 1 elements in all, far above what a list may be made to hold.
#[derive(Drop)]
pub struct ListColl {
    elements: VecDeque<Value>,
    // The stated sizes of the elements together, modulo 2^64.
    size: u64,
}

impl Model for ListColl {
    ghost use Rattle.std.specs.Prelude.{◌≡◌, ◌-◌, ◌%◌, ◌^◌, ◌≤◌, length};
    ghost use Rattle.std.specs.VecDeque.{deque_capacity};
    ghost use Rattle.arc_core.specs.CollectionSize.{values_size};
    ghost use Rattle.list_coll.specs.ListContents.{ListContents, most_elements, room_of};

    ghost Value = { ListContents };

    ghost view = { λ list. record {
      values = list.elements.items;
      spare = room_of (length list.elements.items) (deque_capacity list.elements - length list.elements.items);
    } };

    ghost invariant = { λ list. (length list.elements.items ≤ most_elements) × (list.size ≡ values_size list.elements.items % 2 ^ 64) };
}

impl ListColl {
    /// The empty list. Takes no memory.
    pub fn new(alloc: Global) -> ListColl
        ensures { result.values ≡ [] }
    {
        ListColl {
            elements: VecDeque::new(alloc),
            size: 0,
        }
    }

    /// The number of elements.
    pub fn count(&self) -> u32
        ensures { result ≡ length self.now.values }
    {
        self.elements.len() as u32
    }

    /// The stated sizes of the elements together, in bytes and modulo 2^64: 32 and the bytes of its value for each (this
    /// server's own). It is a number that each change keeps right, so that no element is looked at.
    pub fn size(&self) -> u64
        ensures { result ≡ values_size self.now.values % 2 ^ 64 }
    {
        self.size
    }

    /// Makes room for one more element.
    ///
    /// `NoMemory` comes for want of memory, and in a list of 2^32 - 1 elements. It never comes where there is room.
    pub fn reserve(&mut self) -> Result<(), NoMemory>
        ensures values { self.new.values ≡ self.old.values }
        ensures room { OnOk result (1 ≤ self.new.spare) }
        ensures spare { self.old.spare ≤ self.new.spare }
        ensures refused { OnErr result (self.old.spare ≡ 0) }
    {
        if self.elements.len() == MAX_ELEMENTS {
            return Err(NoMemory);
        }
        self.elements.reserve(1)?;
        Ok(())
    }

    /// What an insert at an index does in this list, which is full at `maxcount` elements (ARCUS's `lop insert`).
    ///
    /// An index at or above 0 is that place, up to the count; index -k is the place k - 1 before the end, so that -1
    /// puts last. `OutOfRange` comes for any other index. A full list answers `Overflowed` where its action is `Error`.
    /// Else index 0 trims the tail, index -1 the head, and any other index the end that the action names, with
    /// `OutOfRange` where the trimmed element would be the new one.
    pub fn plan(&self, index: i32, maxcount: u32, action: Action) -> ListPlan
        requires action { IsListAction action }
        requires maxcount { 1 ≤ maxcount }
        requires within { length self.now.values ≤ maxcount }
        ensures plan { result ≡ insert_plan index (length self.now.values) maxcount action }
        ensures limit { KeepsLimit (length self.now.values) maxcount result }
    {
        plan_of(index, self.count(), maxcount, action)
    }

    /// Puts an element at a place; those from that place on move towards the tail. Takes no memory.
    pub fn insert_spare(&mut self, place: u32, value: Value)
        requires spare { 1 ≤ self.old.spare }
        requires place { place ≤ length self.old.values }
        ensures values { self.new.values ≡ insert self.old.values place value }
        ensures spare { self.old.spare ≤ self.new.spare + 1 }
    {
        self.size = self.size.wrapping_add(value_size(&value));
        self.elements.insert(place as usize, value).unwrap();
    }

    /// The part of the list that a range of indices names (ARCUS's `lop get` and `lop delete`).
    ///
    /// An index at or above 0 is that place; index -k is the place k before the end, so that -1 is the last element.
    /// The part goes up where the first place is at most the last, and else down. It has those places alone that the
    /// list has, and `None` comes exactly where it has none. One index is the range from it to itself.
    pub fn span(&self, range: IndexRange) -> Option<Part>
        ensures part { result ≡ span range (length self.now.values) }
        ensures within { IfSome result (λ part. (part.low ≤ part.high) × (part.high < length self.now.values)) }
    {
        part_of(range, self.count())
    }

    /// The element at a place.
    pub fn at(&self, place: u32) -> &Value
        requires { place < length self.now.values }
        ensures { slice_get self.now.values place ≡ Some result.now }
    {
        &self.elements[place as usize]
    }

    /// Removes the elements from place `low` to place `high`, both of them too, in one step. Takes no memory.
    pub fn remove(&mut self, low: u32, high: u32)
        requires order { low ≤ high }
        requires within { high < length self.old.values }
        ensures values { self.new.values ≡ remove_range self.old.values low (high + 1) }
        ensures spare { self.new.spare ≡ self.old.spare + (high + 1 - low) }
    {
        let end = high as usize + 1;
        let gone = size_between(&self.elements, low as usize, end);
        self.size = self.size.wrapping_sub(gone);
        self.elements.drain(low as usize..end);
    }
}

// The stated size of an element, in bytes.
fn value_size(value: &Value) -> u64
    ensures { result ≡ value_size value.now }
{
    32 + value.bytes().len() as u64
}

// The stated sizes of the elements from place `low` to before place `high` together, modulo 2^64.
fn size_between(elements: &VecDeque<Value>, low: usize, high: usize) -> u64
    requires order { low ≤ high }
    requires within { high ≤ length elements.now.items }
    ensures { result ≡ values_size (slice_range elements.now.items low high) % 2 ^ 64 }
{
    let mut size = 0u64;
    for value in elements.range(low..high) {
        size = size.wrapping_add(value_size(value));
    }
    size
}

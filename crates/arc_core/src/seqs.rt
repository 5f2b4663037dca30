//! A sequence that grows at its end.
ghost use Rattle.std.specs.Prelude.{◌≡◌, ◌≤◌, [], IsOk, IfOk};
ghost use Rattle.std.specs.Mem.{FitsInMemory};
ghost use Rattle.arc_core.specs.Growth.{PutsLast};

use crate::NoMemory;
use std::alloc::Global;
use std::marker::Model;
use std::{mem, slice};

// The room of a sequence that gets its second item.
const SECOND_CAPACITY: usize = 4;

/// A sequence of items, of which one alone lies in place and takes no memory. Contracts see it as the list of them.
#[derive(Drop)]
pub struct Seq<T> {
    items: Items<T>,
}

// Where the items lie. (Most answers have one row, or none.)
#[derive(Drop)]
enum Items<T> {
    Empty(Global),
    One(Global, T),
    Many(Vec<T>),
}

impl<T> Model for Seq<T> {
    ghost use Rattle.std.specs.Prelude.{List};
    ghost use Rattle.arc_core.specs.Growth.{items_of};

    ghost Value = { List T };

    ghost view = { λ seq. items_of seq.items };
}

impl<T: Drop> Seq<T> {
    /// The empty sequence. Takes no memory.
    pub fn new(alloc: Global) -> Seq<T>
        ensures { result ≡ [] }
    {
        Seq {
            items: Items::Empty(alloc),
        }
    }

    /// The empty sequence, with room for so many items. `NoMemory` comes for want of memory alone, and never for one item.
    pub fn with_capacity(alloc: Global, capacity: usize) -> Result<Seq<T>, NoMemory>
        ensures room { IfOk result (λ seq. seq ≡ []) }
        ensures small { capacity ≤ 1 → IsOk result }
    {
        if capacity <= 1 {
            return Ok(Seq::new(alloc));
        }
        let items = Vec::with_capacity(alloc, capacity)?;
        Ok(Seq {
            items: Items::Many(items),
        })
    }

    /// Puts an item last. For want of memory the item is handed back, and nothing has changed.
    pub fn push(&mut self, item: T) -> Result<(), (T, NoMemory)>
        ensures { PutsLast self.old item self.new result }
    {
        match &mut self.items {
            Items::Empty(alloc) => {
                let alloc = *alloc;
                self.items = Items::One(alloc, item);
                Ok(())
            }
            Items::One(alloc, _) => {
                let alloc = *alloc;
                let Ok(mut items) = Vec::with_capacity(alloc, SECOND_CAPACITY) else {
                    return Err((item, NoMemory));
                };
                if let Items::One(_, first) = mem::replace(&mut self.items, Items::Empty(alloc)) {
                    items.push_reserved(first);
                }
                items.push_reserved(item);
                self.items = Items::Many(items);
                Ok(())
            }
            Items::Many(items) => match items.push(item) {
                Ok(()) => Ok(()),
                Err(refused) => Err((refused.value, NoMemory)),
            },
        }
    }

    /// The items in order. (`fits`: an item takes fewer than 2^63 bytes, as one of any type does; a call at a named type
    /// shows it by itself.)
    pub fn as_slice(&self) -> &[T]
        requires fits { FitsInMemory T.row }
        ensures { result.now ≡ self.now }
    {
        match &self.items {
            Items::Empty(_) => &[],
            Items::One(_, item) => slice::from_ref(item),
            Items::Many(items) => items,
        }
    }
}

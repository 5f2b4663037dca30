//! Empty nodes that are kept for splits.
ghost use Rattle.std.specs.Prelude.{◌≡◌, ◌+◌, ◌≤◌, ◌<◌, [], vec_capacity, OnOk, OnErr};

use crate::child::Child;
use arc_core::{Elem, NoMemory};
use std::alloc::Global;
use std::marker::Model;

/// The most elements of a leaf, and the most children of a branch.
pub(crate) const MAX_WIDTH: usize = 32;

/// A tree of fewer elements keeps no spare leaf from one insert to the next, since that would be a large part of it.
const KEPT_FROM: u32 = 256;

/// Empty vectors with room for 32. Contracts see how many there are.
#[derive(Drop)]
pub(crate) struct Empties<T> {
    vectors: Vec<Vec<T>>,
}

impl<T> Model for Empties<T> {
    ghost use Rattle.std.specs.Prelude.{ℕ, length};
    ghost use Rattle.std.specs.List.{All};
    ghost use Rattle.btree_nodes.specs.Empties.{IsEmptyRoom};

    ghost Value = { ℕ };

    ghost view = { λ empties. length empties.vectors.items };

    ghost invariant = { λ empties. All IsEmptyRoom empties.vectors.items };
}

impl<T: Drop> Empties<T> {
    /// There is none.
    pub(crate) fn new(alloc: Global) -> Empties<T>
        ensures { result ≡ 0 }
    {
        Empties {
            vectors: Vec::new(alloc),
        }
    }

    /// Where they take their memory from.
    pub(crate) fn allocator(&self) -> Global {
        *self.vectors.allocator()
    }

    /// Takes one away.
    pub(crate) fn take(&mut self) -> Vec<T>
        requires { 1 ≤ self.old }
        ensures left { self.new + 1 ≡ self.old }
        ensures empty { result.items ≡ [] }
        ensures room { 32 ≤ vec_capacity result }
    {
        self.vectors.pop().unwrap()
    }

    /// Lets all of them go.
    pub(crate) fn clear(&mut self)
        ensures { self.new ≡ 0 }
    {
        self.vectors.clear();
    }

    /// Makes them at least `number`. `NoMemory` comes for want of memory alone; those that were made stay.
    pub(crate) fn reserve(&mut self, number: usize) -> Result<(), NoMemory>
        ensures enough { OnOk result (number ≤ self.new) }
        ensures kept { self.old ≤ self.new }
        ensures refused { OnErr result (self.old < number) }
    {
        let alloc = *self.vectors.allocator();
        self.vectors
            .reserve_exact(number.saturating_sub(self.vectors.len()))?;
        for _made in self.vectors.len()..number {
            self.vectors.push(Vec::with_capacity(alloc, MAX_WIDTH)?)?;
        }
        Ok(())
    }
}

/// What an insert splits nodes with.
#[derive(Drop)]
pub(crate) struct Spare {
    pub(crate) leaves: Empties<Elem>,
    pub(crate) branches: Empties<Child>,
}

impl Spare {
    /// Lets a spare leaf go after an insert, where a tree of so many elements keeps none.
    pub(crate) fn let_go(&mut self, count: u32) {
        if count < KEPT_FROM {
            self.leaves.clear();
        }
    }
}

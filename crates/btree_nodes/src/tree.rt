//! Trees.
ghost use Rattle.std.specs.Prelude.{◌≡◌, ◌+◌, ◌%◌, ◌^◌, ◌≤◌, ◌<◌, [], false, true, insert, length, slice_index_or, slice_range, slice_set, OnOk, OnErr};
ghost use Rattle.std.specs.List.{All, remove, remove_range};
ghost use Rattle.arc_core.specs.declared.trees.Elem.{Elem};
ghost use Rattle.arc_core.specs.BkeyOrder.{are_of_one_kind};
ghost use Rattle.arc_core.specs.TreeContents.{IsRising, elem_sizes, place_of};
ghost use Rattle.btree_nodes.specs.Contents.{MayBeHigh};
ghost use Rattle.btree_nodes.specs.PartRules.{elements_of, entered_elements, entered_height, height_of, IsPart};
ghost use Rattle.btree_nodes.specs.Removal.{IsRun};
ghost use Rattle.btree_nodes.specs.Ways.{FitsKind, has_bkey};

use crate::child::{Child, Part};
use crate::runs::Run;
use crate::search::{child_with, count_before, number_below};
use crate::spare::{Empties, MAX_WIDTH, Spare};
use crate::steps::Steps;
use arc_core::{Bkey, Elem, NoMemory};
use std::alloc::Global;
use std::marker::Model;
use std::mem;
use std::sync::ledger::Ledger;

/// The elements of a tree, by rising bkeys of one kind.
///
/// Contracts see the list of the elements, `spare`, for how many further elements there is room (0 or 1), and the height:
/// how many nodes stand on a way from the root down to a leaf. Nodes have at most 32 elements or children, and at least 16
/// but for the root; all leaves are at one depth.
#[derive(Drop)]
pub struct Tree {
    root: Child,
    height: u32,
    spare: Spare,
}

impl Model for Tree {
    ghost use Rattle.btree_nodes.specs.Contents.{Contents};
    ghost use Rattle.btree_nodes.specs.TreeRules.{contents_of, IsTree};

    ghost Value = { Contents };

    ghost view = { λ tree. contents_of tree.root tree.spare };

    ghost invariant = { λ tree. IsTree tree.root tree.height };
}

impl Tree {
    /// The empty tree. Takes no memory.
    pub fn new(alloc: Global) -> Tree
        ensures { result.elements ≡ [] }
    {
        Tree {
            root: Child::of_leaf(Vec::new(alloc)),
            height: 1,
            spare: Spare {
                leaves: Empties::new(alloc),
                branches: Empties::new(alloc),
            },
        }
    }

    /// The number of elements.
    pub fn count(&self) -> u32
        ensures { result ≡ length self.now.elements }
    {
        self.root.count()
    }

    /// Enters the root, or a child, and adds one step.
    pub fn part<'t, L: Ledger>(&'t self, child: Option<&'t Child>, steps: &mut Steps<L>) -> Part<'t>
        ensures elements { elements_of result ≡ entered_elements self.now child.entry }
        ensures height { height_of result ≡ entered_height self.now child.entry }
        ensures part { IsPart result }
        ensures steps { steps.new ≡ steps.old + 1 }
        ensures rising { IsRising self.now.elements }
        ensures high { MayBeHigh (length self.now.elements) self.now.height }
    {
        steps.tick();
        child.unwrap_or(&self.root).part()
    }

    /// Makes room for one more element.
    ///
    /// `NoMemory` comes for want of memory, and in a tree of 2^32 - 1 elements. It never comes where there is room.
    pub fn reserve(&mut self) -> Result<(), NoMemory>
        ensures elements { self.new.elements ≡ self.old.elements }
        ensures room { OnOk result (1 ≤ self.new.spare) }
        ensures spare { self.old.spare ≤ self.new.spare }
        ensures refused { OnErr result (self.old.spare ≡ 0) }
    {
        if self.root.count() == u32::MAX {
            return Err(NoMemory);
        }
        let full = self.root.width() == MAX_WIDTH;
        if self.height == 1 && !full {
            return self.root.grow();
        }
        let branches = if full { self.height } else { self.height - 2 };
        self.spare.leaves.reserve(1)?;
        self.spare.branches.reserve(branches as usize)
    }

    /// Puts an element in its place, by its bkey. Takes no memory.
    pub fn insert_spare(&mut self, elem: Elem)
        requires spare { 1 ≤ self.old.spare }
        requires absent { has_bkey elem.bkey self.old.elements ≡ false }
        requires kind { FitsKind elem.bkey self.old.elements }
        ensures elements { self.new.elements ≡ insert self.old.elements (place_of elem.bkey self.old.elements) elem }
    {
        let place = self.place_of(&elem.bkey);
        self.insert_spare_at(place, elem);
    }

    /// Puts an element in its place, where that is known: so many elements have smaller bkeys. Takes no memory.
    pub fn insert_spare_at(&mut self, place: u32, elem: Elem)
        requires spare { 1 ≤ self.old.spare }
        requires absent { has_bkey elem.bkey self.old.elements ≡ false }
        requires kind { FitsKind elem.bkey self.old.elements }
        requires place { place ≡ place_of elem.bkey self.old.elements }
        ensures elements { self.new.elements ≡ insert self.old.elements place elem }
    {
        if self.root.width() < MAX_WIDTH {
            self.root.insert(place as usize, elem, &mut self.spare);
            self.spare.let_go(self.root.count());
            return;
        }
        let empty = Child::of_leaf(Vec::new(self.spare.leaves.allocator()));
        let root = mem::replace(&mut self.root, empty);
        self.root = root.raised(place as usize, elem, &mut self.spare);
        self.height += 1;
    }

    /// How many elements have smaller bkeys than this one.
    fn place_of(&self, bkey: &Bkey) -> u32
        ensures { result ≡ place_of bkey.now self.now.elements }
    {
        let mut before = 0;
        let mut total = self.root.count();
        let mut part = self.root.part();
        while let Part::Branch(children) = part {
            let index = child_with(children, bkey);
            before += count_before(children, total, index);
            let child = &children[index];
            total = child.count();
            part = child.part();
        }
        let Part::Leaf(elements) = part else {
            unreachable!()
        };
        before + number_below(elements, bkey) as u32
    }

    /// Puts another element of the same bkey in a place, and hands the old one out. Takes no memory.
    pub fn replace(&mut self, place: u32, elem: Elem) -> Elem
        requires place { place < length self.old.elements }
        requires same { (d : Elem) → elem.bkey ≡ (slice_index_or self.old.elements place d).bkey }
        ensures elements { self.new.elements ≡ slice_set self.old.elements place elem }
        ensures old { result ≡ slice_index_or self.old.elements place result }
        ensures spare { self.new.spare ≡ self.old.spare }
    {
        self.root.replace(place as usize, elem)
    }

    /// Takes at least one and at most `most` elements from a place on away.
    fn trim(&mut self, place: u32, most: usize, run: &mut Run)
        requires place { place < length self.old.elements }
        requires most { 1 ≤ most }
        ensures run { IsRun self.old.elements place most self.new.elements run.new }
        ensures spare { self.old.spare ≤ self.new.spare }
    {
        self.root
            .trim_as_root(&mut self.height, place as usize, most, run);
    }

    /// Takes an element away and hands it out. Takes no memory.
    pub fn remove(&mut self, place: u32) -> Elem
        requires { place < length self.old.elements }
        ensures elements { self.new.elements ≡ remove self.old.elements place }
        ensures element { result ≡ slice_index_or self.old.elements place result }
        ensures spare { self.old.spare ≤ self.new.spare }
    {
        let mut run = Run::new();
        self.trim(place, 1, &mut run);
        run.last.unwrap()
    }

    /// Takes the elements from place `low` to before place `high` away, and answers their stated sizes together, modulo 2^64.
    /// Takes no memory.
    pub fn remove_range(&mut self, low: u32, high: u32) -> u64
        requires order { low ≤ high }
        requires within { high ≤ length self.old.elements }
        ensures elements { self.new.elements ≡ remove_range self.old.elements low high }
        ensures size { result ≡ elem_sizes (slice_range self.old.elements low high) % 2 ^ 64 }
        ensures spare { self.old.spare ≤ self.new.spare }
    {
        let mut left = (high - low) as usize;
        let mut size = 0u64;
        let mut run = Run::new();
        while left > 0 {
            self.trim(low, left, &mut run);
            left -= run.count;
            size = size.wrapping_add(run.size);
        }
        size
    }
}

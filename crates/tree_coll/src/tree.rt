//! A tree as an item holds it.
ghost use Rattle.std.specs.Prelude.{◌≡◌, ◌+◌, ◌%◌, ◌^◌, ◌≤◌, ◌<◌, length, slice_range, OnOk, OnErr};
ghost use Rattle.std.specs.List.{remove_range};
ghost use Rattle.arc_core.specs.TreeContents.{IsRising, bkey_size, elem_size, elem_sizes, with_element};
ghost use Rattle.arc_core.specs.TreeReading.{is_selected, keeps_edge};
ghost use Rattle.btree_nodes.specs.Ways.{FitsKind};
ghost use Rattle.btree_scan.specs.Positions.{position_in};
ghost use Rattle.btree_scan.specs.declared.positions.Position.TheVariants.{At, Before};
ghost use Rattle.tree_coll.specs.TreeOutcomes.{empty_tree, holding};
ghost use Rattle.tree_coll.specs.TreePlanning.{changed, left_by, room_asked, without_between, FitsOut, IsNewFor, SuitsChange};

use crate::{TreeChange, TreeRemoval};
use arc_core::{Bkey, Edges, Elem, Filter, NoMemory};
use btree_nodes::{Steps, Tree};
use btree_scan::at_position;
use eflag_filter::passes;
use std::alloc::Global;
use std::marker::Model;
use std::sync::ledger::Ledger;

// What the stated size of an element counts beside its bytes.
const ELEMENT_BYTES: u64 = 48;

/// The elements of a tree and its edges: up to which bkey it was trimmed at each end, where a trim was told.
///
/// Contracts see elements and edges as `contents`, and `spare`, for how many further elements there is room (0 or 1).
#[derive(Drop)]
pub struct TreeColl {
    tree: Tree,
    edges: Edges,
    // The stated sizes of the elements together, modulo 2^64.
    size: u64,
}

impl Model for TreeColl {
    ghost use Rattle.std.specs.Prelude.{◌≡◌, ◌%◌, ◌^◌};
    ghost use Rattle.arc_core.specs.TreeContents.{elem_sizes};
    ghost use Rattle.tree_coll.specs.TreeHolding.{TreeHeld, contents_of};

    ghost Value = { TreeHeld };

    ghost view = { λ it. record { contents = contents_of it.tree.elements it.edges; spare = it.tree.spare } };

    ghost invariant = { λ it. it.size ≡ elem_sizes it.tree.elements % 2 ^ 64 };
}

impl TreeColl {
    /// The empty tree, without edges. Takes no memory.
    pub fn new(alloc: Global) -> TreeColl
        ensures { result.contents ≡ empty_tree }
    {
        TreeColl {
            tree: Tree::new(alloc),
            edges: Edges {
                low: None,
                high: None,
            },
            size: 0,
        }
    }

    /// The number of elements.
    pub fn count(&self) -> u32
        ensures { result ≡ length self.now.contents.elements }
    {
        self.tree.count()
    }

    /// The stated sizes of the elements together, in bytes and modulo 2^64: 48, the bytes of its bkey (8 for a number), of
    /// its flag and of its value for each (this server's own). It is a number that each change keeps right, so that no
    /// element is looked at.
    pub fn size(&self) -> u64
        ensures { result ≡ elem_sizes self.now.contents.elements % 2 ^ 64 }
    {
        self.size
    }

    /// The elements, to be read.
    pub fn tree(&self) -> &Tree
        ensures { result.now.elements ≡ self.now.contents.elements }
    {
        &self.tree
    }

    /// The edges.
    pub fn edges(&self) -> &Edges
        ensures { result.now ≡ self.now.contents.edges }
    {
        &self.edges
    }

    /// Whether an edge is kept (the attribute `trimmed`).
    pub fn is_trimmed(&self) -> bool
        ensures { result ≡ keeps_edge self.now.contents.edges }
    {
        self.edges.low.is_some() || self.edges.high.is_some()
    }

    /// Makes room for one more element.
    ///
    /// `NoMemory` comes for want of memory, and in a tree of 2^32 - 1 elements. It never comes where there is room.
    pub fn reserve(&mut self) -> Result<(), NoMemory>
        ensures contents { self.new.contents ≡ self.old.contents }
        ensures room { OnOk result (1 ≤ self.new.spare) }
        ensures spare { self.old.spare ≤ self.new.spare }
        ensures refused { OnErr result (self.old.spare ≡ 0) }
    {
        self.tree.reserve()
    }

    /// Takes the elements from place `low` to before place `high` away, lowest bkey first and counted from 0, in one pass. The
    /// edges stay. Takes no memory.
    #[tactic(auto, using(crate::proofs::SizeLemmas::range_removed))]
    pub fn remove_places(&mut self, low: u32, high: u32)
        requires order { low ≤ high }
        requires within { high ≤ length self.old.contents.elements }
        ensures contents { self.new.contents ≡ holding (remove_range self.old.contents.elements low high) self.old.contents }
        ensures spare { self.old.spare ≤ self.new.spare }
    {
        let gone = self.tree.remove_range(low, high);
        self.size = self.size.wrapping_sub(gone);
    }

    /// Takes elements out, in one pass. The edges stay. Takes no memory.
    ///
    /// Without a filter it looks at no element; else at each from the first place to before the last.
    pub fn remove<L: Ledger>(&mut self, removal: &TreeRemoval<'_>, steps: &mut Steps<L>)
        requires { FitsOut removal.now self.old.contents.elements }
        ensures contents { self.new.contents ≡ holding (left_by removal.now self.old.contents.elements) self.old.contents }
        ensures spare { self.old.spare ≤ self.new.spare }
    {
        match removal.filter {
            None => self.remove_places(removal.low, removal.high),
            Some(filter) => self.remove_passing(removal.low, removal.high, filter, steps),
        }
    }

    // Takes the elements from place `low` to before place `high` away that pass the filter, from the last one on, so that the
    // places of those that are still to come stay.
    fn remove_passing<L: Ledger>(
        &mut self,
        low: u32,
        high: u32,
        filter: &Filter<'_>,
        steps: &mut Steps<L>,
    )
        requires order { low ≤ high }
        requires within { high ≤ length self.old.contents.elements }
        ensures contents { self.new.contents ≡ holding (without_between (is_selected (Some filter.now)) low high self.old.contents.elements) self.old.contents }
        ensures spare { self.old.spare ≤ self.new.spare }
    {
        let mut place = high;
        while place > low {
            let next = place;
            place -= 1;
            self.remove_passing_at(place, next, filter, steps);
        }
    }

    // Takes the element in a place, which comes before the next one, away where it passes the filter.
    fn remove_passing_at<L: Ledger>(
        &mut self,
        place: u32,
        next: u32,
        filter: &Filter<'_>,
        steps: &mut Steps<L>,
    )
        requires next { next ≡ place + 1 }
        requires within { place < length self.old.contents.elements }
        ensures contents { self.new.contents ≡ holding (without_between (is_selected (Some filter.now)) place next self.old.contents.elements) self.old.contents }
        ensures spare { self.old.spare ≤ self.new.spare }
    {
        if passes(filter, &at_position(self.tree(), place, steps).eflag) {
            self.remove_places(place, next);
        }
    }

    /// Puts an element in its place, for which there has to be room: `place` elements have smaller bkeys, and none has its
    /// own. The edges stay. Takes no memory.
    pub fn insert_spare(&mut self, place: u32, elem: Elem)
        requires spare { 1 ≤ self.old.spare }
        requires rising { IsRising self.old.contents.elements }
        requires place { Before place ≡ position_in elem.bkey self.old.contents.elements }
        requires kind { FitsKind elem.bkey self.old.contents.elements }
        ensures contents { self.new.contents ≡ holding (with_element elem self.old.contents.elements) self.old.contents }
    {
        let gained = elem_size(&elem);
        self.tree.insert_spare_at(place, elem);
        self.size = self.size.wrapping_add(gained);
    }

    /// Puts an element in the place of the one that has its bkey. The edges stay. Takes no memory.
    pub fn replace(&mut self, place: u32, elem: Elem)
        requires rising { IsRising self.old.contents.elements }
        requires place { At place ≡ position_in elem.bkey self.old.contents.elements }
        ensures contents { self.new.contents ≡ holding (with_element elem self.old.contents.elements) self.old.contents }
        ensures spare { self.new.spare ≡ self.old.spare }
    {
        let gained = elem_size(&elem);
        let old = self.tree.replace(place, elem);
        let lost = elem_size(&old);
        self.size = self.size.wrapping_add(gained).wrapping_sub(lost);
    }

    // Puts an element with a new bkey in its place, for which there has to be room. The edges stay.
    fn insert_new(&mut self, elem: Elem)
        requires spare { 1 ≤ self.old.spare }
        requires new { IsNewFor elem.bkey self.old.contents.elements }
        ensures contents { self.new.contents ≡ holding (with_element elem self.old.contents.elements) self.old.contents }
    {
        let gained = elem_size(&elem);
        self.tree.insert_spare(elem);
        self.size = self.size.wrapping_add(gained);
    }

    /// The stated sizes of the elements together after a change, in bytes and modulo 2^64. It looks at the elements that the
    /// change trims or replaces, and at no others.
    pub fn size_with<L: Ledger>(&self, change: &TreeChange, steps: &mut Steps<L>) -> u64
        requires { SuitsChange change.now self.now.contents.elements }
        ensures { result ≡ elem_sizes (changed change.now self.now.contents).elements % 2 ^ 64 }
    {
        match change {
            TreeChange::Store {
                low,
                high,
                edges: _,
                elem,
            } => {
                let lost = self.size_between(*low, *high, steps);
                self.size.wrapping_add(elem_size(elem)).wrapping_sub(lost)
            }
            TreeChange::Replace { place, elem } => {
                let lost = elem_size(at_position(self.tree(), *place, steps));
                self.size.wrapping_add(elem_size(elem)).wrapping_sub(lost)
            }
            TreeChange::MoveEdges(_) => self.size,
        }
    }

    // The stated sizes of the elements from place `low` to before place `high` together, modulo 2^64.
    fn size_between<L: Ledger>(&self, low: u32, high: u32, steps: &mut Steps<L>) -> u64
        requires order { low ≤ high }
        requires within { high ≤ length self.now.contents.elements }
        ensures { result ≡ elem_sizes (slice_range self.now.contents.elements low high) % 2 ^ 64 }
    {
        let mut size = 0u64;
        for place in low..high {
            size = size.wrapping_add(elem_size(at_position(self.tree(), place, steps)));
        }
        size
    }

    /// Takes the room for which a change asks. `NoMemory` comes as for `reserve`; then nothing has changed.
    pub fn reserve_for(&mut self, change: &TreeChange) -> Result<(), NoMemory>
        ensures contents { self.new.contents ≡ self.old.contents }
        ensures room { OnOk result (room_asked change.now ≤ self.new.spare) }
    {
        match change {
            TreeChange::Store { .. } => self.reserve(),
            TreeChange::Replace { .. } | TreeChange::MoveEdges(_) => Ok(()),
        }
    }

    /// Makes a change, for which there has to be room. Takes no memory.
    pub fn change(&mut self, change: TreeChange)
        requires suits { SuitsChange change self.old.contents.elements }
        requires room { room_asked change ≤ self.old.spare }
        ensures { self.new.contents ≡ changed change self.old.contents }
    {
        match change {
            TreeChange::Store {
                low,
                high,
                edges,
                elem,
            } => {
                self.remove_places(low, high);
                self.insert_new(elem);
                self.set_edges(edges);
            }
            TreeChange::Replace { place, elem } => self.replace(place, elem),
            TreeChange::MoveEdges(edges) => self.set_edges(edges),
        }
    }

    /// Lets the tree have other edges. Takes no memory.
    pub fn set_edges(&mut self, edges: Edges)
        ensures contents { self.new.contents ≡ record self.old.contents { edges = edges } }
        ensures spare { self.new.spare ≡ self.old.spare }
    {
        self.edges = edges;
    }
}

// The bytes that a bkey counts: its own, or 8 for a number.
fn bkey_size(bkey: &Bkey) -> usize
    ensures size { result ≡ bkey_size bkey.now }
    ensures most { result ≤ 31 }
{
    match bkey {
        Bkey::Number(_) => 8,
        Bkey::Bytes(bytes) => bytes.bytes().len(),
    }
}

// The stated size of an element, in bytes.
fn elem_size(elem: &Elem) -> u64
    ensures { result ≡ elem_size elem.now }
{
    let eflag = elem.eflag.as_ref().map_or(0, |eflag| eflag.bytes().len());
    ELEMENT_BYTES + bkey_size(&elem.bkey) as u64 + eflag as u64 + elem.value.bytes().len() as u64
}

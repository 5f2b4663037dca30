//! Positions of bkeys, and elements by position.
ghost use Rattle.std.specs.Prelude.{◌≡◌, ◌+◌, ◌<◌, length, slice_get, Some};
ghost use Rattle.arc_core.specs.TreeContents.{IsRising, place_of};
ghost use Rattle.btree_nodes.specs.Contents.{MayBeHigh};
ghost use Rattle.btree_nodes.specs.Ways.{has_bkey};
ghost use Rattle.btree_scan.specs.Positions.{position_in};

use arc_core::{Bkey, Elem};
use btree_nodes::{Part, Steps, Tree, child_at, child_with, count_before, number_below};
use std::sync::ledger::Ledger;

/// Where a bkey stands among those of a tree, lowest first and counted from 0.
#[derive(Clone, Copy, Debug, PartialEq, Eq)]
pub enum Position {
    /// The element in this place has it.
    At(u32),
    /// No element has it; so many have smaller ones.
    Before(u32),
}

/// Whether an element in the bkey's place has it.
pub(crate) fn is_at(elements: &[Elem], place: usize, bkey: &Bkey) -> bool
    requires rising { IsRising elements.now }
    requires place { place ≡ place_of bkey.now elements.now }
    ensures { result ≡ has_bkey bkey.now elements.now }
{
    if place >= elements.len() {
        return false;
    }
    bkey.cmp(&elements[place].bkey).is_eq()
}

/// Where a bkey stands. Enters as many nodes as the tree is high, and takes no memory.
pub fn position_of<L: Ledger>(tree: &Tree, bkey: &Bkey, steps: &mut Steps<L>) -> Position
    ensures position { result ≡ position_in bkey.now tree.now.elements }
    ensures rising { IsRising tree.now.elements }
    ensures steps { steps.new ≡ steps.old + tree.now.height }
    ensures high { MayBeHigh (length tree.now.elements) tree.now.height }
{
    let mut before = 0;
    let mut total = tree.count();
    let mut part = tree.part(None, steps);
    while let Part::Branch(children) = part {
        let index = child_with(children, bkey);
        before += count_before(children, total, index);
        let child = &children[index];
        total = child.count();
        part = tree.part(Some(child), steps);
    }
    let Part::Leaf(elements) = part else {
        unreachable!()
    };
    let below = number_below(elements, bkey);
    let place = before + below as u32;
    if is_at(elements, below, bkey) {
        Position::At(place)
    } else {
        Position::Before(place)
    }
}

/// The element in a place. Enters as many nodes as the tree is high, and takes no memory.
pub fn at_position<'t, L: Ledger>(tree: &'t Tree, place: u32, steps: &mut Steps<L>) -> &'t Elem
    requires { place < length tree.now.elements }
    ensures element { slice_get tree.now.elements place ≡ Some result.now }
    ensures steps { steps.new ≡ steps.old + tree.now.height }
    ensures high { MayBeHigh (length tree.now.elements) tree.now.height }
{
    let mut offset = place as usize;
    let mut total = tree.count() as usize;
    let mut part = tree.part(None, steps);
    while let Part::Branch(children) = part {
        let (index, below) = child_at(children, total, offset);
        let child = &children[index];
        offset = below;
        total = child.count() as usize;
        part = tree.part(Some(child), steps);
    }
    let Part::Leaf(elements) = part else {
        unreachable!()
    };
    &elements[offset]
}

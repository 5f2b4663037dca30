//! Inserts at a place, with splits of full nodes on the way down.
ghost use Rattle.std.specs.Prelude.{◌≡◌, ◌+◌, ◌-◌, ◌^◌, ◌≤◌, ◌<◌, length, take, slice_index_or, vec_capacity};
ghost use Rattle.btree_nodes.specs.Subtree.{Subtree, all_elements, branch_of, height_over, IsBranch};
ghost use Rattle.btree_nodes.specs.NodeRules.{subtree_of, IsNode};
ghost use Rattle.btree_nodes.specs.FoundAt.{IsFoundAt};
ghost use Rattle.btree_nodes.specs.Growth.{IsGrown, IsRoomMade};
ghost use Rattle.btree_nodes.specs.Relief.{IsUnevenAt};
ghost use Rattle.btree_nodes.specs.SpareNodes.{AreEnough, AreEnoughBelow};

use super::pairing::{FILLED_WIDTH, relieve};
use super::{Child, Node, child_at};
use crate::spare::{MAX_WIDTH, Spare};
use arc_core::Elem;

/// Hands items of the full child at `index` on to its left neighbour, which has at most 24. Answers as `make_room`.
fn hand_on(children: &mut Vec<Child>, index: usize, offset: usize) -> (usize, usize)
    requires branch { IsBranch children.old.items (vec_capacity children.old) }
    requires fits { length (all_elements children.old.items) < 2 ^ 32 }
    requires behind { 1 ≤ index }
    requires index { index < length children.old.items }
    requires offset { (d : Subtree) → offset ≤ length (slice_index_or children.old.items index d).elements }
    requires uneven { IsUnevenAt children.old.items (index - 1) }
    ensures room { IsRoomMade children.old.items children.new.items index offset result.0 result.1 }
    ensures branch { IsBranch children.new.items (vec_capacity children.new) }
    ensures capacity { vec_capacity children.old ≤ vec_capacity children.new }
{
    let left = index - 1;
    let offset = children[left].count() as usize + offset;
    relieve(children, index);
    let left_count = children[left].count() as usize;
    if offset <= left_count {
        (left, offset)
    } else {
        (index, offset - left_count)
    }
}

/// Makes room in the child at `index` where it is full: it hands items on to its left neighbour where that has room for
/// some, so that inserts at the right end leave full nodes behind, and is split else. Answers the child into which an
/// insert at place `offset` below it goes then, and the place below that one.
fn make_room(
    children: &mut Vec<Child>,
    index: usize,
    offset: usize,
    spare: &mut Spare,
) -> (usize, usize)
    requires branch { IsBranch children.old.items (vec_capacity children.old) }
    requires fits { length (all_elements children.old.items) < 2 ^ 32 }
    requires not_full { length children.old.items < 32 }
    requires index { index < length children.old.items }
    requires offset { (d : Subtree) → offset ≤ length (slice_index_or children.old.items index d).elements }
    requires spare { AreEnough spare.old (height_over children.old.items) }
    ensures room { IsRoomMade children.old.items children.new.items index offset result.0 result.1 }
    ensures branch { IsBranch children.new.items (vec_capacity children.new) }
    ensures capacity { vec_capacity children.old ≤ vec_capacity children.new }
    ensures spare { AreEnoughBelow spare.new (height_over children.old.items) }
{
    if children[index].width() < MAX_WIDTH {
        return (index, offset);
    }
    if index > 0 && children[index - 1].width() <= FILLED_WIDTH {
        return hand_on(children, index, offset);
    }
    let second = children[index].split(spare);
    let first_count = children[index].count() as usize;
    children.insert(index + 1, second).unwrap();
    if offset <= first_count {
        (index, offset)
    } else {
        (index + 1, offset - first_count)
    }
}

/// Inserts an element at a place among the elements below some children, of which there are `total`.
#[cycle(insert)]
fn insert_below(
    children: &mut Vec<Child>,
    total: usize,
    place: usize,
    elem: Elem,
    spare: &mut Spare,
)
    requires branch { IsBranch children.old.items (vec_capacity children.old) }
    requires not_full { length children.old.items < 32 }
    requires total { total ≡ length (all_elements children.old.items) }
    requires fits { total + 1 < 2 ^ 32 }
    requires place { place ≤ total }
    requires spare { AreEnough spare.old (height_over children.old.items) }
    ensures grown { IsGrown (branch_of children.old.items (vec_capacity children.old)) place elem (branch_of children.new.items (vec_capacity children.new)) }
    ensures branch { IsBranch children.new.items (vec_capacity children.new) }
{
    let (index, offset) = child_at(children, total, place);
    let (index, offset) = make_room(children, index, offset, spare);
    children[index].insert(offset, elem, spare);
}

/// Inserts an element at a place among the `total` elements below a node that is not full.
#[cycle(insert)]
fn insert_into(node: &mut Node, total: usize, place: usize, elem: Elem, spare: &mut Spare)
    requires node { IsNode node.old }
    requires not_full { (subtree_of node.old).width < 32 }
    requires room { (subtree_of node.old).width < (subtree_of node.old).room }
    requires total { total ≡ length (subtree_of node.old).elements }
    requires fits { total + 1 < 2 ^ 32 }
    requires place { place ≤ total }
    requires spare { AreEnough spare.old (subtree_of node.old).height }
    ensures grown { IsGrown (subtree_of node.old) place elem (subtree_of node.new) }
    ensures node { IsNode node.new }
{
    match node {
        Node::Leaf(elements) => elements.insert(place, elem).unwrap(),
        Node::Branch(children) => insert_below(children, total, place, elem, spare),
    }
}

impl Child {
    /// Inserts an element at a place among those below a node that is not full.
    #[cycle(insert)]
    pub(crate) fn insert(&mut self, place: usize, elem: Elem, spare: &mut Spare)
        requires not_full { self.old.width < 32 }
        requires room { self.old.width < self.old.room }
        requires fits { length self.old.elements + 1 < 2 ^ 32 }
        requires place { place ≤ length self.old.elements }
        requires spare { AreEnough spare.old self.old.height }
        ensures { IsGrown self.old place elem self.new }
    {
        if place == 0 {
            self.least = elem.bkey;
        }
        let total = self.count as usize;
        self.count += 1;
        insert_into(&mut self.node, total, place, elem, spare);
    }
}

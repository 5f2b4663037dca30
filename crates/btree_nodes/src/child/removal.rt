//! Removals of elements that stand next to each other.
ghost use Rattle.std.specs.Prelude.{◌≡◌, ◌+◌, ◌^◌, ◌≤◌, ◌<◌, length, slice_index_or, vec_capacity};
ghost use Rattle.btree_nodes.specs.Subtree.{Subtree, all_elements, branch_of, IsBranch};
ghost use Rattle.btree_nodes.specs.NodeRules.{subtree_of, IsNode, IsLeast};
ghost use Rattle.btree_nodes.specs.Removal.{IsTrimmed};

use super::pairing::mend;
use super::{Child, Node, child_at};
use crate::runs::{Run, take_run};
use arc_core::Bkey;

/// The least bkey below a node, where it has an element.
pub(super) fn least_of(node: &Node) -> Bkey
    requires { IsNode node.now }
    ensures { IsLeast result (subtree_of node.now).elements }
{
    match node {
        Node::Leaf(elements) => elements.first().map_or(Bkey::Number(0), |first| first.bkey),
        Node::Branch(children) => *children[0].least(),
    }
}

/// Removes at least one and at most `most` elements from a place on among the `total` elements below some children, and
/// mends these.
#[cycle(trim)]
pub(super) fn trim_below(
    children: &mut Vec<Child>,
    total: usize,
    place: usize,
    most: usize,
    run: &mut Run,
)
    requires branch { IsBranch children.old.items (vec_capacity children.old) }
    requires two { 2 ≤ length children.old.items }
    requires total { total ≡ length (all_elements children.old.items) }
    requires fits { total < 2 ^ 32 }
    requires place { place < total }
    requires most { 1 ≤ most }
    ensures trimmed { IsTrimmed (branch_of children.old.items (vec_capacity children.old)) place most (branch_of children.new.items (vec_capacity children.new)) run.new }
    ensures branch { IsBranch children.new.items (vec_capacity children.new) }
    ensures alone { length children.new.items ≡ 1 → (d : Subtree) → (slice_index_or children.new.items 0 d).width < 32 }
{
    let (index, offset) = child_at(children, total, place);
    children[index].trim(offset, most, run);
    mend(children, index);
}

/// Removes at least one and at most `most` elements from a place on among the `total` elements below a node.
#[cycle(trim)]
fn trim_node(node: &mut Node, total: usize, place: usize, most: usize, run: &mut Run)
    requires node { IsNode node.old }
    requires two { 2 ≤ (subtree_of node.old).height → 2 ≤ (subtree_of node.old).width }
    requires total { total ≡ length (subtree_of node.old).elements }
    requires fits { total < 2 ^ 32 }
    requires place { place < total }
    requires most { 1 ≤ most }
    ensures trimmed { IsTrimmed (subtree_of node.old) place most (subtree_of node.new) run.new }
    ensures node { IsNode node.new }
{
    match node {
        Node::Leaf(elements) => take_run(elements, place, most, run),
        Node::Branch(children) => trim_below(children, total, place, most, run),
    }
}

impl Child {
    /// Removes at least one and at most `most` elements from a place on among those below the node. The node itself may
    /// have too few elements or children then.
    #[cycle(trim)]
    pub(crate) fn trim(&mut self, place: usize, most: usize, run: &mut Run)
        requires two { 2 ≤ self.old.height → 2 ≤ self.old.width }
        requires place { place < length self.old.elements }
        requires most { 1 ≤ most }
        ensures { IsTrimmed self.old place most self.new run.new }
    {
        let total = self.count as usize;
        trim_node(&mut self.node, total, place, most, run);
        self.count -= run.count as u32;
        if place == 0 {
            self.least = least_of(&self.node);
        }
    }
}

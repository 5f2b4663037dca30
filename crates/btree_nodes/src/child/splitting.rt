//! Splits of full nodes.
ghost use Rattle.std.specs.Prelude.{◌≡◌, ◌+◌, ◌^◌, ◌≤◌, ◌<◌, ◌++◌, length, vec_capacity};
ghost use Rattle.btree_nodes.specs.Subtree.{all_elements, branch_of, IsBranch};
ghost use Rattle.btree_nodes.specs.NodeRules.{subtree_of, IsNode};
ghost use Rattle.btree_nodes.specs.Splits.{IsSplit, IsSpent};

use super::{Child, Node};
use crate::moving::move_last;
use crate::spare::{Empties, Spare};

/// The fewest elements of a leaf, and the fewest children of a branch, that is not the root.
pub(super) const MIN_WIDTH: usize = 16;

/// Splits the children of a full branch, and gives a branch over the second half.
fn split_children(children: &mut Vec<Child>, spare: &mut Empties<Child>) -> Child
    requires branch { IsBranch children.old.items (vec_capacity children.old) }
    requires full { length children.old.items ≡ 32 }
    requires spare { 1 ≤ spare.old }
    requires fits { length (all_elements children.old.items) < 2 ^ 32 }
    ensures branch { IsBranch children.new.items (vec_capacity children.new) }
    ensures split { IsSplit (branch_of children.old.items (vec_capacity children.old)) (branch_of children.new.items (vec_capacity children.new)) result }
    ensures spare { spare.old ≡ spare.new + 1 }
{
    let mut second = spare.take();
    move_last(children, &mut second, MIN_WIDTH);
    Child::of_branch(second)
}

/// Splits a full node with a spare one, and gives the second half.
fn split_node(node: &mut Node, spare: &mut Spare) -> Child
    requires node { IsNode node.old }
    requires full { (subtree_of node.old).width ≡ 32 }
    requires fits { length (subtree_of node.old).elements < 2 ^ 32 }
    requires leaf { (subtree_of node.old).height ≡ 1 → 1 ≤ spare.old.leaves }
    requires branch { 2 ≤ (subtree_of node.old).height → 1 ≤ spare.old.branches }
    ensures node { IsNode node.new }
    ensures split { IsSplit (subtree_of node.old) (subtree_of node.new) result }
    ensures spent { IsSpent (subtree_of node.old).height spare.old spare.new }
{
    match node {
        Node::Leaf(elements) => {
            let mut second = spare.leaves.take();
            move_last(elements, &mut second, MIN_WIDTH);
            Child::of_leaf(second)
        }
        Node::Branch(children) => split_children(children, &mut spare.branches),
    }
}

impl Child {
    /// Splits a full node with a spare one, and gives the second half.
    pub(super) fn split(&mut self, spare: &mut Spare) -> Child
        requires full { self.old.width ≡ 32 }
        requires leaf { self.old.height ≡ 1 → 1 ≤ spare.old.leaves }
        requires branch { 2 ≤ self.old.height → 1 ≤ spare.old.branches }
        ensures split { IsSplit self.old self.new result }
        ensures spent { IsSpent self.old.height spare.old spare.new }
    {
        let second = split_node(&mut self.node, spare);
        self.count -= second.count();
        second
    }
}

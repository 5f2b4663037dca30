//! Another element in the place of one.
ghost use Rattle.std.specs.Prelude.{◌≡◌, ◌≤◌, ◌<◌, length, slice_index_or, slice_set, vec_capacity};
ghost use Rattle.btree_nodes.specs.Subtree.{all_elements, branch_of, IsBranch};
ghost use Rattle.btree_nodes.specs.NodeRules.{subtree_of, IsNode};
ghost use Rattle.btree_nodes.specs.Replacing.{IsReplaced};

use super::{Child, Node, child_at};
use arc_core::Elem;
use std::mem;

/// Puts another element in a place among the `total` elements below some children.
#[cycle(replace)]
fn replace_below(children: &mut Vec<Child>, total: usize, place: usize, elem: Elem) -> Elem
    requires branch { IsBranch children.old.items (vec_capacity children.old) }
    requires total { total ≡ length (all_elements children.old.items) }
    requires place { place < total }
    ensures replaced { IsReplaced (branch_of children.old.items (vec_capacity children.old)) place elem (branch_of children.new.items (vec_capacity children.new)) result }
    ensures branch { IsBranch children.new.items (vec_capacity children.new) }
{
    let (index, offset) = child_at(children, total, place);
    children[index].replace(offset, elem)
}

/// Puts another element in a place among the `total` elements below a node.
#[cycle(replace)]
fn replace_in(node: &mut Node, total: usize, place: usize, elem: Elem) -> Elem
    requires node { IsNode node.old }
    requires total { total ≡ length (subtree_of node.old).elements }
    requires place { place < total }
    ensures replaced { IsReplaced (subtree_of node.old) place elem (subtree_of node.new) result }
    ensures node { IsNode node.new }
{
    match node {
        Node::Leaf(elements) => mem::replace(&mut elements[place], elem),
        Node::Branch(children) => replace_below(children, total, place, elem),
    }
}

impl Child {
    /// Puts another element in a place among those below the node, and hands the old one out.
    #[cycle(replace)]
    pub(crate) fn replace(&mut self, place: usize, elem: Elem) -> Elem
        requires place { place < length self.old.elements }
        ensures { IsReplaced self.old place elem self.new result }
    {
        if place == 0 {
            self.least = elem.bkey;
        }
        replace_in(&mut self.node, self.count as usize, place, elem)
    }
}

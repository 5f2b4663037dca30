//! Nodes with too few elements or children, and their neighbours.
ghost use Rattle.std.specs.Prelude.{◌≡◌, ◌+◌, ◌-◌, ◌^◌, ◌≤◌, ◌<◌, ◌++◌, length, vec_capacity, take, drop, ◌∷◌};
ghost use Rattle.std.specs.Option.{option_to_list};
ghost use Rattle.btree_nodes.specs.Subtree.{Subtree, all_elements, branch_of, height_over, IsBranch};
ghost use Rattle.btree_nodes.specs.NodeRules.{subtree_of};
ghost use Rattle.btree_nodes.specs.declared.child.Node.TheVariants.{Leaf, Branch};
ghost use Rattle.btree_nodes.specs.Removal.{IsLooseAt, IsPaired, IsLooseBranch, IsMended};
ghost use Rattle.btree_nodes.specs.Relief.{IsUneven, IsUnevenAt, IsRelieved, HaveFree};
ghost use Rattle.btree_nodes.specs.Leveling.{IsLeveled};

use super::splitting::MIN_WIDTH;
use super::{Child, Node};
use crate::moving::{move_first, move_last};
use crate::spare::MAX_WIDTH;
use arc_core::Elem;

/// The most items of a node that takes some of its full right neighbour.
pub(super) const FILLED_WIDTH: usize = 24;

/// Moves items between neighbours that fill one node at least, until each has enough. One that is short
/// takes from its right neighbour all that this one can do without, so that what is removed at the left end of a tree
/// finds full nodes; else it takes half of what the left neighbour has more. A full one fills its left neighbour but for
/// one place.
fn level<T: Drop>(left: &mut Vec<T>, right: &mut Vec<T>)
    requires left_most { length left.old.items ≤ 32 }
    requires right_most { length right.old.items ≤ 32 }
    requires together { 32 ≤ length left.old.items + length right.old.items }
    requires left_room { 32 ≤ vec_capacity left.old }
    requires right_room { 32 ≤ vec_capacity right.old }
    ensures leveled { IsLeveled left.old right.old left.new right.new }
    ensures free { IsUneven (length left.old.items) (length right.old.items) → (length left.new.items < 32) × (length right.new.items < 32) }
{
    if left.len() < MIN_WIDTH {
        let number = right.len() - MIN_WIDTH;
        move_first(right, left, number);
    } else if right.len() < MIN_WIDTH {
        let number = (left.len() - right.len()) / 2;
        move_last(left, right, number);
    } else if right.len() == MAX_WIDTH && left.len() <= FILLED_WIDTH {
        let number = MAX_WIDTH - 1 - left.len();
        move_first(right, left, number);
    }
}

/// The elements of two neighbours in one leaf that is not full, or else in two.
fn pair_leaves(mut left: Vec<Elem>, mut right: Vec<Elem>) -> (Child, Option<Child>)
    requires left_most { length left.items ≤ 32 }
    requires right_most { length right.items ≤ 32 }
    requires enough { 16 ≤ length left.items + length right.items }
    requires left_room { 32 ≤ vec_capacity left }
    requires right_room { 32 ≤ vec_capacity right }
    ensures paired { IsPaired 2 (subtree_of (Leaf left)) (subtree_of (Leaf right)) result.0 result.1 }
    ensures free { IsUneven (length left.items) (length right.items) → HaveFree result.0 result.1 }
{
    if left.len() + right.len() < MAX_WIDTH {
        left.append(&mut right).unwrap();
        return (Child::of_leaf(left), None);
    }
    level(&mut left, &mut right);
    (Child::of_leaf(left), Some(Child::of_leaf(right)))
}

/// The children of two neighbours below one branch that is not full, or else below two.
fn pair_branches(mut left: Vec<Child>, mut right: Vec<Child>) -> (Child, Option<Child>)
    requires left { IsBranch left.items (vec_capacity left) }
    requires right { IsBranch right.items (vec_capacity right) }
    requires level { height_over left.items ≡ height_over right.items }
    requires enough { 16 ≤ length left.items + length right.items }
    requires fits { length (all_elements left.items) + length (all_elements right.items) < 2 ^ 32 }
    ensures paired { IsPaired (height_over left.items + 1) (branch_of left.items (vec_capacity left)) (branch_of right.items (vec_capacity right)) result.0 result.1 }
    ensures free { IsUneven (length left.items) (length right.items) → HaveFree result.0 result.1 }
{
    if left.len() + right.len() < MAX_WIDTH {
        left.append(&mut right).unwrap();
        return (Child::of_branch(left), None);
    }
    level(&mut left, &mut right);
    (Child::of_branch(left), Some(Child::of_branch(right)))
}

/// Two neighbours in one node that is not full, or else in two.
fn pair(left: Child, right: Child) -> (Child, Option<Child>)
    requires left_room { 32 ≤ left.room }
    requires right_room { 32 ≤ right.room }
    requires level { left.height ≡ right.height }
    requires enough { 16 ≤ left.width + right.width }
    requires fits { length left.elements + length right.elements < 2 ^ 32 }
    ensures paired { IsPaired (left.height + 1) left right result.0 result.1 }
    ensures free { IsUneven left.width right.width → HaveFree result.0 result.1 }
{
    match left.node {
        Node::Leaf(left) => {
            let Node::Leaf(right) = right.node else {
                unreachable!()
            };
            pair_leaves(left, right)
        }
        Node::Branch(left) => {
            let Node::Branch(right) = right.node else {
                unreachable!()
            };
            pair_branches(left, right)
        }
    }
}

/// Puts a child, and a second one where there is one, before those at a place and behind it.
fn put_back(children: &mut Vec<Child>, place: usize, first: Child, second: Option<Child>)
    requires place { place ≤ length children.old.items }
    requires room { length children.old.items + 2 ≤ vec_capacity children.old }
    ensures items { children.new.items ≡ take place children.old.items ++ (first ∷ (option_to_list second ++ drop place children.old.items)) }
    ensures capacity { vec_capacity children.old ≤ vec_capacity children.new }
{
    if let Some(second) = second {
        children.insert(place, second).unwrap();
    }
    children.insert(place, first).unwrap();
}

/// Puts the items of two neighbours into one node, or levels the two. At `index` is one of them.
#[inline(never)]
fn join_or_level(children: &mut Vec<Child>, place: usize, index: usize)
    requires loose { IsLooseBranch children.old.items (vec_capacity children.old) index }
    requires fits { length (all_elements children.old.items) < 2 ^ 32 }
    requires one { (place ≤ index) × (index ≤ place + 1) }
    requires within { place + 1 < length children.old.items }
    ensures mended { IsMended children.old.items children.new.items (vec_capacity children.new) }
    ensures capacity { vec_capacity children.old ≤ vec_capacity children.new }
    ensures relieved { IsUnevenAt children.old.items place → IsRelieved children.old.items place children.new.items }
{
    let left = children.remove(place);
    let right = children.remove(place);
    let (first, second) = pair(left, right);
    put_back(children, place, first, second);
}

/// Moves items of the full child at `index` to its left neighbour, which has at most 24.
pub(super) fn relieve(children: &mut Vec<Child>, index: usize)
    requires branch { IsBranch children.old.items (vec_capacity children.old) }
    requires fits { length (all_elements children.old.items) < 2 ^ 32 }
    requires behind { 1 ≤ index }
    requires within { index < length children.old.items }
    requires uneven { IsUnevenAt children.old.items (index - 1) }
    ensures mended { IsMended children.old.items children.new.items (vec_capacity children.new) }
    ensures capacity { vec_capacity children.old ≤ vec_capacity children.new }
    ensures relieved { IsRelieved children.old.items (index - 1) children.new.items }
{
    join_or_level(children, index - 1, index);
}

/// Mends the child at `index`, where it has too few elements or children: one with nothing goes, any other is mended with
/// its left neighbour, or the right one where it is the first. (With the left one, elements that are removed next are not
/// moved before.)
pub(super) fn mend(children: &mut Vec<Child>, index: usize)
    requires loose { IsLooseBranch children.old.items (vec_capacity children.old) index }
    requires fits { length (all_elements children.old.items) < 2 ^ 32 }
    ensures mended { IsMended children.old.items children.new.items (vec_capacity children.new) }
    ensures capacity { vec_capacity children.old ≤ vec_capacity children.new }
{
    if children[index].width() >= MIN_WIDTH {
        return;
    }
    if children[index].count() == 0 && children.len() > 2 {
        children.remove(index);
        return;
    }
    join_or_level(children, index.saturating_sub(1), index);
}

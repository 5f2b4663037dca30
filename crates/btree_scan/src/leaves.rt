//! Steps of a walk through a tree from leaf to leaf.
ghost use Rattle.std.specs.Prelude.{◌≡◌, ◌+◌, ◌*◌, ◌^◌, ◌≤◌, ◌<◌, not, [], length, filter, MatchOption};
ghost use Rattle.arc_core.specs.TreeContents.{IsRising};
ghost use Rattle.btree_nodes.specs.Contents.{MayBeHigh};
ghost use Rattle.btree_nodes.specs.Subtree.{IsChildAt};
ghost use Rattle.btree_scan.specs.Descents.{IsCut, IsNearest, IsNearLeaf};
ghost use Rattle.btree_scan.specs.Directions.{beyond, joined, is_within};
ghost use Rattle.btree_scan.specs.Spans.{number_up_to};
ghost use Rattle.btree_scan.specs.Ways.{ahead, credit_of, AreLevels, IsWay};

use crate::positions::is_at;
use crate::way::{Way, split_near};
use arc_core::{Bkey, Elem};
use btree_nodes::{Child, Part, Steps, Tree, child_with, number_below};
use std::sync::ledger::Ledger;

/// How many of the elements have this bkey or a smaller one. The elements are by rising bkeys.
fn number_up_to(elements: &[Elem], bkey: &Bkey) -> usize
    requires { IsRising elements.now }
    ensures number { result ≡ number_up_to bkey.now elements.now }
    ensures within { result ≤ length elements.now }
{
    let below = number_below(elements, bkey);
    if is_at(elements, below, bkey) {
        return below + 1;
    }
    below
}

/// The elements to which a walk comes no later than to a bkey. The elements are by rising bkeys.
pub(crate) fn elements_within<'t>(elements: &'t [Elem], end: &Bkey, down: bool) -> &'t [Elem]
    requires { IsRising elements.now }
    ensures { result.now ≡ filter (is_within down end.now) elements.now }
{
    if down {
        return &elements[number_below(elements, end)..];
    }
    &elements[..number_up_to(elements, end)]
}

/// The elements to which a walk comes no later than to the far end. Where there are others, nothing is ahead any more.
pub(crate) fn cut_at_end<'t>(
    elements: &'t [Elem],
    far: &Bkey,
    down: bool,
    way: &mut Way<'t>,
) -> &'t [Elem]
    requires { IsRising (joined down elements.now (ahead down way.old)) }
    ensures elements { joined down result.now (filter (is_within down far.now) (ahead down way.new)) ≡ filter (is_within down far.now) (joined down elements.now (ahead down way.old)) }
    ensures cut { IsCut elements.now result.now way.old way.new }
{
    let within = elements_within(elements, far, down);
    if within.len() == elements.len() {
        return within;
    }
    way.clear();
    within
}

/// Takes the nearest child that stands ahead from the way.
fn nearest_child<'t>(way: &mut Way<'t>, down: bool) -> Option<&'t Child>
    requires levels { AreLevels 1 way.old }
    requires fits { length way.old ≤ 7 }
    ensures { MatchOption result ((ahead down way.old ≡ []) × (way.new ≡ [])) (λ child. IsNearest down way.old child.now way.new) }
{
    while let Some(children) = way.pop() {
        if let Some((child, others)) = split_near(children, down) {
            way.push(others);
            return Some(child);
        }
    }
    None
}

/// Enters a child and what is nearest below it, down to a leaf.
fn near_leaf<'t, L: Ledger>(
    tree: &'t Tree,
    child: &'t Child,
    down: bool,
    way: &mut Way<'t>,
    steps: &mut Steps<L>,
) -> &'t [Elem]
    requires child { IsChildAt (child.now.height + 1) child.now }
    requires levels { AreLevels child.now.height way.old }
    requires fits { length way.old + child.now.height ≤ 8 }
    ensures leaf { IsNearLeaf down way.old child.now result.now way.new }
    ensures steps { steps.new ≡ steps.old + child.now.height }
{
    let mut part = tree.part(Some(child), steps);
    while let Part::Branch(children) = part {
        let Some((below, others)) = split_near(children, down) else {
            unreachable!()
        };
        way.push(others);
        part = tree.part(Some(below), steps);
    }
    let Part::Leaf(elements) = part else {
        unreachable!()
    };
    elements
}

/// Enters the next leaf, and gives its elements that the range has.
///
/// It is a function of its own so that a step within a leaf stays short.
#[inline(never)]
pub(crate) fn next_leaf<'t, L: Ledger>(
    tree: &'t Tree,
    far: &Bkey,
    down: bool,
    way: &mut Way<'t>,
    steps: &mut Steps<L>,
) -> &'t [Elem]
    requires { IsWay down way.old }
    ensures way { IsWay down way.new }
    ensures elements { joined down result.now (filter (is_within down far.now) (ahead down way.new)) ≡ filter (is_within down far.now) (ahead down way.old) }
    ensures some { result.now ≡ [] → ahead down way.new ≡ [] }
    ensures steps { 8 * steps.new + credit_of down (length result.now) way.new ≤ 8 * steps.old + credit_of down 0 way.old }
{
    let Some(child) = nearest_child(way, down) else {
        return &[];
    };
    let leaf = near_leaf(tree, child, down, way, steps);
    cut_at_end(leaf, far, down, way)
}

/// Shows that a tree has fewer than 2^32 elements.
pub(crate) fn know_count(tree: &Tree)
    ensures { length tree.now.elements < 2 ^ 32 }
{
    let _count = tree.count();
}

/// Shows that a tree is at most eight nodes high.
fn know_height(tree: &Tree)
    requires { MayBeHigh (length tree.now.elements) tree.now.height }
    ensures { tree.now.height ≤ 8 }
{
    know_count(tree);
}

/// The children to which a walk comes behind the one at this index.
fn children_beyond<'t>(children: &'t [Child], index: usize, down: bool) -> &'t [Child]
    requires { index < length children.now }
    ensures { result.now ≡ beyond down index children.now }
{
    if down {
        return &children[..index];
    }
    &children[index + 1..]
}

/// Enters the leaf in which a bkey stands, or would stand, from the root on. `way` is what is ahead then.
pub(crate) fn leaf_of<'t, L: Ledger>(
    tree: &'t Tree,
    near: &Bkey,
    down: bool,
    way: &mut Way<'t>,
    steps: &mut Steps<L>,
) -> &'t [Elem]
    requires { way.old ≡ [] }
    ensures elements { filter (is_within (not down) near.now) tree.now.elements ≡ joined down (filter (is_within (not down) near.now) result.now) (ahead down way.new) }
    ensures rising { IsRising (joined down result.now (ahead down way.new)) }
    ensures levels { AreLevels 1 way.new }
    ensures depth { length way.new + 1 ≡ tree.now.height }
    ensures low { tree.now.height ≤ 8 }
    ensures steps { steps.new ≡ steps.old + tree.now.height }
    ensures high { MayBeHigh (length tree.now.elements) tree.now.height }
{
    let mut part = tree.part(None, steps);
    know_height(tree);
    while let Part::Branch(children) = part {
        let index = child_with(children, near);
        way.push(children_beyond(children, index, down));
        part = tree.part(Some(&children[index]), steps);
    }
    let Part::Leaf(elements) = part else {
        unreachable!()
    };
    elements
}

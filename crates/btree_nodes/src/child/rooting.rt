//! Roots that grow and fall.
ghost use Rattle.std.specs.Prelude.{◌≡◌, ◌+◌, ◌^◌, ◌≤◌, ◌<◌, ◌++◌, insert, length, vec_capacity, OnOk, OnErr};
ghost use Rattle.btree_nodes.specs.Subtree.{Subtree, IsDense};
ghost use Rattle.btree_nodes.specs.NodeRules.{subtree_of, IsNode};
ghost use Rattle.btree_nodes.specs.Rooting.{IsEither, IsRaised, IsTrimmedRoot};
ghost use Rattle.btree_nodes.specs.SpareNodes.{AreEnough};

use super::removal::{least_of, trim_below};
use super::{Child, Node};
use crate::runs::{Run, take_run};
use crate::spare::{MAX_WIDTH, Spare};
use arc_core::{Elem, NoMemory};

/// Inserts an element at a place among those below two neighbours, neither of which is full.
fn insert_either(first: &mut Child, second: &mut Child, place: usize, elem: Elem, spare: &mut Spare)
    requires first { (first.old.width < 32) × (32 ≤ first.old.room) × IsDense first.old }
    requires second { (second.old.width < 32) × (32 ≤ second.old.room) × IsDense second.old }
    requires level { second.old.height ≡ first.old.height }
    requires fits { length first.old.elements + length second.old.elements + 1 < 2 ^ 32 }
    requires place { place ≤ length first.old.elements + length second.old.elements }
    requires spare { AreEnough spare.old first.old.height }
    ensures { IsEither first.old second.old place elem first.new second.new }
{
    let count = first.count() as usize;
    if place <= count {
        first.insert(place, elem, spare);
    } else {
        second.insert(place - count, elem, spare);
    }
}

impl Child {
    /// A branch over the two halves of a full root, with an element inserted at a place below it.
    pub(crate) fn raised(mut self, place: usize, elem: Elem, spare: &mut Spare) -> Child
        requires full { self.width ≡ 32 }
        requires room { 32 ≤ self.room }
        requires high { 1 ≤ self.height }
        requires fits { length self.elements + 1 < 2 ^ 32 }
        requires place { place ≤ length self.elements }
        requires leaf { 1 ≤ spare.old.leaves }
        requires branches { self.height ≤ spare.old.branches }
        ensures { IsRaised self place elem result }
    {
        let mut second = self.split(spare);
        let mut children = spare.branches.take();
        insert_either(&mut self, &mut second, place, elem, spare);
        children.push(self).unwrap();
        children.push(second).unwrap();
        Child::of_branch(children)
    }
}

/// Removes at least one and at most `most` elements from a place on among the `total` elements below a root, which falls
/// to its only child where no other is left. `height` follows the root's.
fn trim_root(
    root: &mut Node,
    height: &mut u32,
    total: usize,
    place: usize,
    most: usize,
    run: &mut Run,
)
    requires node { IsNode root.old }
    requires two { 2 ≤ (subtree_of root.old).height → 2 ≤ (subtree_of root.old).width }
    requires height { height.old ≡ (subtree_of root.old).height }
    requires total { total ≡ length (subtree_of root.old).elements }
    requires fits { total < 2 ^ 32 }
    requires place { place < total }
    requires most { 1 ≤ most }
    ensures trimmed { IsTrimmedRoot (subtree_of root.old) place most (subtree_of root.new) run.new }
    ensures node { IsNode root.new }
    ensures height { height.new ≡ (subtree_of root.new).height }
{
    match root {
        Node::Leaf(elements) => take_run(elements, place, most, run),
        Node::Branch(children) => {
            trim_below(children, total, place, most, run);
            if children.len() == 1 {
                let only = children.pop().unwrap();
                *root = only.node;
                *height -= 1;
            }
        }
    }
}

impl Child {
    /// Makes room for one more element in a leaf that is not full.
    ///
    /// `NoMemory` comes for want of memory alone. It never comes where there is room.
    pub(crate) fn grow(&mut self) -> Result<(), NoMemory>
        requires leaf { self.old.height ≡ 1 }
        requires not_full { self.old.width < 32 }
        ensures elements { self.new.elements ≡ self.old.elements }
        ensures height { self.new.height ≡ 1 }
        ensures width { self.new.width ≡ self.old.width }
        ensures room { OnOk result (self.new.width < self.new.room) }
        ensures kept { self.old.room ≤ self.new.room }
        ensures refused { OnErr result (self.old.room ≤ self.old.width) }
    {
        if let Node::Leaf(elements) = &mut self.node
            && elements.len() == elements.capacity()
        {
            let more = (elements.len() / 2 + 2).min(MAX_WIDTH - elements.len());
            elements.reserve_exact(more)?;
        }
        Ok(())
    }

    /// Removes at least one and at most `most` elements from a place on among those below a root, which falls to its only
    /// child where no other is left. `height` follows the root's.
    pub(crate) fn trim_as_root(
        &mut self,
        height: &mut u32,
        place: usize,
        most: usize,
        run: &mut Run,
    )
        requires two { 2 ≤ self.old.height → 2 ≤ self.old.width }
        requires height { height.old ≡ self.old.height }
        requires place { place < length self.old.elements }
        requires most { 1 ≤ most }
        ensures trimmed { IsTrimmedRoot self.old place most self.new run.new }
        ensures height { height.new ≡ self.new.height }
    {
        let total = self.count as usize;
        trim_root(&mut self.node, height, total, place, most, run);
        self.count -= run.count as u32;
        if place == 0 {
            self.least = least_of(&self.node);
        }
    }
}

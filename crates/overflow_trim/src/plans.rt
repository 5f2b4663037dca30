//! The plan of an insert.
ghost use Rattle.std.specs.Prelude.{◌≡◌, ◌<◌, false, length, true};
ghost use Rattle.arc_core.specs.Settling.{is_too_wide, greatest, least, settled, settled_above, settled_below, settled_full, trims_greatest, trims_smallest};
ghost use Rattle.arc_core.specs.TreeContents.{with_element};
ghost use Rattle.btree_nodes.specs.Ways.{has_bkey};
ghost use Rattle.overflow_trim.specs.Plans.{KeepsLimit, planned};
ghost use Rattle.overflow_trim.specs.NewPlace.{IsNewAt};

use crate::ends::{
    greatest_number, is_too_high, is_too_low, new_place, number_above, number_below,
};
use arc_core::{Action, Bkey, Elem, Side};
use btree_nodes::{Steps, Tree};
use std::marker::Brand;
use std::sync::ledger::{Blank, Ledger};

/// The bounds of a tree.
#[derive(Clone, Copy, Debug, PartialEq, Eq)]
pub struct Limits {
    /// The most elements.
    pub maxcount: u32,
    /// What an insert into a full tree does. An action that is none of trees refuses, as `Error` does.
    pub action: Action,
    /// The most by which two numbers among the bkeys differ; 0 is no bound. Byte bkeys have no distance.
    pub maxbkeyrange: u64,
}

/// What an insert of a new bkey does.
#[derive(Clone, Copy, Debug, PartialEq, Eq)]
pub enum TrimPlan {
    /// The element is stored.
    Store,
    /// So many old elements at this end go, and the new one is stored. It is none of them.
    StoreAndTrim(u32, Side),
    /// It is refused, since it would lie beyond this end.
    OutOfRange(Side),
    /// It is refused, since the tree is full.
    Overflowed,
}

/// What an insert of an element does, whose bkey is not there. Takes no memory, and changes nothing.
///
/// A new bkey that lies further above the smallest than `maxbkeyrange` allows trims all that is too far below it, where the
/// action trims the smallest, and is refused otherwise; the same holds below the greatest. Else a full tree trims one element
/// at the end of its action, or refuses the new element where that would be the one to go; `Error` refuses each one.
/// (Overflow actions and maxbkeyrange are ARCUS's; that the range comes first, and which actions trim for it, is this
/// server's own.)
pub fn plan(tree: &Tree, elem: &Elem, limits: &Limits) -> TrimPlan
    requires { has_bkey elem.now.bkey tree.now.elements ≡ false }
    ensures plan { planned result elem.now tree.now.elements ≡ settled limits.now.maxcount limits.now.maxbkeyrange limits.now.action elem.now tree.now.elements }
    ensures limit { KeepsLimit (length tree.now.elements) limits.now.maxcount result }
{
    plan_in::<Brand>(tree, elem, limits, Blank::new(1))
}

// The plan, by steps that are counted in a ledger of their own.
fn plan_in<L: Ledger>(tree: &Tree, elem: &Elem, limits: &Limits, blank: Blank) -> TrimPlan
    requires absent { has_bkey elem.now.bkey tree.now.elements ≡ false }
    requires name { blank.name ≡ L.name }
    requires parts { blank.parts ≡ L.parts }
    requires one { blank.parts ≡ 1 }
    ensures plan { planned result elem.now tree.now.elements ≡ settled limits.now.maxcount limits.now.maxbkeyrange limits.now.action elem.now tree.now.elements }
    ensures limit { KeepsLimit (length tree.now.elements) limits.now.maxcount result }
{
    let mut steps = Steps::<L>::new(blank);
    let place = new_place(tree, &elem.bkey, &mut steps);
    if is_too_high(tree, elem, place, limits.maxbkeyrange, &mut steps) {
        return plan_above(tree, elem, limits, &mut steps);
    }
    if is_too_low(tree, elem, place, limits.maxbkeyrange, &mut steps) {
        return plan_below(tree, elem, limits, &mut steps);
    }
    if tree.count() == limits.maxcount {
        return plan_full(tree, elem, place, limits.action);
    }
    TrimPlan::Store
}

// Whether an action trims the smallest elements.
fn trims_smallest(action: Action) -> bool
    ensures { result ≡ trims_smallest action }
{
    matches!(action, Action::SmallestTrim | Action::SmallestSilentTrim)
}

// Whether an action trims the greatest elements.
fn trims_greatest(action: Action) -> bool
    ensures { result ≡ trims_greatest action }
{
    matches!(action, Action::LargestTrim | Action::LargestSilentTrim)
}

// The plan of an element that lies too far above the smallest.
fn plan_above<L: Ledger>(
    tree: &Tree,
    elem: &Elem,
    limits: &Limits,
    steps: &mut Steps<L>,
) -> TrimPlan
    requires last { IsNewAt elem.now.bkey tree.now.elements (length tree.now.elements) }
    requires wide { is_too_wide limits.now.maxbkeyrange elem.now.bkey (least elem.now (with_element elem.now tree.now.elements)) ≡ true }
    ensures plan { planned result elem.now tree.now.elements ≡ settled_above limits.now.maxbkeyrange limits.now.action elem.now.bkey (with_element elem.now tree.now.elements) }
    ensures limit { KeepsLimit (length tree.now.elements) limits.now.maxcount result }
{
    if !trims_smallest(limits.action) {
        return TrimPlan::OutOfRange(Side::High);
    }
    let Bkey::Number(number) = elem.bkey else {
        unreachable!()
    };
    let lowest = Bkey::Number(number - limits.maxbkeyrange);
    TrimPlan::StoreAndTrim(number_below(tree, &lowest, steps), Side::Low)
}

// The plan of an element that lies too far below the greatest.
fn plan_below<L: Ledger>(
    tree: &Tree,
    elem: &Elem,
    limits: &Limits,
    steps: &mut Steps<L>,
) -> TrimPlan
    requires first { IsNewAt elem.now.bkey tree.now.elements 0 }
    requires wide { is_too_wide limits.now.maxbkeyrange (greatest elem.now (with_element elem.now tree.now.elements)) elem.now.bkey ≡ true }
    ensures plan { planned result elem.now tree.now.elements ≡ settled_below limits.now.maxbkeyrange limits.now.action elem.now.bkey (with_element elem.now tree.now.elements) }
    ensures limit { KeepsLimit (length tree.now.elements) limits.now.maxcount result }
{
    if !trims_greatest(limits.action) {
        return TrimPlan::OutOfRange(Side::Low);
    }
    let Bkey::Number(number) = elem.bkey else {
        unreachable!()
    };
    let greatest = greatest_number(tree, elem, limits.maxbkeyrange, steps);
    // The sum fits, since it is below the greatest bkey.
    let highest = number + limits.maxbkeyrange;
    prove!(highest < greatest);
    TrimPlan::StoreAndTrim(number_above(tree, highest, steps), Side::High)
}

// The plan of an element whose place in a full tree is known.
fn plan_full(tree: &Tree, elem: &Elem, place: u32, action: Action) -> TrimPlan
    requires { IsNewAt elem.now.bkey tree.now.elements place }
    ensures plan { planned result elem.now tree.now.elements ≡ settled_full action elem.now (with_element elem.now tree.now.elements) }
    ensures limit { KeepsLimit (length tree.now.elements) (length tree.now.elements) result }
{
    if trims_smallest(action) {
        if place == 0 {
            TrimPlan::OutOfRange(Side::Low)
        } else {
            TrimPlan::StoreAndTrim(1, Side::Low)
        }
    } else if trims_greatest(action) {
        if place == tree.count() {
            TrimPlan::OutOfRange(Side::High)
        } else {
            TrimPlan::StoreAndTrim(1, Side::High)
        }
    } else {
        TrimPlan::Overflowed
    }
}

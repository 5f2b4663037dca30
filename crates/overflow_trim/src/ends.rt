//! What the plan of an insert asks of the tree.
ghost use Rattle.std.specs.Prelude.{◌≡◌, ◌&&◌, ◌+◌, ◌<◌, ◌^◌, ℕ, false, length, true};
ghost use Rattle.arc_core.specs.declared.bkeys.Bkey.TheVariants.{Number};
ghost use Rattle.arc_core.specs.Settling.{is_same, is_too_wide, greatest, least};
ghost use Rattle.arc_core.specs.TreeContents.{with_element};
ghost use Rattle.btree_nodes.specs.Ways.{has_bkey};
ghost use Rattle.overflow_trim.specs.NewPlace.{IsCutAt, IsCutAbove, IsNewAt};

use arc_core::{Bkey, Elem};
use btree_nodes::{Steps, Tree};
use btree_scan::{Position, at_position, position_of};
use std::sync::ledger::Ledger;

/// How many elements have smaller bkeys.
pub(crate) fn number_below<L: Ledger>(tree: &Tree, bkey: &Bkey, steps: &mut Steps<L>) -> u32
    ensures { IsCutAt bkey.now tree.now.elements result }
{
    match position_of(tree, bkey, steps) {
        Position::At(place) => place,
        Position::Before(place) => place,
    }
}

/// How many elements have bkeys above a number.
pub(crate) fn number_above<L: Ledger>(tree: &Tree, number: u64, steps: &mut Steps<L>) -> u32
    requires { number + 1 < 2 ^ 64 }
    ensures { IsCutAbove number tree.now.elements result }
{
    tree.count() - number_below(tree, &Bkey::Number(number + 1), steps)
}

/// The place of a bkey that is not there.
pub(crate) fn new_place<L: Ledger>(tree: &Tree, bkey: &Bkey, steps: &mut Steps<L>) -> u32
    requires { has_bkey bkey.now tree.now.elements ≡ false }
    ensures { IsNewAt bkey.now tree.now.elements result }
{
    number_below(tree, bkey, steps)
}

/// Whether two bkeys are further apart than is allowed, where that is bounded.
fn is_too_wide(maxbkeyrange: u64, above: &Bkey, below: &Bkey) -> bool
    ensures { result ≡ is_too_wide maxbkeyrange above.now below.now }
{
    match (above, below) {
        (Bkey::Number(above), Bkey::Number(below)) => {
            0 < maxbkeyrange && maxbkeyrange < above.saturating_sub(*below)
        }
        _ => false,
    }
}

/// Whether a new element, whose place is known, is the greatest and lies too far above the smallest.
pub(crate) fn is_too_high<L: Ledger>(
    tree: &Tree,
    elem: &Elem,
    place: u32,
    maxbkeyrange: u64,
    steps: &mut Steps<L>,
) -> bool
    requires { IsNewAt elem.now.bkey tree.now.elements place }
    ensures { result ≡ (is_same elem.now.bkey (greatest elem.now (with_element elem.now tree.now.elements)) && is_too_wide maxbkeyrange elem.now.bkey (least elem.now (with_element elem.now tree.now.elements))) }
{
    if maxbkeyrange == 0 || place == 0 {
        return false;
    }
    if place != tree.count() {
        return false;
    }
    is_too_wide(maxbkeyrange, &elem.bkey, &at_position(tree, 0, steps).bkey)
}

/// Whether a new element, whose place is known, is the smallest and lies too far below the greatest.
pub(crate) fn is_too_low<L: Ledger>(
    tree: &Tree,
    elem: &Elem,
    place: u32,
    maxbkeyrange: u64,
    steps: &mut Steps<L>,
) -> bool
    requires { IsNewAt elem.now.bkey tree.now.elements place }
    ensures { result ≡ (is_same elem.now.bkey (least elem.now (with_element elem.now tree.now.elements)) && is_too_wide maxbkeyrange (greatest elem.now (with_element elem.now tree.now.elements)) elem.now.bkey) }
{
    let count = tree.count();
    if maxbkeyrange == 0 || place == count {
        return false;
    }
    if place != 0 {
        return false;
    }
    is_too_wide(
        maxbkeyrange,
        &at_position(tree, count - 1, steps).bkey,
        &elem.bkey,
    )
}

/// The greatest bkey, which is a number where a new element lies too far below it.
pub(crate) fn greatest_number<L: Ledger>(
    tree: &Tree,
    elem: &Elem,
    maxbkeyrange: u64,
    steps: &mut Steps<L>,
) -> u64
    requires first { IsNewAt elem.now.bkey tree.now.elements 0 }
    requires wide { is_too_wide maxbkeyrange (greatest elem.now (with_element elem.now tree.now.elements)) elem.now.bkey ≡ true }
    ensures { (number : ℕ) → elem.now.bkey ≡ Number number → number + maxbkeyrange < result }
{
    let Bkey::Number(greatest) = at_position(tree, tree.count() - 1, steps).bkey else {
        unreachable!()
    };
    greatest
}

//! Whether a range meets what was trimmed.
ghost use Rattle.std.specs.Prelude.{◌≡◌};
ghost use Rattle.arc_core.specs.BkeyOrder.{greater_end, lesser_end};
ghost use Rattle.arc_core.specs.TreeReading.{is_above_all, is_below_all, is_in_high_zone, is_in_low_zone, meets_zone};

use arc_core::{Bkey, BkeyRange, Edges};
use btree_nodes::{Steps, Tree};
use btree_scan::at_position;
use std::sync::ledger::Ledger;

// The lesser and the greater end of a range.
fn ends(range: &BkeyRange) -> (Bkey, Bkey)
    ensures lesser { result.0 ≡ lesser_end range.now }
    ensures greater { result.1 ≡ greater_end range.now }
{
    if range.first.cmp(&range.last).is_gt() {
        (range.last, range.first)
    } else {
        (range.first, range.last)
    }
}

// Whether a bkey is below all elements.
fn is_below_all<L: Ledger>(bkey: &Bkey, tree: &Tree, steps: &mut Steps<L>) -> bool
    ensures { result ≡ is_below_all bkey.now tree.now.elements }
{
    if tree.count() == 0 {
        return true;
    }
    bkey.cmp(&at_position(tree, 0, steps).bkey).is_lt()
}

// Whether a bkey is above all elements.
fn is_above_all<L: Ledger>(bkey: &Bkey, tree: &Tree, steps: &mut Steps<L>) -> bool
    ensures { result ≡ is_above_all bkey.now tree.now.elements }
{
    let count = tree.count();
    if count == 0 {
        return true;
    }
    bkey.cmp(&at_position(tree, count - 1, steps).bkey).is_gt()
}

// Whether a bkey is in the low part of the zone.
fn is_in_low_zone<L: Ledger>(edges: &Edges, tree: &Tree, bkey: &Bkey, steps: &mut Steps<L>) -> bool
    ensures { result ≡ is_in_low_zone edges.now tree.now.elements bkey.now }
{
    match &edges.low {
        Some(edge) => !bkey.cmp(edge).is_gt() || is_below_all(bkey, tree, steps),
        None => false,
    }
}

// Whether a bkey is in the high part of the zone.
fn is_in_high_zone<L: Ledger>(edges: &Edges, tree: &Tree, bkey: &Bkey, steps: &mut Steps<L>) -> bool
    ensures { result ≡ is_in_high_zone edges.now tree.now.elements bkey.now }
{
    match &edges.high {
        Some(edge) => !bkey.cmp(edge).is_lt() || is_above_all(bkey, tree, steps),
        None => false,
    }
}

/// Whether a range meets the zone of what was trimmed: by its lesser end the low part, or by its greater end the high one.
/// Enters at most twice as many nodes as the tree is high, and takes no memory.
pub fn meets_zone<L: Ledger>(
    edges: &Edges,
    tree: &Tree,
    range: &BkeyRange,
    steps: &mut Steps<L>,
) -> bool
    ensures { result ≡ meets_zone edges.now tree.now.elements range.now }
{
    let (lesser, greater) = ends(range);
    is_in_low_zone(edges, tree, &lesser, steps) || is_in_high_zone(edges, tree, &greater, steps)
}

//! Kinds of bkeys.
ghost use Rattle.std.specs.Prelude.{◌≡◌};
ghost use Rattle.arc_core.specs.BkeyOrder.{are_of_one_kind};
ghost use Rattle.tree_coll.specs.TreeHolding.{contents_of};
ghost use Rattle.tree_coll.specs.TreeOutcomes.{is_bytes, is_of_kind, kind_bkey};

use arc_core::{Bkey, Edges};
use btree_nodes::{Steps, Tree};
use btree_scan::at_position;
use std::sync::ledger::Ledger;

// The bkey that tells a tree's kind: its first one, or else an edge's.
fn kind_bkey<L: Ledger>(tree: &Tree, edges: &Edges, steps: &mut Steps<L>) -> Option<Bkey>
    ensures { result ≡ kind_bkey (contents_of tree.now.elements edges.now) }
{
    if tree.count() > 0 {
        return Some(at_position(tree, 0, steps).bkey);
    }
    edges.low.or(edges.high)
}

// Whether two bkeys are of one kind.
fn are_of_one_kind(a: &Bkey, b: &Bkey) -> bool
    ensures { result ≡ are_of_one_kind a.now b.now }
{
    match (a, b) {
        (Bkey::Number(_), Bkey::Number(_)) | (Bkey::Bytes(_), Bkey::Bytes(_)) => true,
        _ => false,
    }
}

// Whether a bkey is a byte string.
pub(crate) fn is_bytes(bkey: &Bkey) -> bool
    ensures { result ≡ is_bytes bkey.now }
{
    matches!(bkey, Bkey::Bytes(_))
}

/// Whether a bkey is of the tree's kind: that of its first bkey, or else of an edge. A tree without either has any. Takes no
/// memory.
pub fn is_of_kind<L: Ledger>(bkey: &Bkey, tree: &Tree, edges: &Edges, steps: &mut Steps<L>) -> bool
    ensures { result ≡ is_of_kind bkey.now (contents_of tree.now.elements edges.now) }
{
    match kind_bkey(tree, edges, steps) {
        Some(other) => are_of_one_kind(&other, bkey),
        None => true,
    }
}

//! Edges of what was trimmed.
ghost use Rattle.std.specs.Prelude.{◌≡◌};
ghost use Rattle.arc_core.specs.Settling.{edge_above, edge_below, out_of_range, settled_edges};
ghost use Rattle.tree_coll.specs.TreePlanning.{moved_over};

use arc_core::{Action, Bkey, Edges, Side};

// The greater of an edge and a bkey.
fn edge_above(edge: Option<Bkey>, bkey: Bkey) -> Option<Bkey>
    ensures { result ≡ edge_above edge bkey }
{
    let Some(old) = edge else {
        return Some(bkey);
    };
    if old.cmp(&bkey).is_lt() {
        return Some(bkey);
    }
    Some(old)
}

// The lesser of an edge and a bkey.
fn edge_below(edge: Option<Bkey>, bkey: Bkey) -> Option<Bkey>
    ensures { result ≡ edge_below edge bkey }
{
    let Some(old) = edge else {
        return Some(bkey);
    };
    if old.cmp(&bkey).is_gt() {
        return Some(bkey);
    }
    Some(old)
}

/// The edges after an insert that was answered `OUT_OF_RANGE`, since its bkey would lie beyond this end.
///
/// Under `smallest_trim` a bkey that was refused at the low end raises the low edge to at least itself, and under
/// `largest_trim` one that was refused at the high end lowers the high edge to at most itself. No other action, silent ones
/// among them, changes an edge. (This server's own.)
pub fn refused_edges(action: Action, bkey: Bkey, side: Side, edges: Edges) -> Edges
    ensures { result ≡ settled_edges action bkey (out_of_range side) edges }
{
    match (action, side) {
        (Action::SmallestTrim, Side::Low) => Edges {
            low: edge_above(edges.low, bkey),
            high: edges.high,
        },
        (Action::LargestTrim, Side::High) => Edges {
            low: edges.low,
            high: edge_below(edges.high, bkey),
        },
        _ => edges,
    }
}

/// The edges after a trim, by the first and the last bkey that it took: an action that announces its trims moves its edge
/// over them. (This server's own.)
pub(crate) fn trimmed_edges(action: Action, first: Bkey, last: Bkey, edges: Edges) -> Edges
    ensures { result ≡ moved_over action first last edges }
{
    match action {
        Action::SmallestTrim => Edges {
            low: edge_above(edges.low, last),
            high: edges.high,
        },
        Action::LargestTrim => Edges {
            low: edges.low,
            high: edge_below(edges.high, first),
        },
        _ => edges,
    }
}

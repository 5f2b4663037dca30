//! Inserts into a tree: what they trim, and what becomes of its edges.
ghost use Rattle.std.specs.Prelude.{◌≡◌, ◌≤◌, List, length, slice_range, IfOk};
ghost use Rattle.arc_core.specs.declared.trees.Elem.{Elem};
ghost use Rattle.arc_core.specs.declared.bkeys.Bkey.{Bkey};
ghost use Rattle.arc_core.specs.Settling.{settled_edges, stored};
ghost use Rattle.arc_core.specs.TreeContents.{IsRising};
ghost use Rattle.tree_coll.specs.TreeOutcomes.{may_get};
ghost use Rattle.tree_coll.specs.TreePlanning.{FitsSettled, IsNewFor, IsSettled, KeepsCount, Plans, SuitsPlan, TakesNothingOut};
ghost use Rattle.tree_coll.specs.TreeRows.{new_inserted, tree_insert, tree_upsert, trim_reply};

use crate::edges::{refused_edges, trimmed_edges};
use crate::kinds::is_bytes;
use crate::places::rows_at;
use crate::planned::answered;
use crate::{TreeChange, TreeColl, TreePlanned, TreeReply, TreeWord, is_of_kind};
use arc_core::{Attrs, Bkey, Edges, Eflag, Elem, NoMemory, Side, Tail, Value};
use btree_nodes::Steps;
use btree_scan::{Position, at_position, position_of};
use overflow_trim::{Limits, TrimPlan, plan};
use std::alloc::Global;
use std::sync::ledger::Ledger;

/// What an insert of an element comes to whose bkey is not there.
#[derive(Drop)]
pub(crate) enum Settlement {
    /// It is stored, the elements from place `low` to before place `high` are trimmed, and the edges are these then.
    Stored { low: u32, high: u32, edges: Edges },
    /// It would lie beyond an end, and the edges are these then.
    Refused(Edges),
    /// The tree is full.
    Full,
}

/// Whether a tree may get this bkey: it is of the tree's kind, and a number where maxbkeyrange is a bound. Takes no memory.
pub(crate) fn may_get<L: Ledger>(
    held: &TreeColl,
    attrs: &Attrs,
    bkey: &Bkey,
    steps: &mut Steps<L>,
) -> bool
    ensures { result ≡ may_get bkey.now attrs.now held.now.contents }
{
    let bounded = is_bytes(bkey) && attrs.maxbkeyrange > 0;
    is_of_kind(bkey, held.tree(), held.edges(), steps) && !bounded
}

/// What an insert of an element comes to whose bkey is not there. Takes no memory.
pub(crate) fn settle<L: Ledger>(
    held: &TreeColl,
    attrs: &Attrs,
    elem: &Elem,
    steps: &mut Steps<L>,
) -> Settlement
    requires { IsNewFor elem.now.bkey held.now.contents.elements }
    ensures settled { IsSettled elem.now attrs.now held.now.contents result }
    ensures fits { FitsSettled held.now.contents.elements attrs.now.maxcount result }
{
    let limits = Limits {
        maxcount: attrs.maxcount,
        action: attrs.action,
        maxbkeyrange: attrs.maxbkeyrange,
    };
    let count = held.count();
    match plan(held.tree(), elem, &limits) {
        TrimPlan::Store => stored(held, attrs, 0, 0, steps),
        TrimPlan::StoreAndTrim(number, Side::Low) => stored(held, attrs, 0, number, steps),
        TrimPlan::StoreAndTrim(number, Side::High) => {
            stored(held, attrs, count - number, count, steps)
        }
        TrimPlan::OutOfRange(side) => {
            Settlement::Refused(refused_edges(attrs.action, elem.bkey, side, *held.edges()))
        }
        TrimPlan::Overflowed => Settlement::Full,
    }
}

// The element is stored, and those from place `low` to before place `high` are trimmed.
fn stored<L: Ledger>(
    held: &TreeColl,
    attrs: &Attrs,
    low: u32,
    high: u32,
    steps: &mut Steps<L>,
) -> Settlement
    requires rising { IsRising held.now.contents.elements }
    requires order { low ≤ high }
    requires within { high ≤ length held.now.contents.elements }
    ensures { (kept : List Elem) (bkey : Bkey) → result ≡ Settlement.Stored low high (settled_edges attrs.now.action bkey (stored kept (slice_range held.now.contents.elements low high)) held.now.contents.edges) }
{
    let edges = *held.edges();
    if low == high {
        return Settlement::Stored { low, high, edges };
    }
    let first = at_position(held.tree(), low, steps).bkey;
    let last = at_position(held.tree(), high - 1, steps).bkey;
    Settlement::Stored {
        low,
        high,
        edges: trimmed_edges(attrs.action, first, last, edges),
    }
}

// What is answered to an insert that trimmed the elements from place `low` to before place `high`.
fn trim_reply<L: Ledger>(
    held: &TreeColl,
    attrs: &Attrs,
    alloc: Global,
    low: u32,
    high: u32,
    getrim: bool,
    steps: &mut Steps<L>,
) -> Result<TreeReply, NoMemory>
    requires order { low ≤ high }
    requires within { high ≤ length held.now.contents.elements }
    ensures { IfOk result (λ reply. reply ≡ trim_reply getrim attrs.now (slice_range held.now.contents.elements low high)) }
{
    if !getrim || low == high {
        return Ok(TreeReply::Word(TreeWord::Stored));
    }
    let rows = rows_at(alloc, held, false, low, high - 1, steps)?;
    Ok(TreeReply::Rows {
        flags: attrs.flags,
        rows,
        tail: Tail::Trimmed,
    })
}

// The plan of an insert of an element whose bkey is not there.
fn plan_stored<'a, L: Ledger>(
    held: &TreeColl,
    attrs: &Attrs,
    alloc: Global,
    elem: Elem,
    getrim: bool,
    steps: &mut Steps<L>,
) -> Result<TreePlanned<'a>, NoMemory>
    requires { IsNewFor elem.bkey held.now.contents.elements }
    ensures plans { IfOk result (λ plan. Plans (new_inserted (trim_reply getrim attrs.now) elem attrs.now held.now.contents) held.now.contents plan) }
    ensures suits { IfOk result (λ plan. SuitsPlan held.now.contents plan) }
    ensures puts { IfOk result TakesNothingOut }
    ensures count { IfOk result (λ plan. KeepsCount attrs.now.maxcount held.now.contents plan) }
{
    match settle(held, attrs, &elem, steps) {
        Settlement::Stored { low, high, edges } => {
            let reply = trim_reply(held, attrs, alloc, low, high, getrim, steps)?;
            let change = TreeChange::Store {
                low,
                high,
                edges,
                elem,
            };
            Ok(TreePlanned::Changes(change, reply))
        }
        Settlement::Refused(edges) => Ok(beyond(edges)),
        Settlement::Full => Ok(answered(TreeWord::Overflowed)),
    }
}

/// An insert was refused, since it would lie beyond an end, and the edges are these then.
pub(crate) fn beyond<'a>(edges: Edges) -> TreePlanned<'a>
    ensures { result ≡ TreePlanned.Changes (TreeChange.MoveEdges edges) (TreeReply.Word TreeWord.OutOfRange) }
{
    TreePlanned::Changes(
        TreeChange::MoveEdges(edges),
        TreeReply::Word(TreeWord::OutOfRange),
    )
}

/// `bop insert`: puts an element with a new bkey into a tree, with a flag where one is given, and a value of at most 32,768
/// bytes. With `getrim` what it trims is answered.
///
/// `BKEY_MISMATCH` comes for a bkey of another kind than the tree's, and for a byte bkey where maxbkeyrange is a bound;
/// `ELEMENT_EXISTS` where the bkey is there; `OUT_OF_RANGE` where it would lie beyond an end of a tree that is full or whose
/// bkeys are bounded, which moves the edge there under an action that announces its trims; `OVERFLOWED` where the tree is full
/// and its action trims nothing. Takes memory for the value, and with `getrim` for the answer. (ARCUS's; which actions trim and
/// which refuse, and the edges, are this server's own.)
pub fn insert_into_tree<'a, L: Ledger>(
    held: &TreeColl,
    attrs: &Attrs,
    alloc: Global,
    bkey: &Bkey,
    eflag: Option<Eflag>,
    value: &[u8],
    getrim: bool,
    steps: &mut Steps<L>,
) -> Result<TreePlanned<'a>, NoMemory>
    ensures plans { IfOk result (λ plan. Plans (tree_insert (record { bkey = bkey.now; eflag = eflag; value = value.now }) getrim attrs.now held.now.contents) held.now.contents plan) }
    ensures suits { IfOk result (λ plan. SuitsPlan held.now.contents plan) }
    ensures puts { IfOk result TakesNothingOut }
    ensures count { IfOk result (λ plan. KeepsCount attrs.now.maxcount held.now.contents plan) }
{
    if !may_get(held, attrs, bkey, steps) {
        return Ok(answered(TreeWord::BkeyMismatch));
    }
    let Position::Before(_) = position_of(held.tree(), bkey, steps) else {
        return Ok(answered(TreeWord::ElementExists));
    };
    let value = Value::copy(alloc, value)?;
    let elem = Elem {
        bkey: *bkey,
        eflag,
        value,
    };
    plan_stored(held, attrs, alloc, elem, getrim, steps)
}

/// `bop upsert`: gives the element with this bkey another flag and another value of at most 32,768 bytes, and answers
/// `REPLACED`, with nothing trimmed; where the bkey is not there it is put in as `bop insert` does. `BKEY_MISMATCH` comes as
/// for an insert. Takes memory for the value, and with `getrim` for the answer. (ARCUS's.)
pub fn upsert_tree<'a, L: Ledger>(
    held: &TreeColl,
    attrs: &Attrs,
    alloc: Global,
    bkey: &Bkey,
    eflag: Option<Eflag>,
    value: &[u8],
    getrim: bool,
    steps: &mut Steps<L>,
) -> Result<TreePlanned<'a>, NoMemory>
    ensures plans { IfOk result (λ plan. Plans (tree_upsert (record { bkey = bkey.now; eflag = eflag; value = value.now }) getrim attrs.now held.now.contents) held.now.contents plan) }
    ensures suits { IfOk result (λ plan. SuitsPlan held.now.contents plan) }
    ensures puts { IfOk result TakesNothingOut }
    ensures count { IfOk result (λ plan. KeepsCount attrs.now.maxcount held.now.contents plan) }
{
    if !may_get(held, attrs, bkey, steps) {
        return Ok(answered(TreeWord::BkeyMismatch));
    }
    let value = Value::copy(alloc, value)?;
    let elem = Elem {
        bkey: *bkey,
        eflag,
        value,
    };
    let Position::At(place) = position_of(held.tree(), bkey, steps) else {
        return plan_stored(held, attrs, alloc, elem, getrim, steps);
    };
    Ok(TreePlanned::Changes(
        TreeChange::Replace { place, elem },
        TreeReply::Word(TreeWord::Replaced),
    ))
}

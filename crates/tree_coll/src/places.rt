//! Reads by positions.
ghost use Rattle.std.specs.Prelude.{◌≡◌, ◌+◌, ◌-◌, ◌<◌, ◌≤◌, Some, length, map, min, slice_get, nat_lt, if◌then◌else◌, IfOk};
ghost use Rattle.tree_coll.specs.TreeOutcomes.{stays, tree_row};
ghost use Rattle.tree_coll.specs.TreeRows.{around, at_positions, neighbours, ordered, tree_around, tree_by_position};

use crate::reads::number_before;
use crate::walk::put_row;
use crate::{TreeColl, TreeReply, TreeWord, is_of_kind};
use arc_core::{Attrs, Bkey, Elem, NoMemory, Row, Seq, Tail};
use btree_nodes::Steps;
use btree_scan::{Position, at_position, position_of};
use std::alloc::Global;
use std::sync::ledger::Ledger;

// How many of so many elements stand from one position to another.
fn number_between(count: u32, low: u32, high: u32) -> u32
    requires { low ≤ high }
    ensures { result ≡ min (high + 1 - low) (count - low) }
{
    if count <= low {
        return 0;
    }
    if count <= high {
        return count - low;
    }
    high - low + 1
}

// How many elements stand at these positions.
fn number_at(held: &TreeColl, desc: bool, first: u32, last: u32) -> u32
    ensures { result ≡ length (at_positions first last (ordered desc held.now.contents.elements)) }
{
    let count = held.count();
    if last < first {
        number_between(count, last, first)
    } else {
        number_between(count, first, last)
    }
}

// The position of one of those elements, of so many that there are.
fn position_at(count: u32, first: u32, last: u32, number: u32) -> u32
    requires some { 1 ≤ count }
    requires down { last < first → number ≤ min first (count - 1) }
    requires up { first ≤ last → first + number < count }
    ensures { result ≡ (if nat_lt last first then min first (count - 1) - number else first + number) }
{
    if last < first {
        first.min(count - 1) - number
    } else {
        first + number
    }
}

// One of those elements, by its number among them.
fn element_at<'t, L: Ledger>(
    held: &'t TreeColl,
    desc: bool,
    first: u32,
    last: u32,
    number: u32,
    steps: &mut Steps<L>,
) -> &'t Elem
    requires { number < length (at_positions first last (ordered desc held.now.contents.elements)) }
    ensures { slice_get (at_positions first last (ordered desc held.now.contents.elements)) number ≡ Some result.now }
{
    let position = position_at(held.count(), first, last, number);
    let place = number_before(held, position, desc);
    at_position(held.tree(), place, steps)
}

/// The elements at these positions, in their direction.
pub(crate) fn rows_at<L: Ledger>(
    alloc: Global,
    held: &TreeColl,
    desc: bool,
    first: u32,
    last: u32,
    steps: &mut Steps<L>,
) -> Result<Seq<Row>, NoMemory>
    ensures { IfOk result (λ rows. rows ≡ map tree_row (at_positions first last (ordered desc held.now.contents.elements))) }
{
    let mut rows = Seq::new(alloc);
    for number in 0..number_at(held, desc, first, last) {
        put_row(
            &mut rows,
            element_at(held, desc, first, last, number, steps),
        )?;
    }
    Ok(rows)
}

/// `bop gbp`: the elements at these positions, counted from 0 in the order of rising bkeys or, where `desc` says so, of falling
/// ones. It goes from `first` to `last`, also backwards, as far as there are elements.
///
/// `NOT_FOUND_ELEMENT` comes where there is none. It goes down the tree once for each element that it answers. `NoMemory`
/// comes for want of memory alone. (ARCUS's.)
pub fn by_position<L: Ledger>(
    held: &TreeColl,
    attrs: &Attrs,
    alloc: Global,
    desc: bool,
    first: u32,
    last: u32,
    steps: &mut Steps<L>,
) -> Result<TreeReply, NoMemory>
    ensures { IfOk result (λ answer. tree_by_position desc first last attrs.now held.now.contents ≡ stays answer) }
{
    let rows = rows_at(alloc, held, desc, first, last, steps)?;
    if rows.as_slice().len() == 0 {
        return Ok(TreeReply::Word(TreeWord::NotFoundElement));
    }
    Ok(TreeReply::Rows {
        flags: attrs.flags,
        rows,
        tail: Tail::End,
    })
}

// An element with its neighbours, by how many elements come before it.
fn rows_around<L: Ledger>(
    alloc: Global,
    held: &TreeColl,
    desc: bool,
    count: u32,
    position: u32,
    steps: &mut Steps<L>,
) -> Result<Seq<Row>, NoMemory>
    requires { position < length held.now.contents.elements }
    ensures { IfOk result (λ rows. rows ≡ map tree_row (neighbours count position (ordered desc held.now.contents.elements))) }
{
    let first = position.saturating_sub(count);
    let last = position + count.min(held.count() - 1 - position);
    rows_at(alloc, held, desc, first, last, steps)
}

/// `bop pwg`: the element with this bkey, among up to `count` neighbours on each side, lowest first or, where `desc` says so,
/// greatest first; how many elements come before it in that order; and its place among the rows.
///
/// `BKEY_MISMATCH` comes for a bkey of another kind than the tree's, `NOT_FOUND_ELEMENT` where it is not there. It goes down
/// the tree twice, and once for each element that it answers. `NoMemory` comes for want of memory alone. (ARCUS's.)
pub fn around<L: Ledger>(
    held: &TreeColl,
    attrs: &Attrs,
    alloc: Global,
    bkey: &Bkey,
    desc: bool,
    count: u32,
    steps: &mut Steps<L>,
) -> Result<TreeReply, NoMemory>
    ensures { IfOk result (λ answer. tree_around bkey.now desc count attrs.now held.now.contents ≡ stays answer) }
{
    if !is_of_kind(bkey, held.tree(), held.edges(), steps) {
        return Ok(TreeReply::Word(TreeWord::BkeyMismatch));
    }
    let Position::At(place) = position_of(held.tree(), bkey, steps) else {
        return Ok(TreeReply::Word(TreeWord::NotFoundElement));
    };
    let position = number_before(held, place, desc);
    let rows = rows_around(alloc, held, desc, count, position, steps)?;
    Ok(TreeReply::Around {
        position,
        flags: attrs.flags,
        index: count.min(position),
        rows,
    })
}

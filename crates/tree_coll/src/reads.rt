//! Reads of a tree that leave it as it is.
ghost use Rattle.std.specs.Prelude.{◌≡◌, ◌-◌, ◌<◌, length, map, if◌then◌else◌, IfOk};
ghost use Rattle.arc_core.specs.declared.collections.Take.TheVariants as taking;
ghost use Rattle.arc_core.specs.TreeReading.{chosen, covered_range};
ghost use Rattle.tree_coll.specs.TreeHolding.{zone_tail, zone_word};
ghost use Rattle.tree_coll.specs.TreeOutcomes.{stays, tree_row};
ghost use Rattle.tree_coll.specs.TreePlanning.{Plans, SuitsPlan};
ghost use Rattle.tree_coll.specs.TreeRows.{chosen_read, tree_count, tree_get, tree_position};

use crate::planned::answered;
use crate::takes::plan_taken;
use crate::walk::{Walked, walk};
use crate::{TreeColl, TreePlanned, TreeReply, TreeWord, is_of_kind, meets_zone};
use arc_core::{Attrs, Bkey, BkeyRange, Filter, NoMemory, Tail, Take, TreeRead};
use btree_nodes::Steps;
use btree_scan::{Position, count_in, position_of};
use std::alloc::Global;
use std::sync::ledger::Ledger;

// How a read ends that answers elements, by whether what it covers meets the zone.
fn zone_tail(met: bool) -> Tail
    ensures { result ≡ zone_tail met }
{
    if met { Tail::Trimmed } else { Tail::End }
}

// What a read is answered that finds no element, by whether its range meets the zone.
fn zone_word(met: bool) -> TreeWord
    ensures { result ≡ zone_word met }
{
    if met {
        TreeWord::OutOfRange
    } else {
        TreeWord::NotFoundElement
    }
}

/// `bop get`: the elements of a range that pass the filter, in the range's direction, without the first `offset`, and `count`
/// of them, or all for 0. They are taken out where `take` says so; the edges stay then.
///
/// `BKEY_MISMATCH` comes for a range of another kind than the tree's. A read that takes nothing ends with TRIMMED exactly where
/// what it covers meets the zone of what was trimmed. Where it finds none, `OUT_OF_RANGE` comes where the whole range meets the
/// zone, and else `NOT_FOUND_ELEMENT`. It walks along its range once, up to the last element that it answers, and again for
/// the places of what is taken by a filter. `NoMemory` comes for want of memory alone. (ARCUS's; the zone is this server's
/// own.)
pub fn read_tree<'a, L: Ledger>(
    held: &TreeColl,
    attrs: &Attrs,
    alloc: Global,
    read: &'a TreeRead<'a>,
    take: Take,
    steps: &mut Steps<L>,
) -> Result<TreePlanned<'a>, NoMemory>
    ensures plans { IfOk result (λ plan. Plans (tree_get read.now take attrs.now held.now.contents) held.now.contents plan) }
    ensures suits { IfOk result (λ plan. SuitsPlan held.now.contents plan) }
{
    if !is_of_kind(&read.range.first, held.tree(), held.edges(), steps) {
        return Ok(answered(TreeWord::BkeyMismatch));
    }
    let walked = walk(alloc, held.tree(), read, steps)?;
    match take {
        Take::Keep => {
            let answer = answer_read(held, attrs, read, walked, steps);
            Ok(TreePlanned::Stays(answer))
        }
        Take::Delete => Ok(plan_taken(held, attrs, read, walked, false, steps)),
        Take::Drop => Ok(plan_taken(held, attrs, read, walked, true, steps)),
    }
}

/// The answer to a read that takes nothing, by its walk.
pub(crate) fn answer_read<L: Ledger>(
    held: &TreeColl,
    attrs: &Attrs,
    read: &TreeRead<'_>,
    walked: Walked,
    steps: &mut Steps<L>,
) -> TreeReply
    requires rows { walked.rows ≡ map tree_row (chosen read.now held.now.contents.elements) }
    requires covered { walked.covered ≡ covered_range read.now held.now.contents.elements }
    ensures { chosen_read taking.Keep read.now attrs.now held.now.contents (chosen read.now held.now.contents.elements) ≡ stays result }
{
    if walked.rows.as_slice().len() == 0 {
        let met = meets_zone(held.edges(), held.tree(), &read.range, steps);
        return TreeReply::Word(zone_word(met));
    }
    let met = meets_zone(held.edges(), held.tree(), &walked.covered, steps);
    TreeReply::Rows {
        flags: attrs.flags,
        rows: walked.rows,
        tail: zone_tail(met),
    }
}

/// `bop count`: how many elements of a range pass the filter, where there is one; 0 is a count. `BKEY_MISMATCH` comes for a
/// range of another kind than the tree's. Takes no memory. (ARCUS's.)
pub fn count_tree<L: Ledger>(
    held: &TreeColl,
    attrs: &Attrs,
    range: &BkeyRange,
    filter: &Option<Filter<'_>>,
    steps: &mut Steps<L>,
) -> TreeReply
    ensures { tree_count range.now filter.now attrs.now held.now.contents ≡ stays result }
{
    if !is_of_kind(&range.first, held.tree(), held.edges(), steps) {
        return TreeReply::Word(TreeWord::BkeyMismatch);
    }
    TreeReply::Count(count_in(held.tree(), range, filter, steps))
}

/// How many elements come before one in a place, in the order asked for; or its place, by how many come before it.
pub(crate) fn number_before(held: &TreeColl, place: u32, desc: bool) -> u32
    requires { place < length held.now.contents.elements }
    ensures { result ≡ (if desc then length held.now.contents.elements - 1 - place else place) }
{
    if desc {
        held.count() - 1 - place
    } else {
        place
    }
}

/// `bop position`: how many elements come before the one with this bkey, lowest first or, where `desc` says so, greatest
/// first. `BKEY_MISMATCH` comes for a bkey of another kind than the tree's, `NOT_FOUND_ELEMENT` where it is not there. Takes
/// no memory. (ARCUS's.)
pub fn position_in_tree<L: Ledger>(
    held: &TreeColl,
    attrs: &Attrs,
    bkey: &Bkey,
    desc: bool,
    steps: &mut Steps<L>,
) -> TreeReply
    ensures { tree_position bkey.now desc attrs.now held.now.contents ≡ stays result }
{
    if !is_of_kind(bkey, held.tree(), held.edges(), steps) {
        return TreeReply::Word(TreeWord::BkeyMismatch);
    }
    match position_of(held.tree(), bkey, steps) {
        Position::At(place) => TreeReply::Position(number_before(held, place, desc)),
        Position::Before(_) => TreeReply::Word(TreeWord::NotFoundElement),
    }
}

//! The walk of a read: along its range, past its offset, and up to its count.
ghost use Rattle.std.specs.Prelude.{◌≡◌, ◌∷◌, ◌++◌, ◌^◌, ◌<◌, [], drop, length, map, take, IfOk, MatchOption, OnOk};
ghost use Rattle.std.specs.List.{filter as filter_of};
ghost use Rattle.std.specs.Option.{option_map};
ghost use Rattle.arc_core.specs.TreeReading.{chosen, completing, covered_range, is_selected};
ghost use Rattle.tree_coll.specs.TreeHolding.{completed, covered_to, limit_of};
ghost use Rattle.tree_coll.specs.TreeOutcomes.{tree_row};

use arc_core::{Bkey, BkeyRange, Elem, Filter, NoMemory, Row, RowName, Seq, TreeRead};
use btree_nodes::{Steps, Tree};
use btree_scan::Cursor;
use eflag_filter::passes;
use std::alloc::Global;
use std::sync::ledger::Ledger;

/// What a read answers, and the range that it covers: up to the element with which it has its count, or else all of its
/// range.
#[derive(Drop)]
pub(crate) struct Walked {
    pub rows: Seq<Row>,
    pub covered: BkeyRange,
}

// Elements as rows, and the bkey of the last one where there are as many as were asked for.
#[derive(Drop)]
struct Collected {
    rows: Seq<Row>,
    last: Option<Bkey>,
}

// Whether an element passes the filter, where there is one.
pub(crate) fn is_selected(filter: &Option<Filter<'_>>, element: &Elem) -> bool
    ensures { result ≡ is_selected filter.now element.now }
{
    match filter {
        Some(filter) => passes(filter, &element.eflag),
        None => true,
    }
}

// The next element of a walk that passes the filter; `None` where there is none.
fn next_selected<'t, L: Ledger>(
    cursor: &mut Cursor<'t>,
    filter: &Option<Filter<'_>>,
    steps: &mut Steps<L>,
) -> Option<&'t Elem>
    ensures { MatchOption result ((filter_of (is_selected filter.now) cursor.old.left ≡ []) × (filter_of (is_selected filter.now) cursor.new.left ≡ [])) (λ element. filter_of (is_selected filter.now) cursor.old.left ≡ element.now ∷ filter_of (is_selected filter.now) cursor.new.left) }
{
    while let Some(element) = cursor.next(steps) {
        if is_selected(filter, element) {
            return Some(element);
        }
    }
    None
}

// Goes past so many elements that pass the filter, or all where there are fewer.
fn skip<L: Ledger>(
    cursor: &mut Cursor<'_>,
    filter: &Option<Filter<'_>>,
    offset: u32,
    steps: &mut Steps<L>,
)
    ensures { filter_of (is_selected filter.now) cursor.new.left ≡ drop offset (filter_of (is_selected filter.now) cursor.old.left) }
{
    for _number in 0..offset {
        let Some(_element) = next_selected(cursor, filter, steps) else {
            return;
        };
    }
}

/// Puts an element last into an answer.
pub(crate) fn put_row(rows: &mut Seq<Row>, element: &Elem) -> Result<(), NoMemory>
    ensures { OnOk result (rows.new ≡ rows.old ++ tree_row element.now ∷ []) }
{
    let row = Row {
        name: RowName::At(element.bkey),
        eflag: element.eflag,
        value: element.value.share()?,
    };
    match rows.push(row) {
        Ok(()) => Ok(()),
        Err(_) => Err(NoMemory),
    }
}

// So many of the elements that pass the filter, or all where there are fewer.
fn collect<L: Ledger>(
    alloc: Global,
    cursor: &mut Cursor<'_>,
    filter: &Option<Filter<'_>>,
    limit: u32,
    steps: &mut Steps<L>,
) -> Result<Collected, NoMemory>
    ensures rows { IfOk result (λ got. got.rows ≡ map tree_row (take limit (filter_of (is_selected filter.now) cursor.old.left))) }
    ensures last { IfOk result (λ got. got.last ≡ option_map (λ element. element.bkey) (completing 0 limit (filter_of (is_selected filter.now) cursor.old.left))) }
{
    let mut rows = Seq::new(alloc);
    let mut last = None;
    for _number in 0..limit {
        let Some(element) = next_selected(cursor, filter, steps) else {
            return Ok(Collected { rows, last: None });
        };
        put_row(&mut rows, element)?;
        last = Some(element.bkey);
    }
    Ok(Collected { rows, last })
}

/// Walks along the range of a read, once: what it answers, and the range that it covers. `NoMemory` comes for want of memory
/// alone.
pub(crate) fn walk<L: Ledger>(
    alloc: Global,
    tree: &Tree,
    read: &TreeRead<'_>,
    steps: &mut Steps<L>,
) -> Result<Walked, NoMemory>
    ensures rows { IfOk result (λ walked. walked.rows ≡ map tree_row (chosen read.now tree.now.elements)) }
    ensures covered { IfOk result (λ walked. walked.covered ≡ covered_range read.now tree.now.elements) }
{
    let count = tree.count();
    let mut cursor = Cursor::new(tree, &read.range, steps);
    skip(&mut cursor, &read.filter, read.offset, steps);
    let limit = limit_of(read.count, count);
    let collected = collect(alloc, &mut cursor, &read.filter, limit, steps)?;
    let last = completed(read.count, collected.last);
    Ok(Walked {
        rows: collected.rows,
        covered: covered(&read.range, last),
    })
}

// The most elements that a read of a tree of so many answers.
#[tactic(auto, using(crate::proofs::WalkLemmas::limit_at, crate::proofs::WalkLemmas::all_at))]
pub(crate) fn limit_of(count: u32, all: u32) -> u32
    ensures { result ≡ limit_of count all }
{
    if count == 0 { all } else { count }
}

// The bkey with which a read has its count, by the last one where as many were found as there may be.
#[tactic(auto, using(crate::proofs::WalkLemmas::completed_at, crate::proofs::WalkLemmas::none_at))]
fn completed(count: u32, last: Option<Bkey>) -> Option<Bkey>
    ensures { result ≡ completed count last }
{
    if count == 0 { None } else { last }
}

// A range up to a bkey, where there is one.
fn covered(range: &BkeyRange, last: Option<Bkey>) -> BkeyRange
    ensures { result ≡ covered_to range.now last }
{
    match last {
        Some(last) => BkeyRange {
            first: range.first,
            last,
        },
        None => *range,
    }
}

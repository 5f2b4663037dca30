//! In which places the elements stand that a read chooses.
ghost use Rattle.std.specs.Prelude.{◌≡◌, ◌≤◌, ◌<◌, ◌^◌, None, List, drop, length, take, if◌then◌else◌};
ghost use Rattle.std.specs.List.{filter as filter_of};
ghost use Rattle.arc_core.specs.declared.trees.Elem.{Elem};
ghost use Rattle.arc_core.specs.BkeyOrder.{is_down, span};
ghost use Rattle.arc_core.specs.TreeContents.{IsRising};
ghost use Rattle.arc_core.specs.TreeReading.{is_selected};
ghost use Rattle.tree_coll.specs.TreePlanning.{AreChosen, IsPart};

use crate::walk::{is_selected, limit_of};
use arc_core::{BkeyRange, Filter, TreeRead};
use btree_nodes::{Part, Steps, Tree};
use btree_scan::{Cursor, places};
use std::sync::ledger::Ledger;

// Of the elements of a range, in its direction: how many come before those that a read answers, and how many there are from
// the first to the last of these.
#[derive(Clone, Copy)]
struct Stretch {
    before: u32,
    passed: u32,
}

// How far a walk went, and how many of the elements that it passed are selected.
#[derive(Clone, Copy)]
struct Gone {
    passed: u32,
    found: u32,
}

// One, or none.
fn number_of(is_one: bool) -> u32
    ensures number { result ≡ (if is_one then 1 else 0) }
    ensures most { result ≤ 1 }
{
    if is_one { 1 } else { 0 }
}

// Goes past so many selected elements, or all elements where there are fewer.
fn go<L: Ledger>(
    cursor: &mut Cursor<'_>,
    filter: &Option<Filter<'_>>,
    most: u32,
    steps: &mut Steps<L>,
) -> Gone
    requires { length cursor.old.left < 2 ^ 32 }
    ensures left { cursor.new.left ≡ drop result.passed cursor.old.left }
    ensures within { result.passed ≤ length cursor.old.left }
    ensures selected { filter_of (is_selected filter.now) (take result.passed cursor.old.left) ≡ take most (filter_of (is_selected filter.now) cursor.old.left) }
    ensures rest { filter_of (is_selected filter.now) cursor.new.left ≡ drop most (filter_of (is_selected filter.now) cursor.old.left) }
    ensures found { result.found ≡ length (filter_of (is_selected filter.now) (take result.passed cursor.old.left)) }
{
    let mut passed = 0;
    let mut found = 0;
    while found < most {
        let Some(element) = cursor.next(steps) else {
            return Gone { passed, found };
        };
        passed += 1;
        found += number_of(is_selected(filter, element));
    }
    Gone { passed, found }
}

// The part of a read without a filter, by how many elements its range has.
fn part_of_all(number: u32, offset: u32, limit: u32) -> Stretch
    ensures { (inside : List Elem) → number ≡ length inside → IsPart None offset limit inside result.before result.passed }
{
    let before = offset.min(number);
    Stretch {
        before,
        passed: limit.min(number - before),
    }
}

// The part of a read, by a walk along its range.
fn part_of_walk<L: Ledger>(
    mut cursor: Cursor<'_>,
    filter: &Option<Filter<'_>>,
    offset: u32,
    limit: u32,
    steps: &mut Steps<L>,
) -> Stretch
    requires { length cursor.left < 2 ^ 32 }
    ensures { IsPart filter.now offset limit cursor.entry.left result.before result.passed }
{
    let before = go(&mut cursor, filter, offset, steps);
    let gone = go(&mut cursor, filter, limit, steps);
    Stretch {
        before: before.passed,
        passed: if gone.found == 0 { 0 } else { gone.passed },
    }
}

// The part of a read, by how many elements its range has. Without a filter it looks at none of them.
fn part_of<L: Ledger>(
    tree: &Tree,
    read: &TreeRead<'_>,
    number: u32,
    limit: u32,
    steps: &mut Steps<L>,
) -> Stretch
    requires { number ≡ length (span (λ element. element.bkey) read.now.range tree.now.elements) }
    ensures { IsPart read.now.filter read.now.offset limit (span (λ element. element.bkey) read.now.range tree.now.elements) result.before result.passed }
{
    match &read.filter {
        None => part_of_all(number, read.offset, limit),
        Some(_) => {
            let cursor = Cursor::new(tree, &read.range, steps);
            part_of_walk(cursor, &read.filter, read.offset, limit, steps)
        }
    }
}

// Enters the root, and tells contracts that the bkeys of a tree rise.
fn know_order<L: Ledger>(tree: &Tree, steps: &mut Steps<L>)
    ensures { IsRising tree.now.elements }
{
    match tree.part(None, steps) {
        Part::Leaf(_) | Part::Branch(_) => {}
    }
}

// Whether a range goes down.
fn is_down(range: &BkeyRange) -> bool
    ensures { result ≡ is_down range.now }
{
    range.first.cmp(&range.last).is_gt()
}

/// The places of the elements that a read chooses: they are the selected ones from the first to before the second, which are
/// the same where it chooses none. Without a filter it looks at no element; else it walks along its range once, up to the last
/// element that it chooses. Takes no memory.
pub(crate) fn chosen_places<L: Ledger>(
    tree: &Tree,
    read: &TreeRead<'_>,
    steps: &mut Steps<L>,
) -> (u32, u32)
    ensures { AreChosen read.now tree.now.elements result.0 result.1 }
{
    know_order(tree, steps);
    let (low, high) = places(tree, &read.range, steps);
    let limit = limit_of(read.count, tree.count());
    let part = part_of(tree, read, high - low, limit, steps);
    if is_down(&read.range) {
        let last = high - part.before;
        (last - part.passed, last)
    } else {
        let first = low + part.before;
        (first, first + part.passed)
    }
}

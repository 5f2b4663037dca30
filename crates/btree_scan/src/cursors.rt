//! The elements of a range, one after another.
ghost use Rattle.std.specs.Prelude.{◌≡◌, ◌+◌, ◌*◌, ◌≤◌, ◌<◌, length, MatchOption, [], ◌∷◌, ◌^◌, Some};
ghost use Rattle.arc_core.specs.BkeyOrder.{greater_end, is_down, lesser_end, span};
ghost use Rattle.std.specs.List.{filter as filter_of};
ghost use Rattle.arc_core.specs.TreeReading.{is_selected, selected};
ghost use Rattle.btree_nodes.specs.Contents.{MayBeHigh};
ghost use Rattle.btree_scan.specs.Directions.{AreSides};
ghost use Rattle.btree_scan.specs.Spans.{number_up_to, ArePlaces};
ghost use Rattle.arc_core.specs.TreeContents.{IsRising, place_of};

use crate::leaves::{cut_at_end, elements_within, know_count, leaf_of, next_leaf};
use crate::positions::{Position, position_of};
use crate::way::{Way, split_near};
use arc_core::{Bkey, BkeyRange, Elem, Filter};
use btree_nodes::{Steps, Tree};
use eflag_filter::passes;
use std::marker::Model;
use std::sync::ledger::Ledger;

/// The elements of a range that are not handed out yet, in the range's direction.
///
/// Contracts see these elements as `left`, and as `credit` how many eighths of a step are saved up for nodes that are still
/// to be entered. Each element that is handed out pays an eighth. So a cursor that has handed out E elements has entered at
/// most 2 h + E / 8 nodes of a tree of height h, those of `new` too.
#[derive(Drop)]
pub struct Cursor<'t> {
    tree: &'t Tree,
    down: bool,
    far: Bkey,
    // The elements of the leaf that the range has and that are left: in a walk upwards these, downwards those below.
    rising: &'t [Elem],
    falling: &'t [Elem],
    way: Way<'t>,
}

impl<'t> Model for Cursor<'t> {
    ghost use Rattle.btree_scan.specs.Unread.{Unread};
    ghost use Rattle.btree_scan.specs.Walks.{unread_of, IsWalk};

    ghost Value = { Unread };

    ghost view = { unread_of };

    ghost invariant = { IsWalk };
}

/// How many elements have this bkey or a smaller one.
fn number_up_to<L: Ledger>(tree: &Tree, bkey: &Bkey, steps: &mut Steps<L>) -> u32
    ensures number { result ≡ number_up_to bkey.now tree.now.elements }
    ensures within { result ≤ length tree.now.elements }
    ensures steps { steps.new ≡ steps.old + tree.now.height }
{
    let count = tree.count();
    match position_of(tree, bkey, steps) {
        Position::At(place) => place + 1,
        Position::Before(place) => place,
    }
}

/// How many elements have smaller bkeys.
fn number_of_smaller<L: Ledger>(tree: &Tree, bkey: &Bkey, steps: &mut Steps<L>) -> u32
    ensures number { result ≡ place_of bkey.now tree.now.elements }
    ensures rising { IsRising tree.now.elements }
    ensures high { MayBeHigh (length tree.now.elements) tree.now.height }
    ensures within { result ≤ length tree.now.elements }
    ensures steps { steps.new ≡ steps.old + tree.now.height }
{
    match position_of(tree, bkey, steps) {
        Position::At(place) | Position::Before(place) => place,
    }
}

/// Whether a range goes down.
fn is_down(range: &BkeyRange) -> bool
    ensures { result ≡ is_down range.now }
{
    range.first.cmp(&range.last).is_gt()
}

/// The lesser and the greater end of a range.
fn ends(range: &BkeyRange) -> (Bkey, Bkey)
    ensures lesser { result.0 ≡ lesser_end range.now }
    ensures greater { result.1 ≡ greater_end range.now }
{
    if is_down(range) {
        (range.last, range.first)
    } else {
        (range.first, range.last)
    }
}

/// The places of a range's elements: from the first to before the second. Enters twice as many nodes as the tree is high, and
/// takes no memory.
pub fn places<L: Ledger>(tree: &Tree, range: &BkeyRange, steps: &mut Steps<L>) -> (u32, u32)
    ensures places { ArePlaces range.now tree.now.elements result.0 result.1 }
    ensures high { MayBeHigh (length tree.now.elements) tree.now.height }
    ensures steps { steps.new ≡ steps.old + 2 * tree.now.height }
{
    let (lesser, greater) = ends(range);
    let low = number_of_smaller(tree, &lesser, steps);
    let high = number_up_to(tree, &greater, steps);
    (low, high.max(low))
}

/// The elements of a walk upwards and those of a walk downwards, of which one has none. So a step within a leaf asks for
/// no direction.
fn sides<'t>(elements: &'t [Elem], down: bool) -> (&'t [Elem], &'t [Elem])
    ensures { AreSides down elements.now result.0.now result.1.now }
{
    if down {
        return (&[], elements);
    }
    (elements, &[])
}

impl<'t> Cursor<'t> {
    /// Stands before the first element of a range. Enters as many nodes as the tree is high, and takes no memory.
    pub fn new<L: Ledger>(tree: &'t Tree, range: &BkeyRange, steps: &mut Steps<L>) -> Cursor<'t>
        ensures elements { result.left ≡ span (λ element. element.bkey) range.now tree.now.elements }
        ensures steps { 8 * steps.new + result.credit ≤ 8 * steps.old + 16 * tree.now.height }
        ensures high { MayBeHigh (length tree.now.elements) tree.now.height }
    {
        let down = is_down(range);
        let mut way = Way::new();
        let leaf = leaf_of(tree, &range.first, down, &mut way, steps);
        let from_first = elements_within(leaf, &range.first, !down);
        let elements = cut_at_end(from_first, &range.last, down, &mut way);
        let (rising, falling) = sides(elements, down);
        Cursor {
            tree,
            down,
            far: range.last,
            rising,
            falling,
            way,
        }
    }

    /// The next element of the range; `None` where all were handed out. Takes no memory.
    ///
    /// It enters no node while elements of one leaf are left.
    pub fn next<L: Ledger>(&mut self, steps: &mut Steps<L>) -> Option<&'t Elem>
        ensures elements { MatchOption result ((self.old.left ≡ []) × (self.new.left ≡ [])) (λ element. self.old.left ≡ element.now ∷ self.new.left) }
        ensures steps { 8 * steps.new + self.new.credit + length self.new.left ≤ 8 * steps.old + self.old.credit + length self.old.left }
    {
        if let Some((first, others)) = split_near(self.rising, false) {
            self.rising = others;
            return Some(first);
        }
        if let Some((last, others)) = split_near(self.falling, true) {
            self.falling = others;
            return Some(last);
        }
        let elements = next_leaf(self.tree, &self.far, self.down, &mut self.way, steps);
        let (element, others) = split_near(elements, self.down)?;
        let (rising, falling) = sides(others, self.down);
        self.rising = rising;
        self.falling = falling;
        Some(element)
    }
}

/// How many elements of a range pass the filter, where there is one. Takes no memory.
///
/// Without a filter it enters twice as many nodes as the tree of height h is high; with one it walks along the range, and
/// enters at most 2 h + E / 8 where the range has E elements.
pub fn count_in<L: Ledger>(
    tree: &Tree,
    range: &BkeyRange,
    filter: &Option<Filter<'_>>,
    steps: &mut Steps<L>,
) -> u32
    ensures count { result ≡ length (selected range.now filter.now tree.now.elements) }
    ensures steps { MatchOption filter.now (steps.new ≡ steps.old + 2 * tree.now.height) (λ _. 8 * steps.new ≤ 8 * steps.old + 16 * tree.now.height + length (span (λ element. element.bkey) range.now tree.now.elements)) }
    ensures high { MayBeHigh (length tree.now.elements) tree.now.height }
{
    match filter {
        None => {
            let (low, high) = places(tree, range, steps);
            high - low
        }
        Some(filter) => {
            know_count(tree);
            count_passing(Cursor::new(tree, range, steps), filter, steps)
        }
    }
}

/// How many of the elements that are left of a walk pass the filter.
fn count_passing<L: Ledger>(
    mut cursor: Cursor<'_>,
    filter: &Filter<'_>,
    steps: &mut Steps<L>,
) -> u32
    requires { length cursor.left < 2 ^ 32 }
    ensures count { result ≡ length (filter_of (is_selected (Some filter.now)) cursor.entry.left) }
    ensures steps { 8 * steps.new ≤ 8 * steps.old + cursor.entry.credit + length cursor.entry.left }
{
    let mut count = 0;
    while let Some(element) = cursor.next(steps) {
        if passes(filter, &element.eflag) {
            count += 1;
        }
    }
    count
}

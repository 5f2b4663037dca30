//! The merged rows of many trees, one after another.
ghost use Rattle.std.specs.Prelude.{◌≡◌, ◌+◌, ◌*◌, ◌^◌, ◌≤◌, ◌<◌, [], ◌∷◌, ◌++◌, true, None, length, All, MatchOption, IfOk};
ghost use Rattle.arc_core.specs.BkeyOrder.{is_down, span};
ghost use Rattle.arc_core.specs.TreeContents.{IsRising};
ghost use Rattle.arc_core.specs.TreeReading as meaning;
ghost use Rattle.btree_nodes.specs.Contents.{MayBeHigh};
ghost use Rattle.smget_merge.specs.MergedRows.{rows_of, sorted, has_last};
ghost use Rattle.smget_merge.specs.Merges.{HandsOut, IsUsedUp, is_wanted};
ghost use Rattle.smget_merge.specs.Tournaments.{IsRanked};
ghost use Rattle.smget_merge.specs.Walks.{all_credit, all_rows, heads_of, IsFacing};

use crate::tournament::{first_of, rank, rank_again};
use crate::walks::Walk;
use arc_core::{BkeyRange, Elem, Filter, NoMemory};
use btree_nodes::{Steps, Tree};
use eflag_filter::passes;
use std::alloc::Global;
use std::marker::Model;
use std::sync::ledger::Ledger;

/// The elements that many trees have in one range, merged: by bkey in the range's direction, and where bkeys are equal in the
/// order in which the trees were put in.
///
/// Contracts see the range, for how many further trees there is room, the rows that are `left`, each an element with the
/// number of its tree, the bkey of the row that was handed out `last`, and as `credit` how many eighths of a step are saved up
/// for nodes that are still to be entered.
#[derive(Drop)]
pub struct Merge<'t> {
    range: BkeyRange,
    down: bool,
    walks: Vec<Walk<'t>>,
    // The places of the walks that win at the nodes of the tournament, which is played once the first row is asked for.
    winners: Vec<u32>,
    is_ranked: bool,
    last: Option<&'t Elem>,
}

impl<'t> Model for Merge<'t> {
    ghost use Rattle.smget_merge.specs.Merges.{Merging};
    ghost use Rattle.smget_merge.specs.MergesInside.{merging_of, IsMerge};

    ghost Value = { Merging };

    ghost view = { merging_of };

    ghost invariant = { IsMerge };
}

impl<'t> Merge<'t> {
    /// A merge of no trees yet, with room for so many. `NoMemory` comes for want of memory alone.
    pub fn new(alloc: Global, trees: u32, range: &BkeyRange) -> Result<Merge<'t>, NoMemory>
        ensures range { IfOk result (λ merge. merge.range ≡ range.now) }
        ensures room { IfOk result (λ merge. merge.room ≡ trees) }
        ensures left { IfOk result (λ merge. merge.left ≡ []) }
        ensures last { IfOk result (λ merge. merge.last ≡ None) }
        ensures credit { IfOk result (λ merge. merge.credit ≡ 0) }
    {
        let walks = Vec::with_capacity(alloc, trees as usize)?;
        let winners = vec![in alloc; 0; trees as usize]?;
        Ok(Merge {
            range: *range,
            down: range.first.cmp(&range.last).is_gt(),
            walks,
            winners,
            is_ranked: false,
            last: None,
        })
    }

    /// Puts a tree in under a number, behind those that were put in before. Takes no memory.
    pub fn add<L: Ledger>(&mut self, number: u32, tree: &'t Tree, steps: &mut Steps<L>)
        requires room { 1 ≤ self.old.room }
        requires rising { IsRising tree.now.elements }
        ensures left { self.new.left ≡ sorted (is_down self.old.range) (self.old.left ++ rows_of number (span (λ element. element.bkey) self.old.range tree.now.elements)) }
        ensures room { self.new.room + 1 ≡ self.old.room }
        ensures range { self.new.range ≡ self.old.range }
        ensures last { self.new.last ≡ self.old.last }
        ensures steps { 8 * steps.new + self.new.credit ≤ 8 * steps.old + self.old.credit + 16 * tree.now.height + 1 }
        ensures high { MayBeHigh (length tree.now.elements) tree.now.height }
    {
        let walk = Walk::new(number, tree, &self.range, steps);
        self.walks.push_reserved(walk);
        self.is_ranked = false;
    }

    /// Hands out the first row that is left of those that pass the filter, where there is one: the number of the tree and the
    /// element. Where rows are to be unique, those with the bkey of the row that was handed out last are passed over. `None`
    /// where no such row is left. Takes no memory.
    pub fn next<L: Ledger>(
        &mut self,
        filter: &Option<Filter<'_>>,
        unique: bool,
        steps: &mut Steps<L>,
    ) -> Option<(u32, &'t Elem)>
        ensures row { MatchOption result (IsUsedUp filter.now unique self.old self.new) (λ row. HandsOut filter.now unique self.old (record { number = row.0; element = row.1.now }) self.new) }
        ensures range { self.new.range ≡ self.old.range }
        ensures room { self.new.room ≡ self.old.room }
        ensures steps { 8 * steps.new + self.new.credit + length self.new.left ≤ 8 * steps.old + self.old.credit + length self.old.left }
    {
        while let Some((number, element)) = self.take(steps) {
            if self.is_wanted(filter, unique, element) {
                self.last = Some(element);
                return Some((number, element));
            }
        }
        None
    }

    /// Whether an element passes the filter, where there is one, and is not to be passed over for its bkey.
    fn is_wanted(&self, filter: &Option<Filter<'_>>, unique: bool, element: &Elem) -> bool
        ensures { result ≡ is_wanted filter.now unique self.now.last element.now }
    {
        if !is_selected(filter, element) {
            return false;
        }
        !(unique && self.has_last(element))
    }

    /// Whether an element has the bkey of the row that was handed out last.
    fn has_last(&self, element: &Elem) -> bool
        ensures { result ≡ has_last self.now.last element.now }
    {
        match self.last {
            Some(last) => element.bkey.cmp(&last.bkey).is_eq(),
            None => false,
        }
    }

    /// Takes the first of the rows that are left, whether it is wanted or not.
    fn take<L: Ledger>(&mut self, steps: &mut Steps<L>) -> Option<(u32, &'t Elem)>
        ensures row { MatchOption result ((self.old.left ≡ []) × (self.new.left ≡ [])) (λ row. self.old.left ≡ record { number = row.0; element = row.1.now } ∷ self.new.left) }
        ensures range { self.new.range ≡ self.old.range }
        ensures room { self.new.room ≡ self.old.room }
        ensures last { self.new.last ≡ self.old.last }
        ensures steps { 8 * steps.new + self.new.credit + length self.new.left ≤ 8 * steps.old + self.old.credit + length self.old.left }
    {
        if self.walks.is_empty() {
            return None;
        }
        make_ranked(
            &self.walks,
            self.down,
            &mut self.winners,
            &mut self.is_ranked,
        );
        take_first(&mut self.walks, self.down, &mut self.winners, steps)
    }
}

/// Plays the tournament, where that was not done.
fn make_ranked(walks: &[Walk<'_>], down: bool, winners: &mut [u32], is_ranked: &mut bool)
    requires few { length walks.now < 2 ^ 32 }
    requires room { length walks.now ≤ length winners.old }
    requires ranked { is_ranked.old ≡ true → IsRanked down (heads_of walks.now) (length walks.now) winners.old }
    ensures ranked { IsRanked down (heads_of walks.now) (length walks.now) winners.new }
    ensures length { length winners.new ≡ length winners.old }
{
    if *is_ranked {
        return;
    }
    rank(walks, down, winners);
    *is_ranked = true;
}

/// Takes the element that is next from the walks, and the number of its tree.
fn take_first<'t, L: Ledger>(
    walks: &mut [Walk<'t>],
    down: bool,
    winners: &mut [u32],
    steps: &mut Steps<L>,
) -> Option<(u32, &'t Elem)>
    requires some { 1 ≤ length walks.old }
    requires few { length walks.old < 2 ^ 32 }
    requires room { length walks.old ≤ length winners.old }
    requires ranked { IsRanked down (heads_of walks.old) (length walks.old) winners.old }
    requires facing { All (λ walk. IsFacing down walk.elements) walks.old }
    ensures row { MatchOption result ((sorted down (all_rows walks.old) ≡ []) × (walks.new ≡ walks.old)) (λ row. sorted down (all_rows walks.old) ≡ record { number = row.0; element = row.1.now } ∷ sorted down (all_rows walks.new)) }
    ensures ranked { IsRanked down (heads_of walks.new) (length walks.new) winners.new }
    ensures facing { All (λ walk. IsFacing down walk.elements) walks.new }
    ensures walks { length walks.new ≡ length walks.old }
    ensures winners { length winners.new ≡ length winners.old }
    ensures steps { 8 * steps.new + all_credit walks.new + length (all_rows walks.new) ≤ 8 * steps.old + all_credit walks.old + length (all_rows walks.old) }
{
    let place = first_of(walks, down, winners);
    let walk = &mut walks[place];
    let element = walk.take(steps)?;
    let number = walk.number();
    rank_again(walks, down, winners, place);
    Some((number, element))
}

/// Whether an element passes the filter, where there is one.
fn is_selected(filter: &Option<Filter<'_>>, element: &Elem) -> bool
    ensures { result ≡ meaning.is_selected filter.now element.now }
{
    match filter {
        Some(filter) => passes(filter, &element.eflag),
        None => true,
    }
}

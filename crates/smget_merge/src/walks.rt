//! The way of one tree along the range.
ghost use Rattle.std.specs.Prelude.{◌≡◌, ◌+◌, ◌*◌, ◌≤◌, [], ◌∷◌, length, slice_get, MatchOption};
ghost use Rattle.std.specs.Option.{option_map};
ghost use Rattle.arc_core.specs.BkeyOrder.{span};
ghost use Rattle.btree_nodes.specs.Contents.{MayBeHigh};

use arc_core::{BkeyRange, Elem};
use btree_nodes::{Steps, Tree};
use btree_scan::Cursor;
use std::marker::Model;
use std::sync::ledger::Ledger;

/// The elements of one tree's range that are left, of which the next one is at hand.
#[derive(Drop)]
pub(crate) struct Walk<'t> {
    number: u32,
    head: Option<&'t Elem>,
    cursor: Cursor<'t>,
}

impl<'t> Model for Walk<'t> {
    ghost use Rattle.smget_merge.specs.Walks.{WalkLeft, from_head};

    ghost Value = { WalkLeft };

    ghost view = { λ walk. record { number = walk.number; elements = from_head walk.head walk.cursor.left; credit = walk.cursor.credit } };
}

impl<'t> Walk<'t> {
    /// Stands before the first element of a range. Takes no memory.
    pub(crate) fn new<L: Ledger>(
        number: u32,
        tree: &'t Tree,
        range: &BkeyRange,
        steps: &mut Steps<L>,
    ) -> Walk<'t>
        ensures number { result.number ≡ number }
        ensures elements { result.elements ≡ span (λ element. element.bkey) range.now tree.now.elements }
        ensures steps { 8 * steps.new + result.credit ≤ 8 * steps.old + 16 * tree.now.height + 1 }
        ensures high { MayBeHigh (length tree.now.elements) tree.now.height }
    {
        let mut cursor = Cursor::new(tree, range, steps);
        let head = cursor.next(steps);
        Walk {
            number,
            head,
            cursor,
        }
    }

    /// The number of the tree.
    pub(crate) fn number(&self) -> u32
        ensures { result ≡ self.now.number }
    {
        self.number
    }

    /// The next element, where one is left.
    pub(crate) fn head(&self) -> Option<&'t Elem>
        ensures { option_map (λ element. element.now) result ≡ slice_get self.now.elements 0 }
    {
        self.head
    }

    /// Hands out the next element; `None` where none is left.
    pub(crate) fn take<L: Ledger>(&mut self, steps: &mut Steps<L>) -> Option<&'t Elem>
        ensures number { self.new.number ≡ self.old.number }
        ensures elements { MatchOption result ((self.old.elements ≡ []) × (self.new ≡ self.old) × (steps.new ≡ steps.old)) (λ element. self.old.elements ≡ element.now ∷ self.new.elements) }
        ensures steps { 8 * steps.new + self.new.credit + length self.new.elements ≤ 8 * steps.old + self.old.credit + length self.old.elements }
    {
        let head = self.head?;
        self.head = self.cursor.next(steps);
        Some(head)
    }
}

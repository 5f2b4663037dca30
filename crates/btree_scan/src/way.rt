//! What stands ahead of a walk through a tree.
ghost use Rattle.std.specs.Prelude.{◌≡◌, ◌<◌, [], ◌∷◌, ◌++◌, length, MatchOption};
ghost use Rattle.btree_scan.specs.Directions.{joined};

use arrayvec::ArrayVec;
use btree_nodes::Child;
use std::marker::Model;

// A tree of fewer than 2^32 elements is at most eight nodes high.
const MAX_LEVELS: usize = 7;

/// The children that a walk may still enter, level by level: the root's first, those beside the leaf last.
///
/// Contracts see the list of the levels.
#[derive(Drop)]
pub(crate) struct Way<'t> {
    levels: ArrayVec<&'t [Child], MAX_LEVELS>,
}

impl<'t> Model for Way<'t> {
    ghost use Rattle.std.specs.Prelude.{List};
    ghost use Rattle.std.specs.Borrow.{Bor};
    ghost use Rattle.btree_nodes.specs.Subtree.{Subtree};

    ghost Value = { List (Bor (List Subtree)) };

    ghost view = { λ way. way.levels.items };
}

impl<'t> Way<'t> {
    /// Nothing is ahead.
    pub(crate) fn new() -> Way<'t>
        ensures { result ≡ [] }
    {
        Way {
            levels: ArrayVec::new(),
        }
    }

    /// One level more.
    pub(crate) fn push(&mut self, children: &'t [Child])
        requires { length self.old < 7 }
        ensures { self.new ≡ self.old ++ children.entry ∷ [] }
    {
        self.levels.push(children);
    }

    /// Hands the lowest level out.
    pub(crate) fn pop(&mut self) -> Option<&'t [Child]>
        ensures { MatchOption result ((self.old ≡ []) × (self.new ≡ [])) (λ children. self.old ≡ self.new ++ children ∷ []) }
    {
        self.levels.pop()
    }

    /// Nothing is ahead any more.
    pub(crate) fn clear(&mut self)
        ensures { self.new ≡ [] }
    {
        *self = Way::new();
    }
}

/// The first of these items, or the last for a walk down, and the others.
#[inline]
pub(crate) fn split_near<'t, T>(items: &'t [T], down: bool) -> Option<(&'t T, &'t [T])>
    ensures { MatchOption result (items.now ≡ []) (λ split. items.now ≡ joined down (split.0.now ∷ []) split.1.now) }
{
    let count = items.len();
    if count == 0 {
        return None;
    }
    if down {
        return Some((&items[count - 1], &items[..count - 1]));
    }
    Some((&items[0], &items[1..]))
}

//! Which of many walks has the element that is next.
//!
//! Each walk plays against its neighbour, the winners play against each other, and so on up to the one that wins over all.
//! Where the winner's next element is handed out, the games on its way up are played again, and no others.
ghost use Rattle.std.specs.Prelude.{◌≡◌, ℕ, ◌+◌, ◌*◌, ◌/◌, ◌^◌, ◌<◌, ◌≤◌, length, slice_set};
ghost use Rattle.smget_merge.specs.MergedRows.{bkey_order};
ghost use Rattle.smget_merge.specs.Tournaments.{entrant, winner_below, wins, IsAbove, IsEntered, IsFirst, IsPlayed, IsRanked};
ghost use Rattle.smget_merge.specs.Walks.{heads_of};

use crate::walks::Walk;
use arc_core::Bkey;
use std::cmp::Ordering;

/// How two bkeys are ordered in a direction.
fn bkey_order(down: bool, one: &Bkey, other: &Bkey) -> Ordering
    ensures { result ≡ bkey_order down one.now other.now }
{
    if down {
        return other.cmp(one);
    }
    one.cmp(other)
}

/// Whether the next element of one walk goes before that of another. Elements of one bkey go by the walks' places.
fn wins(walks: &[Walk<'_>], down: bool, one: usize, other: usize) -> bool
    requires one { one < length walks.now }
    requires other { other < length walks.now }
    ensures { result ≡ wins down (heads_of walks.now) one other }
{
    let Some(first) = walks[one].head() else {
        return false;
    };
    let Some(second) = walks[other].head() else {
        return true;
    };
    let order = bkey_order(down, &first.bkey, &second.bkey);
    order.then(one.cmp(&other)).is_lt()
}

/// The place of the walk at a node, among so many.
fn entrant(winners: &[u32], count: usize, node: usize) -> usize
    requires room { count ≤ length winners.now }
    ensures { result ≡ entrant count winners.now node }
{
    if node < count {
        return winners[node] as usize;
    }
    node - count
}

/// Plays the game at a node.
fn play(walks: &[Walk<'_>], down: bool, winners: &mut [u32], node: usize)
    requires few { length walks.now < 2 ^ 32 }
    requires room { length walks.now ≤ length winners.old }
    requires node { node < length walks.now }
    requires left { entrant (length walks.now) winners.old (2 * node) < length walks.now }
    requires right { entrant (length walks.now) winners.old (2 * node + 1) < length walks.now }
    ensures { winners.new ≡ slice_set winners.old node (winner_below down (heads_of walks.now) (length walks.now) winners.old node) }
{
    let left = entrant(winners, walks.len(), 2 * node);
    let right = entrant(winners, walks.len(), 2 * node + 1);
    let winner = if wins(walks, down, right, left) {
        right
    } else {
        left
    };
    winners[node] = winner as u32;
}

/// Plays all games, from the last node up.
pub(crate) fn rank(walks: &[Walk<'_>], down: bool, winners: &mut [u32])
    requires few { length walks.now < 2 ^ 32 }
    requires room { length walks.now ≤ length winners.old }
    ensures ranked { IsRanked down (heads_of walks.now) (length walks.now) winners.new }
    ensures length { length winners.new ≡ length winners.old }
{
    let mut node = walks.len();
    while node > 1 {
        node -= 1;
        play(walks, down, winners, node);
    }
}

/// The place of the walk that wins over all.
pub(crate) fn first_of(walks: &[Walk<'_>], down: bool, winners: &[u32]) -> usize
    requires some { 1 ≤ length walks.now }
    requires room { length walks.now ≤ length winners.now }
    requires ranked { IsRanked down (heads_of walks.now) (length walks.now) winners.now }
    ensures { IsFirst down (heads_of walks.now) (length walks.now) result }
{
    entrant(winners, walks.len(), 1)
}

/// Plays the games above a walk again, where those beside its way up still stand.
pub(crate) fn rank_again(walks: &[Walk<'_>], down: bool, winners: &mut [u32], place: usize)
    requires few { length walks.now < 2 ^ 32 }
    requires room { length walks.now ≤ length winners.old }
    requires place { place < length walks.now }
    requires others { (node : ℕ) → 1 ≤ node → node < length walks.now → (IsAbove node ((length walks.now + place) / 2) → ⊥) → IsPlayed down (heads_of walks.now) (length walks.now) winners.old node }
    ensures ranked { IsRanked down (heads_of walks.now) (length walks.now) winners.new }
    ensures length { length winners.new ≡ length winners.old }
{
    let mut node = (walks.len() + place) / 2;
    while node > 0 {
        play(walks, down, winners, node);
        node /= 2;
    }
}

//! Bkeys, by which the elements of a tree are ordered, and ranges of them.
ghost use Rattle.std.specs.Prelude.{refl};
ghost use Rattle.std.specs.Ordering.{as_partial_cmp};
ghost use Rattle.std.specs.Cmp.{partial_order_from_own_ties, partial_order_from_total};
ghost use Rattle.arc_core.specs.BkeyOrder.{bkey_cmp};
ghost use Rattle.arc_core.specs.BkeyLaws.{bkey_cmp_total, bkey_ties};

use crate::ShortBytes;
use std::cmp::Ordering;

/// The key of an element in a tree.
///
/// Every number is below every byte bkey. Numbers are ordered by value, byte bkeys byte by byte, where a proper
/// prefix is smaller. (Both kinds are the ARCUS protocol's; their order among each other is this server's own.)
#[derive(Clone, Copy, Debug, PartialEq, Eq, Hash)]
pub enum Bkey {
    /// A number of 64 bits.
    Number(u64),
    /// 1 to 31 bytes.
    Bytes(ShortBytes),
}

// Written out and not derived, so that contracts see it as `bkey_cmp`.
impl Ord for Bkey {
    ghost cmp = { bkey_cmp };

    ghost total = { bkey_cmp_total };

    ghost matches_partial_cmp = { λ a b. refl };

    ghost matches_eq = { bkey_ties _ (λ a b. refl) (λ a b. refl) (λ a b. refl) (λ a b. refl) };

    fn cmp(&self, other: &Bkey) -> Ordering {
        match (self, other) {
            (Bkey::Number(a), Bkey::Number(b)) => a.cmp(b),
            (Bkey::Number(_), Bkey::Bytes(_)) => Ordering::Less,
            (Bkey::Bytes(_), Bkey::Number(_)) => Ordering::Greater,
            (Bkey::Bytes(a), Bkey::Bytes(b)) => a.cmp(b),
        }
    }
}

impl PartialOrd for Bkey {
    ghost partial_cmp = { as_partial_cmp bkey_cmp };

    ghost laws = { partial_order_from_own_ties (partial_order_from_total bkey_cmp_total)
        (bkey_ties _ (λ a b. refl) (λ a b. refl) (λ a b. refl) (λ a b. refl)) };

    fn partial_cmp(&self, other: &Bkey) -> Option<Ordering> {
        Some(self.cmp(other))
    }
}

/// From one bkey to another, both of them in the range and of one kind. It goes down where `first` is the greater.
#[derive(Clone, Copy, Debug, PartialEq, Eq)]
pub struct BkeyRange {
    pub first: Bkey,
    pub last: Bkey,
}

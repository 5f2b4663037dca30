//! What items carry beside their contents.

/// When an item expires.
#[derive(Clone, Copy, Debug, PartialEq, Eq)]
pub enum Expiry {
    /// Never; it may be evicted.
    Never,
    /// Never, and it is not evicted either. (ARCUS's exptime -1.)
    Sticky,
    /// At this second of the clock and from then on.
    At(u64),
}

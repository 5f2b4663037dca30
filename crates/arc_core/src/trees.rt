//! Elements of trees, and how they are read.

use crate::{Bkey, BkeyRange, Eflag, Filter, Value};

/// An element of a tree.
#[derive(Drop)]
pub struct Elem {
    pub bkey: Bkey,
    pub eflag: Option<Eflag>,
    /// At most 32,768 bytes.
    pub value: Value,
}

/// Up to where a tree was trimmed on each side, where it was. (This server's own; ARCUS tells it by `trimmed`.)
#[derive(Clone, Copy, Debug, PartialEq, Eq)]
pub struct Edges {
    pub low: Option<Bkey>,
    pub high: Option<Bkey>,
}

/// What a read of a tree asks for: the elements of the range that pass the filter, in the range's direction, without the
/// first `offset`, and `count` of them; count 0 asks for all.
#[derive(Drop)]
pub struct TreeRead<'a> {
    pub range: BkeyRange,
    pub filter: Option<Filter<'a>>,
    pub offset: u32,
    pub count: u32,
}

//! What an insert into a list does, and which part of a list a range of indices names.

use crate::Side;

/// What an insert into a list does. Places are counted from 0 at the head, in the list before the insert and the trim.
#[derive(Clone, Copy, Debug, PartialEq, Eq)]
pub enum ListPlan {
    /// The element goes to this place.
    Store(u32),
    /// The list is full. The element goes to this place, and the old element at this end is trimmed.
    StoreAndTrim(u32, Side),
    /// The index, and the list's count: the index names no place for a new element, or the new element would be the
    /// trimmed one.
    OutOfRange(i32, u32),
    /// The list is full, and its action is `Error`.
    Overflowed,
}

/// The places of a list from `low` to `high`, both counted from 0 at the head and both within the part.
/// `down` says that they are read from `high` to `low`.
#[derive(Clone, Copy, Debug, PartialEq, Eq)]
pub struct Part {
    pub low: u32,
    pub high: u32,
    pub down: bool,
}

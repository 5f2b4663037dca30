//! The answer of the calls of `Shelf` that put an item.

/// What came of putting an item.
#[derive(Clone, Copy, Debug, PartialEq, Eq)]
pub enum Put {
    /// It stands under its key.
    Done,
    /// No eviction can make room, or the sticky items would pass the share. Nothing has changed.
    NoRoom,
    /// Memory was refused. Nothing has changed.
    NoMemory,
}

//! The answer of `Shelf::room`.

/// Whether the shelf can make room, and by how many evictions.
#[derive(Clone, Copy, Debug, PartialEq, Eq)]
pub enum Room {
    /// So many evictions of the least recently used places make room, and fewer do not.
    Fits(u64),
    /// Not even evicting every place makes room.
    Nothing,
}

//! Small types that requests on collections, their plans and their attributes share.

/// What an item is. (The types of ARCUS.)
#[derive(Clone, Copy, Debug, PartialEq, Eq)]
pub enum Kind {
    /// A value with client flags.
    Kv,
    List,
    Set,
    Map,
    /// A B+tree.
    Tree,
}

/// What a read does with the elements that it answers.
#[derive(Clone, Copy, Debug, PartialEq, Eq)]
pub enum Take {
    /// They stay.
    Keep,
    /// They go.
    Delete,
    /// They go, and so does the collection where it is empty then.
    Drop,
}

/// What an insert into a full collection does.
///
/// Lists have `Error`, `HeadTrim` and `TailTrim`; sets and maps `Error`; trees all but the trims of head and tail.
/// (ARCUS's overflowaction.)
#[derive(Clone, Copy, Debug, PartialEq, Eq)]
pub enum Action {
    /// The insert is refused.
    Error,
    /// The list's first element makes room.
    HeadTrim,
    /// The list's last element makes room.
    TailTrim,
    /// The tree's smallest element makes room.
    SmallestTrim,
    /// The tree's greatest element makes room.
    LargestTrim,
    /// As `SmallestTrim`, and the trim is not told to later reads.
    SmallestSilentTrim,
    /// As `LargestTrim`, and the trim is not told to later reads.
    LargestSilentTrim,
}

/// An end of a collection in its order. Of a list, `Low` is the head.
#[derive(Clone, Copy, Debug, PartialEq, Eq)]
pub enum Side {
    Low,
    High,
}

/// The indices that a request on a list names: from `first` to `last`, both from -2^31 to 2^31 - 1.
///
/// An index at or above 0 counts from the head, one below 0 from the tail, where -1 is the last element.
/// `single` says that one index was written, and then both are that one.
#[derive(Clone, Copy, Debug, PartialEq, Eq)]
pub struct IndexRange {
    pub first: i32,
    pub last: i32,
    pub single: bool,
}

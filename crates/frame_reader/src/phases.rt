//! Where a reader stands within its unit.

/// Where a reader stands within its unit. The line's bytes before its LF, and the block's, are kept beside it.
/// A large block is one of more than 131,072 bytes with its CR LF.
#[derive(Clone, Copy)]
pub(crate) enum Phase {
    /// The line's LF is still to come.
    InLine,
    /// A block of `len` bytes and its CR LF are read.
    InBlock { len: usize },
    /// A large block of `len` bytes and its CR LF are read.
    InLargeBlock { len: usize },
    /// A block that is not kept: so many bytes of it and its CR LF have come, and so many are still to come.
    PassingOver { passed: u64, left: u64, kind: Kind },
    /// The unit is whole.
    Ready(Kind),
}

/// What kind of unit it is.
#[derive(Clone, Copy)]
pub(crate) enum Kind {
    Line,
    LineWithBlock,
    LineWithLargeBlock,
    BadChunk,
    TooLarge,
    BlockNoMemory,
    LineTooLong,
}

/// What has come of a block that is kept and of its CR LF.
#[derive(Clone, Copy)]
pub(crate) enum Chunk {
    /// Bytes are still to come.
    Unfinished,
    /// The block, and CR LF behind it.
    Whole,
    /// The block, and two bytes behind it that are not CR LF.
    Bad,
}

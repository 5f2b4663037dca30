//! How a session ends, as its link is given back.

/// How a session ends.
#[derive(Clone, Copy, Debug, PartialEq, Eq)]
pub enum End {
    /// The link ended behind a unit, or before any byte.
    Ended,
    /// A line was `quit`.
    Quit,
    /// The link ended within a unit, of which so many bytes came.
    Cut(u64),
    /// A line has no end within 65,536 bytes. The session answered it.
    LineTooLong,
    /// 2^40 bytes were taken, which is all that a session takes.
    LongInput,
    /// A pull failed, which the link has counted.
    ReadFault,
    /// A push failed, which the link has counted.
    WriteFault,
    /// Memory was refused.
    NoMemory,
    /// There were too many sessions at once. Nothing was taken from the link or sent to it.
    Crowded,
}

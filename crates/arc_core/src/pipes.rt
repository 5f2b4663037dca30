//! What the commands of a pipe answer together.

use crate::Word;

/// The answer to one command of a pipe, as a line.
#[derive(Clone, Copy, Debug, PartialEq, Eq)]
pub enum PipeStatus {
    /// A line of fixed text.
    Word(Word),
    /// A number.
    Number(u64),
}

/// Why a pipe was not executed to its end.
#[derive(Clone, Copy, Debug, PartialEq, Eq)]
pub enum PipeFault {
    /// It was.
    Nothing,
    /// A command was answered with an error, or the pipe was broken off.
    BadError,
    /// There are more than 500 commands.
    Overflow,
}

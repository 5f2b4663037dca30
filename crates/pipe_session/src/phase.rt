//! How far a session is.

/// How far a session is.
#[derive(Clone, Copy, Debug, PartialEq, Eq)]
pub enum Phase {
    /// It handles units.
    Going,
    /// It has handled `quit`: it sends what it owes, and then it is over.
    Quit,
    /// It has answered a line that is too long: it sends what it owes, and then it is over.
    LineTooLong,
    /// The input has ended: it sends what it owes, and then it is over.
    Ended,
    /// It is over.
    Over,
}

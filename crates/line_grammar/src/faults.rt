//! What is wrong with lines.

/// Why a line spells no head.
#[derive(Clone, Copy, Debug, PartialEq, Eq)]
pub enum LineFault {
    /// There is no word, or the first word names no command.
    Unknown,
    /// The first word names a command, and the further words do not spell it.
    BadFormat,
}

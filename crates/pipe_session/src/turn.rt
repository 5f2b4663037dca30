//! What a turn of a session answers.

use arc_core::End;

/// What a turn of a session answers.
#[derive(Clone, Copy, Debug, PartialEq, Eq)]
pub enum Turn {
    /// The turn took at least one byte from the link, or handled one unit. The session goes on.
    More,
    /// The link has to be asked again, and counted that. The session goes on where it is.
    Again,
    /// The session is over, and ended so.
    Over(End),
}

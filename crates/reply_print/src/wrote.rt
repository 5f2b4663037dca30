//! What came of writing a text.

/// What came of writing a text.
#[derive(Clone, Copy, Debug, PartialEq, Eq)]
pub enum Wrote {
    /// All of it was sent.
    Done,
    /// The link failed, and counted it. The text was sent up to this offset.
    Failed(u64),
    /// The link was refused memory, and counted the refusal. The text was sent up to this offset.
    NoMemory(u64),
    /// The link has to be asked again, and counted that. The text was sent up to this offset.
    Again(u64),
}

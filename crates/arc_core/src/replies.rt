//! Replies: what the cache answers to a request.

use crate::{Key, Row, Seq, Tail, Value};

/// A reply, or an answer of the session, that is one line of fixed text.
#[derive(Clone, Copy, Debug, PartialEq, Eq)]
pub enum Word {
    /// The value was stored.
    Stored,
    /// The condition of the storing command does not hold.
    NotStored,
    /// The item has another cas unique.
    Exists,
    /// No item is held under the key.
    NotFound,
    /// The item was dropped.
    Deleted,
    /// The item has the new expiry.
    Touched,
    /// It was done.
    Ok,
    /// The server's version.
    Version,
    /// The value spells no number of 64 bits.
    NotNumeric,
    /// The block is larger than its limit, or a value would be larger than its limit.
    TooLarge,
    /// No eviction could make room.
    OutOfMemory,
    /// The system refused memory. Nothing has changed.
    NoMemory,
    /// The line's first words are no command.
    Unknown,
    /// The line begins with a command, and its further words do not spell it.
    BadFormat,
    /// CR LF does not stand behind the block, or the block is not the keys that its line names.
    BadChunk,
    /// The line has no end within 65,536 bytes.
    LineTooLong,
    /// The collection was made.
    Created,
    /// The collection was made, and the element stored in it.
    CreatedStored,
    /// The item under the key is of another kind.
    TypeMismatch,
    /// The collection is not readable.
    Unreadable,
    /// The collection is full, and none of its elements makes room.
    Overflowed,
    /// The index or the bkey is outside what the collection can hold.
    OutOfRange,
    /// The collection has no such element.
    NotFoundElement,
    /// The collection has this element.
    ElementExists,
    /// The value is in the set.
    Exist,
    /// The value is not in the set.
    NotExist,
    /// The element has the new value.
    Updated,
    /// The element had another value, and has the new one.
    Replaced,
    /// The elements are gone, and so is the collection, which they left empty.
    DeletedDropped,
}

/// An item that a `get` answers: its key, client flags, cas unique where it was asked for, and value.
#[derive(Drop)]
pub struct ValueRow {
    pub key: Key,
    pub flags: u32,
    pub unique: Option<u64>,
    pub value: Value,
}

/// A reply.
#[derive(Drop)]
pub enum Reply {
    /// One line.
    Word(Word),
    /// A number, as a line.
    Number(u64),
    /// The items that were found, in the request's order.
    Values(Seq<ValueRow>),
    /// Elements of a collection, with its client flags.
    Rows {
        flags: u32,
        rows: Seq<Row>,
        tail: Tail,
    },
}

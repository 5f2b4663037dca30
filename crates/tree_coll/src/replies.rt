//! What is answered to a request on a tree.

use arc_core::{Row, Seq, Tail};

/// A reply that is one line of fixed text.
#[derive(Clone, Copy, Debug, PartialEq, Eq)]
pub enum TreeWord {
    /// The element was stored.
    Stored,
    /// The bkey was there, and its element is replaced.
    Replaced,
    /// The element has the new flag or value.
    Updated,
    /// The elements are gone.
    Deleted,
    /// The elements are gone, and so is the tree, which they left empty.
    DeletedDropped,
    /// The bkey is there already.
    ElementExists,
    /// The tree has no such element.
    NotFoundElement,
    /// What is asked for lies in what was trimmed, or would lie beyond an end of a tree that is full.
    OutOfRange,
    /// The tree is full, and none of its elements makes room.
    Overflowed,
    /// The bkey is of another kind than those of the tree.
    BkeyMismatch,
    /// A bitwise change met an element without a flag, or with one that is too short for it.
    EflagMismatch,
    /// Neither another flag nor another value was given.
    NothingToUpdate,
    /// The value spells no number of 64 bits.
    NotNumeric,
}

/// A reply to a request on a tree.
#[derive(Drop)]
pub enum TreeReply {
    /// One line.
    Word(TreeWord),
    /// The number that an element's value spells now.
    Number(u64),
    /// How many elements there are.
    Count(u32),
    /// How many elements come before one.
    Position(u32),
    /// Elements, with the tree's client flags.
    Rows {
        flags: u32,
        rows: Seq<Row>,
        tail: Tail,
    },
    /// An element among its neighbours: how many elements come before it in the tree, the tree's client flags, its place
    /// among the rows, and the rows.
    Around {
        position: u32,
        flags: u32,
        index: u32,
        rows: Seq<Row>,
    },
}

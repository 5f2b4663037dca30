//! Elements that are answered, and how an answer of elements ends.

use crate::{Bkey, Eflag, Key, Seq, Value, Word};

/// How an answered element is named: not at all, by its field, or by its bkey.
#[derive(Drop)]
pub enum RowName {
    /// Of a list or a set.
    Plain,
    /// Of a map.
    Field(Key),
    /// Of a tree.
    At(Bkey),
}

/// An element that is answered.
#[derive(Drop)]
pub struct Row {
    pub name: RowName,
    /// Of a tree's element that has a flag.
    pub eflag: Option<Eflag>,
    pub value: Value,
}

/// How an answer of elements ends.
#[derive(Clone, Copy, Debug, PartialEq, Eq)]
pub enum Tail {
    /// Nothing is missing.
    End,
    /// The range reaches what was trimmed.
    Trimmed,
    /// The elements that were answered are gone.
    Deleted,
    /// They are gone, and so is the collection, which they left empty.
    DeletedDropped,
}

/// What one key of a read over many trees answers.
#[derive(Drop)]
pub enum KeyRead {
    /// Its elements, with the tree's client flags and whether the range reaches what was trimmed.
    Found {
        flags: u32,
        trimmed: bool,
        rows: Seq<Row>,
    },
    /// None, for this reason.
    Refused(Word),
}

/// A key of a read over many trees, with its answer.
#[derive(Drop)]
pub struct KeyRows {
    pub key: Key,
    pub read: KeyRead,
}

/// An element of a merged read, with the key of its tree and the tree's client flags.
#[derive(Drop)]
pub struct MergedRow {
    pub key: Key,
    pub flags: u32,
    pub row: Row,
}

/// A key that a merged read has passed over, and why.
#[derive(Drop)]
pub struct MissedKey {
    pub key: Key,
    pub cause: Word,
}

/// A key of a merged read whose range reaches what was trimmed, and the bkey up to which its tree has elements.
#[derive(Drop)]
pub struct TrimmedKey {
    pub key: Key,
    pub bkey: Bkey,
}

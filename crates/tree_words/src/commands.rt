//! Commands on trees: what a line asks for, before its block is there.

use arc_core::{
    Answer, Bkey, BkeyRange, CreateArgs, Eflag, EflagChange, Filter, KeyRef, Take, TreeRead,
};

/// What a line asks of a tree: a request, less the block. It borrows the line.
///
/// `len` is the length of the block, in bytes. `create` has the attributes of the tree that is made where no item is held.
/// `getrim` says that the elements are answered which the insert trims. `drop_empty` says that a tree which a removal leaves
/// empty goes too.
#[derive(Drop)]
pub enum TreeCommand<'a> {
    /// Puts the block into a tree, under a new bkey (`bop insert`).
    TreeInsert {
        key: KeyRef<'a>,
        bkey: Bkey,
        eflag: Option<Eflag>,
        len: u32,
        create: Option<CreateArgs>,
        getrim: bool,
    },
    /// Gives the element of a bkey a new flag and the block as its value, or puts it under a new bkey (`bop upsert`).
    TreeUpsert {
        key: KeyRef<'a>,
        bkey: Bkey,
        eflag: Option<Eflag>,
        len: u32,
        create: Option<CreateArgs>,
        getrim: bool,
    },
    /// Changes the flag of the element of a bkey, and gives it the block as its value; without a length it has no block, and
    /// the value stays (`bop update`).
    TreeUpdate {
        key: KeyRef<'a>,
        bkey: Bkey,
        change: EflagChange,
        len: Option<u32>,
    },
    /// Removes elements; the read has offset 0 (`bop delete`).
    TreeDelete {
        key: KeyRef<'a>,
        read: TreeRead<'a>,
        drop_empty: bool,
    },
    /// Reads elements (`bop get`).
    TreeGet {
        key: KeyRef<'a>,
        read: TreeRead<'a>,
        take: Take,
    },
    /// Counts elements (`bop count`).
    TreeCount {
        key: KeyRef<'a>,
        range: BkeyRange,
        filter: Option<Filter<'a>>,
    },
    /// Counts the value of an element up or down; where there is none, one is made with `initial` and this flag, if the line
    /// has an initial number (`bop incr`, `bop decr`).
    TreeArith {
        up: bool,
        key: KeyRef<'a>,
        bkey: Bkey,
        delta: u64,
        initial: Option<u64>,
        eflag: Option<Eflag>,
    },
}

/// What a line spells: a command on a tree, and how its answer is sent. It borrows the line.
#[derive(Drop)]
pub struct TreeHead<'a> {
    pub command: TreeCommand<'a>,
    pub answer: Answer,
}

//! Requests: what a client asks of the cache, borrowed from its line and block.

ghost use Rattle.std.specs.Prelude.{◌≡◌};
ghost use Rattle.arc_core.specs.Grammar.{is_silent, is_pipe};

use crate::{CreateArgs, IndexRange, KeyRef, KeyWords, Kind, Take};

/// How the answer to a request is sent.
#[derive(Clone, Copy, Debug, PartialEq, Eq)]
pub enum Answer {
    /// As the reply's text.
    Plain,
    /// Not at all. (memcached's `noreply`.)
    NoReply,
    /// As a line among those of its run of piped commands. (ARCUS's `pipe`.)
    Pipe,
}

impl Answer {
    /// Whether no answer is sent.
    pub fn is_silent(self) -> bool
        ensures { result ≡ is_silent self }
    {
        match self {
            Answer::NoReply => true,
            Answer::Plain | Answer::Pipe => false,
        }
    }

    /// Whether the answer is one of a run of piped commands.
    pub fn is_pipe(self) -> bool
        ensures { result ≡ is_pipe self }
    {
        match self {
            Answer::Pipe => true,
            Answer::Plain | Answer::NoReply => false,
        }
    }
}

/// How a value is stored under its key.
#[derive(Clone, Copy, Debug, PartialEq, Eq)]
pub enum StoreVerb {
    /// Whether or not the key holds an item.
    Set,
    /// Where the key holds none.
    Add,
    /// Where the key holds one.
    Replace,
    /// Behind the value of the item that the key holds, whose client flags and expiry stay.
    Append,
    /// In front of the value of the item that the key holds, whose client flags and expiry stay.
    Prepend,
    /// Where the key holds an item with this cas unique.
    Cas(u64),
}

/// What a request does.
///
/// Elements have 32,768 bytes at most, and fields of maps 250. `create` has the attributes of the collection that is made
/// where no item is held. `drop_empty` says that a collection which a removal leaves empty goes too.
#[derive(Drop)]
pub enum Act<'a> {
    /// Stores a value with client flags. `exptime` is the protocol's, from -2^31 to 2^32 - 1: 0 is never, -1 is sticky,
    /// any other below 0 is at once; up to 2,592,000 counts seconds from now, and above that is itself the second.
    Store {
        verb: StoreVerb,
        key: KeyRef<'a>,
        flags: u32,
        exptime: i64,
        value: &'a [u8],
    },
    /// Reads the values of keys, with their cas uniques where `unique` says so.
    Get {
        keys: KeyWords<'a>,
        unique: bool,
    },
    /// Adds to the number that a value spells in decimal digits, or takes from it where `up` is false (`incr`, `decr`). Where the key holds
    /// no item, `initial` makes one: its client flags, exptime and number.
    Count {
        up: bool,
        key: KeyRef<'a>,
        delta: u64,
        initial: Option<(u32, i64, u64)>,
    },
    /// Drops the item.
    Delete {
        key: KeyRef<'a>,
    },
    /// Gives the item another expiry.
    Touch {
        key: KeyRef<'a>,
        exptime: i64,
    },
    /// Drops all items.
    FlushAll,
    /// Asks for the server's version.
    Version,
    /// Makes an empty collection (`lop create`, `sop create`, `mop create`).
    Create {
        kind: Kind,
        key: KeyRef<'a>,
        args: CreateArgs,
    },
    /// Puts a value into a list, at an index.
    ListInsert {
        key: KeyRef<'a>,
        index: i32,
        value: &'a [u8],
        create: Option<CreateArgs>,
    },
    /// Removes a range of a list.
    ListDelete {
        key: KeyRef<'a>,
        range: IndexRange,
        drop_empty: bool,
    },
    /// Reads a range of a list.
    ListGet {
        key: KeyRef<'a>,
        range: IndexRange,
        take: Take,
    },
    /// Puts a value into a set.
    SetInsert {
        key: KeyRef<'a>,
        value: &'a [u8],
        create: Option<CreateArgs>,
    },
    /// Removes a value from a set.
    SetDelete {
        key: KeyRef<'a>,
        value: &'a [u8],
        drop_empty: bool,
    },
    /// Asks whether a value is in a set.
    SetExist {
        key: KeyRef<'a>,
        value: &'a [u8],
    },
    /// Reads so many of the first values of a set, all for 0.
    SetGet {
        key: KeyRef<'a>,
        count: u32,
        take: Take,
    },
    /// Puts a value into a map, under a new field.
    MapInsert {
        key: KeyRef<'a>,
        field: KeyRef<'a>,
        value: &'a [u8],
        create: Option<CreateArgs>,
    },
    /// Gives a field of a map another value.
    MapUpdate {
        key: KeyRef<'a>,
        field: KeyRef<'a>,
        value: &'a [u8],
    },
    /// Gives a field of a map another value, or puts it under a new field.
    MapUpsert {
        key: KeyRef<'a>,
        field: KeyRef<'a>,
        value: &'a [u8],
        create: Option<CreateArgs>,
    },
    /// Removes the pairs of these fields of a map; all where none is named.
    MapDelete {
        key: KeyRef<'a>,
        fields: KeyWords<'a>,
        drop_empty: bool,
    },
    /// Reads the pairs of these fields of a map; all where none is named.
    MapGet {
        key: KeyRef<'a>,
        fields: KeyWords<'a>,
        take: Take,
    },
}

/// A request. It borrows the line and the block that spell it.
#[derive(Drop)]
pub struct Request<'a> {
    pub act: Act<'a>,
    pub answer: Answer,
}

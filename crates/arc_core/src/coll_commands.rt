//! Commands on collections: what a line asks for, before its block is there.

ghost use Rattle.std.specs.Prelude.{◌≡◌};
ghost use Rattle.arc_core.specs.CollectionLines.{coll_command_needs, coll_need_of, coll_is_quit, coll_is_marked, coll_answer, fields_need};
ghost use Rattle.arc_core.specs.Grammar.{is_silent};

use crate::{
    Answer, CreateArgs, Head, IndexRange, KeyRef, Kind, MAX_ELEMENT_BYTES, MAX_VALUE_BYTES, Need,
    Take,
};

/// The commands on collections, each by the two words with which its line begins: `lop`, `sop` or `mop`, and its name.
#[derive(Clone, Copy, Debug, PartialEq, Eq)]
pub enum CollName {
    ListCreate,
    ListInsert,
    ListDelete,
    ListGet,
    SetCreate,
    SetInsert,
    SetDelete,
    SetExist,
    SetGet,
    MapCreate,
    MapInsert,
    MapUpdate,
    MapUpsert,
    MapDelete,
    MapGet,
}

/// What a line asks of a collection: a request, less the block. It borrows the line.
///
/// `len` is the length of the block, in bytes. `create` has the attributes of the collection that is made where no item is
/// held. `drop_empty` says that a collection which a removal leaves empty goes too.
#[derive(Drop)]
pub enum CollCommand<'a> {
    /// Makes an empty collection (`lop create`, `sop create`, `mop create`).
    Create {
        kind: Kind,
        key: KeyRef<'a>,
        args: CreateArgs,
    },
    /// Puts the block into a list, at an index.
    ListInsert {
        key: KeyRef<'a>,
        index: i32,
        len: u32,
        create: Option<CreateArgs>,
    },
    /// Removes a range of a list.
    ListDelete {
        key: KeyRef<'a>,
        range: IndexRange,
        drop_empty: bool,
    },
    /// Reads a range of a list.
    ListGet {
        key: KeyRef<'a>,
        range: IndexRange,
        take: Take,
    },
    /// Puts the block into a set.
    SetInsert {
        key: KeyRef<'a>,
        len: u32,
        create: Option<CreateArgs>,
    },
    /// Removes the block from a set.
    SetDelete {
        key: KeyRef<'a>,
        len: u32,
        drop_empty: bool,
    },
    /// Asks whether the block is in a set.
    SetExist {
        key: KeyRef<'a>,
        len: u32,
    },
    /// Reads the first values of a set, all for 0.
    SetGet {
        key: KeyRef<'a>,
        count: u32,
        take: Take,
    },
    /// Puts the block into a map, under a new field.
    MapInsert {
        key: KeyRef<'a>,
        field: KeyRef<'a>,
        len: u32,
        create: Option<CreateArgs>,
    },
    /// Gives a field of a map the block as its value.
    MapUpdate {
        key: KeyRef<'a>,
        field: KeyRef<'a>,
        len: u32,
    },
    /// Gives a field of a map the block as its value, or puts it under a new field.
    MapUpsert {
        key: KeyRef<'a>,
        field: KeyRef<'a>,
        len: u32,
        create: Option<CreateArgs>,
    },
    /// Removes the pairs of so many fields, which stand in the block; all pairs for `0 0`, which has no block.
    MapDelete {
        key: KeyRef<'a>,
        len: u32,
        number: u32,
        drop_empty: bool,
    },
    /// Reads the pairs of so many fields, which stand in the block; all pairs for `0 0`, which has no block.
    MapGet {
        key: KeyRef<'a>,
        len: u32,
        number: u32,
        take: Take,
    },
}

/// What a line spells: a key-value command, or one on a collection, and how its answer is sent. It borrows the line.
#[derive(Drop)]
pub enum CollHead<'a> {
    KeyValue(Head<'a>),
    Collection {
        command: CollCommand<'a>,
        answer: Answer,
    },
}

impl<'a> CollCommand<'a> {
    /// Which block follows the line: an element of 32,768 bytes at most, or the fields that it names, of 1,048,576 at most.
    pub fn need(&self) -> Need
        ensures { result ≡ coll_command_needs self.now }
    {
        match self {
            CollCommand::ListInsert { len, .. }
            | CollCommand::SetInsert { len, .. }
            | CollCommand::SetDelete { len, .. }
            | CollCommand::SetExist { len, .. }
            | CollCommand::MapInsert { len, .. }
            | CollCommand::MapUpdate { len, .. }
            | CollCommand::MapUpsert { len, .. } => Need::Block {
                len: *len,
                limit: MAX_ELEMENT_BYTES,
            },
            CollCommand::MapDelete { len, number, .. } | CollCommand::MapGet { len, number, .. } =>
                fields_need(*len, *number),
            CollCommand::Create { .. }
            | CollCommand::ListDelete { .. }
            | CollCommand::ListGet { .. }
            | CollCommand::SetGet { .. } => Need::Nothing,
        }
    }
}

// The block of so many fields: none where all are meant.
fn fields_need(len: u32, number: u32) -> Need
    ensures { result ≡ fields_need len number }
{
    if number == 0 {
        Need::Nothing
    } else {
        Need::Block {
            len,
            limit: MAX_VALUE_BYTES,
        }
    }
}

impl<'a> CollHead<'a> {
    /// Which block follows the line.
    pub fn need(&self) -> Need
        ensures { result ≡ coll_need_of self.now }
    {
        match self {
            CollHead::KeyValue(head) => head.need(),
            CollHead::Collection { command, .. } => command.need(),
        }
    }

    /// Whether the command ends the session without a reply.
    pub fn is_quit(&self) -> bool
        ensures { result ≡ coll_is_quit self.now }
    {
        match self {
            CollHead::KeyValue(head) => head.is_quit(),
            CollHead::Collection { .. } => false,
        }
    }

    /// Whether the line asks that no reply be sent, whatever happens.
    pub fn is_silent(&self) -> bool
        ensures { result ≡ is_silent (coll_answer self.now) }
    {
        match self {
            CollHead::KeyValue(head) => head.is_silent(),
            CollHead::Collection { answer, .. } => answer.is_silent(),
        }
    }

    /// Whether it is a piped command: the line ends with `pipe`.
    pub fn is_marked(&self) -> bool
        ensures { result ≡ coll_is_marked self.now }
    {
        match self {
            CollHead::KeyValue(head) => head.answer.is_pipe(),
            CollHead::Collection { answer, .. } => answer.is_pipe(),
        }
    }
}

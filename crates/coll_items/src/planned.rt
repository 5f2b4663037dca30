//! What a request wants done with a collection.
ghost use Rattle.std.specs.Prelude.{◌≡◌, [], ◌∷◌, ◌++◌, None, OnOk};
ghost use Rattle.arc_core.specs.declared.replies.Reply.TheVariants as reply;
ghost use Rattle.coll_items.specs.Planning.{IsTaken, reply_of};

use crate::{Insertion, Removal};
use arc_core::{NoMemory, Reply, Row, RowName, Seq, Tail, Take, Value, Word};

/// What a request wants done with the collection under its key.
#[derive(Drop)]
pub enum Planned<'a> {
    /// To answer, and leave it as it is.
    Stays(Reply),
    /// To put an element into it, or to give one another value, and answer.
    Puts(Insertion, Reply),
    /// To take elements out of it. Where it is empty then, and `drop_empty` says so, it goes too.
    Removes {
        removal: Removal<'a>,
        drop_empty: bool,
        removed: Removed,
    },
    /// Memory was refused.
    NoMemory,
}

/// What is answered to a removal.
#[derive(Drop)]
pub enum Removed {
    /// That the elements are gone.
    Told,
    /// The elements, with the collection's client flags.
    Read { flags: u32, rows: Seq<Row> },
}

impl Removed {
    /// The answer to the removal, with which the collection has gone or not.
    pub fn reply(self, dropped: bool) -> Reply
        ensures { result ≡ reply_of self dropped }
    {
        match self {
            Removed::Told if dropped => Reply::Word(Word::DeletedDropped),
            Removed::Told => Reply::Word(Word::Deleted),
            Removed::Read { flags, rows } => {
                let tail = if dropped {
                    Tail::DeletedDropped
                } else {
                    Tail::Deleted
                };
                Reply::Rows { flags, rows, tail }
            }
        }
    }
}

/// A word is answered, and the collection stays.
pub(crate) fn answered<'a>(word: Word) -> Planned<'a>
    ensures { result ≡ Planned.Stays (reply.Word word) }
{
    Planned::Stays(Reply::Word(word))
}

/// A read that answers these elements, which are taken out by the removal where `take` says so.
#[inline(always)]
pub(crate) fn taken<'a>(flags: u32, rows: Seq<Row>, take: Take, removal: Removal<'a>) -> Planned<'a>
    ensures { IsTaken flags rows take removal.entry result }
{
    let drop_empty = match take {
        Take::Keep => {
            return Planned::Stays(Reply::Rows {
                flags,
                rows,
                tail: Tail::End,
            });
        }
        Take::Delete => false,
        Take::Drop => true,
    };
    Planned::Removes {
        removal,
        drop_empty,
        removed: Removed::Read { flags, rows },
    }
}

/// Puts an element last into an answer, by its name and its value.
pub(crate) fn put_row(rows: &mut Seq<Row>, name: RowName, value: Value) -> Result<(), NoMemory>
    ensures { OnOk result (rows.new ≡ rows.old ++ (record { name = name; eflag = None; value = value }) ∷ []) }
{
    let row = Row {
        name,
        eflag: None,
        value,
    };
    match rows.push(row) {
        Ok(()) => Ok(()),
        Err(_) => Err(NoMemory),
    }
}

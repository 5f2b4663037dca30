//! Commands: what a line asks for, before its block is there.
ghost use Rattle.std.specs.Prelude.{◌≡◌, false, option_map};
ghost use Rattle.std.specs.Result.{result_ok};
ghost use Rattle.arc_core.specs.Grammar.{need_of, request_of, is_silent, is_quit};
ghost use Rattle.arc_core.specs.PlainRequest.{plain};

use crate::{Act, Answer, KeyRef, KeyWords, MAX_VALUE_BYTES, Need, Request, StoreVerb};

/// The commands that there are, each by the name with which its line begins.
#[derive(Clone, Copy, Debug, PartialEq, Eq)]
pub enum CommandName {
    Set,
    Add,
    Replace,
    Append,
    Prepend,
    Cas,
    Get,
    Gets,
    /// `mget`, whose keys stand in a block.
    Mget,
    Incr,
    Decr,
    Delete,
    Touch,
    FlushAll,
    Version,
    Quit,
}

/// What a line asks for: a request, less the block. It borrows the line.
///
/// Contracts see keys as lists of bytes and of words, so that definitions speak of this type itself.
#[derive(Drop)]
pub enum Command<'a> {
    /// Stores the block, of `len` bytes, with client flags. `exptime` is the protocol's: 0 is never.
    Store {
        verb: StoreVerb,
        key: KeyRef<'a>,
        flags: u32,
        exptime: i64,
        len: u32,
    },
    /// Reads the values of keys, with their cas uniques where `unique` says so.
    Get {
        keys: KeyWords<'a>,
        unique: bool,
    },
    /// Reads the values of keys that stand in the block, of `len` bytes, and are so many.
    GetBlock {
        len: u32,
        number: u32,
    },
    /// Adds to the number that a value spells, or takes from it where `up` is false (`incr`, `decr`). `initial` has the client flags, the
    /// exptime and the number of the item that is made where none is held.
    Count {
        up: bool,
        key: KeyRef<'a>,
        delta: u64,
        initial: Option<(u32, i64, u64)>,
    },
    /// Drops the item.
    Delete {
        key: KeyRef<'a>,
    },
    /// Gives the item another expiry.
    Touch {
        key: KeyRef<'a>,
        exptime: i64,
    },
    /// Drops all items.
    FlushAll,
    /// Asks for the server's version.
    Version,
    /// Ends the session.
    Quit,
}

/// What a line spells: a command, and how its answer is sent. It borrows the line.
#[derive(Drop)]
pub struct Head<'a> {
    pub command: Command<'a>,
    pub answer: Answer,
}

/// The block's words are not so many keys as its line names.
#[derive(Clone, Copy, Debug, PartialEq, Eq)]
pub struct BlockFault;

impl<'a> Head<'a> {
    /// Which block follows the line: that of a storing command, or of one whose keys stand in a block, has the bytes that
    /// it names, 1,048,576 at most.
    pub fn need(&self) -> Need
        ensures { result ≡ need_of self.now.command }
    {
        match self.command {
            Command::Store { len, .. } | Command::GetBlock { len, .. } => Need::Block {
                len,
                limit: MAX_VALUE_BYTES,
            },
            _ => Need::Nothing,
        }
    }

    /// Whether the command ends the session without a reply.
    pub fn is_quit(&self) -> bool
        ensures { result ≡ is_quit self.now.command }
    {
        match self.command {
            Command::Quit => true,
            _ => false,
        }
    }

    /// Whether the line asks that no reply be sent, whatever happens.
    pub fn is_silent(&self) -> bool
        ensures { result ≡ is_silent self.now.answer }
    {
        self.answer.is_silent()
    }

    /// The request of this head, which may not be `quit`, and the block that follows its line. It borrows both.
    ///
    /// The fault comes exactly where the command asks for a block of keys, and the block's words are not so many keys.
    /// (That the block has the length that the head names is its reader's part.)
    pub fn with_block(self, block: &'a [u8]) -> Result<Request<'a>, BlockFault>
        requires { is_quit self.command ≡ false }
        ensures { option_map plain (result_ok result) ≡ request_of self.entry block.now }
    {
        let Head { command, answer } = self;
        let act = match command {
            Command::Store {
                verb,
                key,
                flags,
                exptime,
                len: _,
            } => Act::Store {
                verb,
                key,
                flags,
                exptime,
                value: block,
            },
            Command::Get { keys, unique } => Act::Get { keys, unique },
            Command::GetBlock { len: _, number } => Act::Get {
                keys: KeyWords::read(block, number).ok_or(BlockFault)?,
                unique: false,
            },
            Command::Count {
                up,
                key,
                delta,
                initial,
            } => Act::Count {
                up,
                key,
                delta,
                initial,
            },
            Command::Delete { key } => Act::Delete { key },
            Command::Touch { key, exptime } => Act::Touch { key, exptime },
            Command::FlushAll => Act::FlushAll,
            Command::Version => Act::Version,
            Command::Quit => unreachable!(),
        };
        Ok(Request { act, answer })
    }
}

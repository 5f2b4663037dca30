//! The ground of the server: keys, values, requests, replies, the traits of the outside, and the definitions of
//! the machine in `specs/`.
//!
//! | To find | Look in |
//! |---|---|
//! | bytes that items are made of | `keys`, `values`, `short_bytes`, `bkeys`, `seqs`; `limits` for those of a cache as a whole |
//! | words of a line, and the numbers among them | `word_lists`, `numbers` |
//! | what a client asks | `commands` and `coll_commands` (a line), `requests` (with its block), `collections`, `filters`, `trees`, `attributes`, `lists` |
//! | what it is answered | `replies`, `rows`, `items`, `faults`, `ends` |
//! | what is outside, and objects in memory that play it | `outside`, `memory`, `links`, `clocks` |
//! | who executes requests | `machine` |
//! | which limits requests keep | `laws` |
#![tactic(auto)]

mod attributes;
mod bkeys;
mod clocks;
mod coll_commands;
mod collections;
mod commands;
mod ends;
mod faults;
mod filters;
mod items;
mod keys;
mod laws;
mod limits;
mod links;
mod lists;
mod machine;
mod memory;
mod numbers;
mod outside;
mod pipes;
mod replies;
mod requests;
mod rows;
mod seqs;
mod short_bytes;
mod trees;
mod values;
mod word_lists;

pub use attributes::{
    AttrList, AttrName, AttrNumber, AttrValue, AttrView, Attrs, CreateArgs, MAX_ATTRIBUTES,
};
pub use bkeys::{Bkey, BkeyRange};
pub use clocks::ListClock;
pub use coll_commands::{CollCommand, CollHead, CollName};
pub use collections::{Action, IndexRange, Kind, Side, Take};
pub use commands::{BlockFault, Command, CommandName, Head};
pub use ends::End;
pub use faults::{Failed, NoMemory};
pub use filters::{BitOp, CompOp, Eflag, EflagChange, Filter, FlagIter, FlagWords};
pub use items::Expiry;
pub use keys::{Key, KeyFault, KeyRef, MAX_FIELD_BYTES, MAX_KEY_BYTES};
pub use laws::spelled_requests_keep_limits;
pub use limits::{MAX_LIMIT_MIB, MIB};
pub use links::{LinkCalls, MemoryLink, SteadyLink};
pub use lists::{ListPlan, Part};
pub use machine::Executor;
pub use memory::{MemorySink, MemorySource, SteadySink, SteadySource};
pub use numbers::{MAX_DIGITS, read_number};
pub use outside::{Clock, Heads, Link, Need, Pull, Push, Sink, Source};
pub use pipes::{PipeFault, PipeStatus};
pub use replies::{Reply, ValueRow, Word};
pub use requests::{Act, Answer, Request, StoreVerb};
pub use rows::{KeyRead, KeyRows, MergedRow, MissedKey, Row, RowName, Tail, TrimmedKey};
pub use seqs::Seq;
pub use short_bytes::{MAX_SHORT_BYTES, ShortBytes, hex_digits};
pub use trees::{Edges, Elem, TreeRead};
pub use values::{MAX_ELEMENT_BYTES, MAX_VALUE_BYTES, Value};
pub use word_lists::{KeyIter, KeyWords, WordIter, Words, first_word};

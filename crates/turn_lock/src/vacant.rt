//! An executor for tests: a machine that holds nothing, since memory is always refused to it. It counts its calls.
ghost use Rattle.std.specs.Prelude.{◌≡◌, max};
ghost use Rattle.turn_lock.specs.Trials.{vacant_state};

use arc_core::{Act, Executor, Reply, Request, Word};
use std::alloc::Global;
use std::sync::Arc;
use std::sync::atomic::AtomicU64;
use std::sync::atomic::Ordering::SeqCst;

/// Each call's number, from 1 on, is put into the cell of the second that the request came with.
#[derive(Drop)]
pub struct Vacant {
    pub latest: u32,
    pub calls: u64,
    pub cells: Arc<Vec<AtomicU64>, Global>,
}

impl Vacant {
    fn count(&mut self, now: u32)
        ensures { self.new.latest ≡ self.old.latest }
    {
        self.calls = self.calls.wrapping_add(1);
        if let Some(cell) = self.cells.get(now as usize) {
            cell.store(self.calls, SeqCst);
        }
    }

    fn answer(&mut self, now: u32, word: Word) -> Reply
        ensures latest { self.new.latest ≡ max self.old.latest now }
        ensures word { result ≡ Reply.Word word }
    {
        self.latest = self.latest.max(now);
        Reply::Word(word)
    }
}

impl Executor for Vacant {
    ghost state = { λ v. vacant_state v.latest };

    fn execute(&mut self, now: u32, request: &Request<'_>) -> Reply {
        self.count(now);
        match request.act {
            Act::Store { .. } => Reply::Word(Word::NoMemory),
            Act::Get { .. } => Reply::Word(Word::NoMemory),
            Act::Count { .. } => Reply::Word(Word::NoMemory),
            Act::Delete { .. } => self.answer(now, Word::NotFound),
            Act::Touch { .. } => self.answer(now, Word::NotFound),
            Act::FlushAll => self.answer(now, Word::Ok),
            Act::Version => self.answer(now, Word::Version),
            Act::Create { .. } => Reply::Word(Word::NoMemory),
            Act::ListInsert { .. } => Reply::Word(Word::NoMemory),
            Act::ListDelete { .. } => self.answer(now, Word::NotFound),
            Act::ListGet { .. } => Reply::Word(Word::NoMemory),
            Act::SetInsert { .. } => Reply::Word(Word::NoMemory),
            Act::SetDelete { .. } => self.answer(now, Word::NotFound),
            Act::SetExist { .. } => self.answer(now, Word::NotFound),
            Act::SetGet { .. } => Reply::Word(Word::NoMemory),
            Act::MapInsert { .. } => Reply::Word(Word::NoMemory),
            Act::MapUpdate { .. } => Reply::Word(Word::NoMemory),
            Act::MapUpsert { .. } => Reply::Word(Word::NoMemory),
            Act::MapDelete { .. } => self.answer(now, Word::NotFound),
            Act::MapGet { .. } => Reply::Word(Word::NoMemory),
        }
    }

    fn keeps_the_rules(&self) {
        let _latest = self.latest;
    }
}

//! What a session owes to its link.
ghost use Rattle.std.specs.Prelude.{◌≡◌, ◌<◌, ◌≤◌, ◌^◌, ◌++◌, [], true, false, None, Some, length, if◌then◌else◌, IfOk, OnOk};
ghost use Rattle.arc_core.specs.Outside.{incoming, outgoing};
ghost use Rattle.arc_core.specs.ReplyText.{reply_text, word_line};
ghost use Rattle.pipe_session.specs.Owing.{HasRoom, Sends, IsRestOf, rest_of};
ghost use Rattle.pipe_session.specs.Runs.{no_run, takes_one, with_status, passed_over, answer_of, broken_answer_of};

use crate::run::Run;
use arc_core::{Link, NoMemory, PipeStatus, Push, Reply, Word};
use reply_print::{Outbox, WAITING_BYTES, Wrote, write_reply};
use std::alloc::Global;
use std::marker::Model;

/// Why not all was sent that was to be sent.
#[derive(Clone, Copy, Debug, PartialEq, Eq)]
pub enum Unsent {
    /// The link has to be asked again, and counted that.
    Again,
    /// The link failed, and counted it.
    Failed,
    /// The link was refused memory, and counted the refusal.
    NoMemory,
}

/// What a session owes to its link. Short texts wait together, so that those of many units go out in one push. A reply
/// that has no room among them is owed behind them, and then no further text has room. The statuses of a run of piped
/// commands are kept until it ends, and its answer always has room among the texts that wait.
#[derive(Drop)]
pub struct Owed {
    waiting: Outbox,
    run: Run,
    long: Option<Reply>,
    // Up to where the text of that reply was sent.
    at: u64,
}

impl Model for Owed {
    ghost use Rattle.pipe_session.specs.Owing.{Owing, rest_of, IsRestOf};
    ghost use Rattle.std.specs.Prelude.{◌++◌, ◌||◌, is_some, nat_lt, length};

    ghost Value = { Owing };

    ghost view = { λ owed. record {
      text = owed.waiting ++ rest_of owed.long owed.at;
      is_full = is_some owed.long || nat_lt 16384 (length owed.waiting);
      has_long = is_some owed.long;
      run = owed.run;
    } };

    ghost invariant = { λ owed. IsRestOf owed.long owed.at };
}

impl Owed {
    /// Nothing is owed, and no run is open. It takes memory for the texts that wait and for a run's statuses, and none
    /// later. `NoMemory` comes for want of memory alone.
    pub fn new(alloc: Global) -> Result<Owed, NoMemory>
        ensures nothing { IfOk result (λ owed. owed.text ≡ []) }
        ensures room { IfOk result (λ owed. owed.is_full ≡ false) }
        ensures run { IfOk result (λ owed. owed.run ≡ no_run) }
    {
        let waiting = Outbox::new(alloc)?;
        let run = Run::new(alloc)?;
        Ok(Owed {
            waiting,
            run,
            long: None,
            at: 0,
        })
    }

    /// Whether something has to be sent before the next unit is handled.
    pub fn is_full(&self) -> bool
        ensures { result ≡ self.now.is_full }
    {
        self.long.is_some() || self.waiting.bytes().len() > WAITING_BYTES
    }

    /// Whether a run of piped commands is open.
    pub fn is_in_run(&self) -> bool
        ensures { result ≡ self.now.run.is_open }
    {
        self.run.is_open()
    }

    /// Whether the next unit of the run is to be executed: its status comes next. Else it is passed over.
    pub fn takes_one(&mut self) -> bool
        ensures takes { result ≡ takes_one self.old.run }
        ensures run { self.new.run ≡ (if result then self.old.run else passed_over self.old.run) }
        ensures text { self.new.text ≡ self.old.text }
        ensures room { self.new.is_full ≡ self.old.is_full }
    {
        self.run.takes_one()
    }

    /// Keeps the status of a unit of the run, which opens one where none is open.
    pub fn put_status(&mut self, status: PipeStatus)
        requires { takes_one self.old.run ≡ true }
        ensures run { self.new.run ≡ with_status self.old.run status }
        ensures text { self.new.text ≡ self.old.text }
        ensures room { self.new.is_full ≡ self.old.is_full }
    {
        self.run.put(status);
    }

    /// Owes the answer to the run, which its last unit has ended.
    pub fn end_run(&mut self)
        requires room { self.old.is_full ≡ false }
        ensures text { self.new.text ≡ self.old.text ++ answer_of self.old.run }
        ensures run { self.new.run ≡ no_run }
    {
        let fault = self.run.fault();
        self.waiting.put_pipe(self.run.statuses(), fault);
        self.run.clear();
    }

    /// Owes the answer to the run that is open, where one is: it is broken off.
    pub fn break_run(&mut self)
        requires room { self.old.is_full ≡ false }
        ensures text { self.new.text ≡ self.old.text ++ (if self.old.run.is_open then broken_answer_of self.old.run else []) }
        ensures run { self.new.run ≡ (if self.old.run.is_open then no_run else self.old.run) }
        ensures room { self.new.has_long ≡ false }
    {
        if self.run.is_open() {
            let fault = self.run.broken_off();
            self.waiting.put_pipe(self.run.statuses(), fault);
            self.run.clear();
        }
    }

    /// Owes the text of a reply behind all else, where it has room among the texts that wait, and tells whether it has.
    /// Else nothing has changed.
    pub fn put_waiting(&mut self, reply: &Reply) -> bool
        requires { HasRoom self.old }
        ensures text { result ≡ true → self.new.text ≡ self.old.text ++ reply_text reply.now }
        ensures same { result ≡ false → self.new ≡ self.old }
        ensures run { self.new.run ≡ self.old.run }
    {
        self.waiting.put(reply)
    }

    /// Owes the text of a reply behind all else, and then no further text has room.
    pub fn put_long(&mut self, reply: Reply)
        requires room { HasRoom self.old }
        requires fits { length (reply_text reply) < 2 ^ 64 }
        ensures text { self.new.text ≡ self.old.text ++ reply_text reply }
        ensures run { self.new.run ≡ self.old.run }
    {
        self.long = Some(reply);
        self.at = 0;
    }

    /// Owes the line of a word behind all else.
    pub fn put_word(&mut self, word: Word)
        requires room { HasRoom self.old }
        ensures text { self.new.text ≡ self.old.text ++ word_line word }
        ensures run { self.new.run ≡ self.old.run }
    {
        let reply = Reply::Word(word);
        if !self.put_waiting(&reply) {
            self.put_long(reply);
        }
    }

    /// Sends so much of what is owed that a further text has room.
    pub fn make_room<L: Link>(&mut self, link: &mut L) -> Result<(), Unsent>
        ensures sends { Sends (outgoing (L.sent link.old) (L.write_faults link.old) (L.refusals link.old))
            (outgoing (L.sent link.new) (L.write_faults link.new) (L.refusals link.new)) (L.agains link.old) (L.agains link.new)
            self.old.text self.new.text result }
        ensures room { OnOk result (self.new.is_full ≡ false) }
        ensures run { self.new.run ≡ self.old.run }
        ensures incoming { incoming (L.left link.new) (L.read_faults link.new) ≡ incoming (L.left link.old) (L.read_faults link.old) }
    {
        send_waiting(&mut self.waiting, link)?;
        if waits(&mut self.waiting, &self.long, self.at) {
            self.long = None;
            return Ok(());
        }
        send_long(&mut self.long, &mut self.at, link)
    }

    /// Sends all that is owed.
    pub fn send<L: Link>(&mut self, link: &mut L) -> Result<(), Unsent>
        ensures sends { Sends (outgoing (L.sent link.old) (L.write_faults link.old) (L.refusals link.old))
            (outgoing (L.sent link.new) (L.write_faults link.new) (L.refusals link.new)) (L.agains link.old) (L.agains link.new)
            self.old.text self.new.text result }
        ensures nothing { OnOk result (self.new.text ≡ []) }
        ensures room { OnOk result (self.new.is_full ≡ false) }
        ensures run { self.new.run ≡ self.old.run }
        ensures incoming { incoming (L.left link.new) (L.read_faults link.new) ≡ incoming (L.left link.old) (L.read_faults link.old) }
    {
        send_waiting(&mut self.waiting, link)?;
        send_long(&mut self.long, &mut self.at, link)
    }

    /// Owes nothing, whatever was owed, and no run is open.
    pub fn clear(&mut self)
        ensures nothing { self.new.text ≡ [] }
        ensures room { self.new.is_full ≡ false }
        ensures run { self.new.run ≡ no_run }
    {
        let count = self.waiting.bytes().len();
        self.waiting.took(count);
        self.long = None;
        self.at = 0;
        self.run.clear();
    }
}

// Puts the reply's text among those that wait, where there is a reply of which nothing was sent and its text has room, and
// tells whether it did.
fn waits(waiting: &mut Outbox, long: &Option<Reply>, at: u64) -> bool
    ensures put { waiting.new ≡ (if result then waiting.old ++ rest_of long.now at else waiting.old) }
    ensures fits { result ≡ true → length waiting.new ≤ 16384 }
{
    match long {
        Some(reply) if at == 0 => waiting.put(reply),
        _ => false,
    }
}

// Sends all texts that wait together.
fn send_waiting<L: Link>(waiting: &mut Outbox, link: &mut L) -> Result<(), Unsent>
    ensures sends { Sends (outgoing (L.sent link.old) (L.write_faults link.old) (L.refusals link.old))
        (outgoing (L.sent link.new) (L.write_faults link.new) (L.refusals link.new)) (L.agains link.old) (L.agains link.new)
        waiting.old waiting.new result }
    ensures nothing { OnOk result (waiting.new ≡ []) }
    ensures incoming { incoming (L.left link.new) (L.read_faults link.new) ≡ incoming (L.left link.old) (L.read_faults link.old) }
{
    while !waiting.bytes().is_empty() {
        match link.push(waiting.bytes()) {
            Push::Took(count) => waiting.took(count),
            Push::Again => return Err(Unsent::Again),
            Push::Failed => return Err(Unsent::Failed),
            Push::NoMemory => return Err(Unsent::NoMemory),
        }
    }
    Ok(())
}

// Sends the rest of the reply's text, where there is one.
fn send_long<L: Link>(long: &mut Option<Reply>, at: &mut u64, link: &mut L) -> Result<(), Unsent>
    requires { IsRestOf long.old at.old }
    ensures sends { Sends (outgoing (L.sent link.old) (L.write_faults link.old) (L.refusals link.old))
        (outgoing (L.sent link.new) (L.write_faults link.new) (L.refusals link.new)) (L.agains link.old) (L.agains link.new)
        (rest_of long.old at.old) (rest_of long.new at.new) result }
    ensures within { IsRestOf long.new at.new }
    ensures nothing { OnOk result (long.new ≡ None) }
    ensures incoming { incoming (L.left link.new) (L.read_faults link.new) ≡ incoming (L.left link.old) (L.read_faults link.old) }
{
    let Some(reply) = long else {
        return Ok(());
    };
    let (upto, unsent) = match write_reply(reply, *at, link) {
        Wrote::Done => {
            *long = None;
            return Ok(());
        }
        Wrote::Again(upto) => (upto, Unsent::Again),
        Wrote::Failed(upto) => (upto, Unsent::Failed),
        Wrote::NoMemory(upto) => (upto, Unsent::NoMemory),
    };
    *at = upto;
    Err(unsent)
}

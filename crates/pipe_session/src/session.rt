//! A session, and its turn.
ghost use Rattle.std.specs.Prelude.{◌≡◌, ◌≤◌, ◌^◌, ℕ, List, [], Option, length, false, IfOk};
ghost use Rattle.arc_core.specs.Outside.{Incoming, Outgoing, incoming, outgoing};
ghost use Rattle.pipe_session.specs.Ends.{end_behind};
ghost use Rattle.pipe_session.specs.Outside.{Moment, moment, outside};
ghost use Rattle.pipe_session.specs.declared.phase.Phase.TheVariants as phase;
ghost use Rattle.pipe_session.specs.declared.turn.Turn.TheVariants as turn;
ghost use Rattle.pipe_session.specs.Turns.{Standing, Deeds, no_deeds, SoFar, TurnLeaves, UnitLeaves, LinkLeaves, IsRead, IsFresh, is_over, over, stopped, turn_unsent};

use crate::desk::Desk;
use crate::owed::{Owed, Unsent};
use crate::phase::Phase;
use crate::piece::{PIECE_BYTES, Piece};
use crate::turn::Turn;
use crate::units::take_unit;
use arc_core::{Clock, End, Link, NoMemory, Pull};
use coll_grammar::AllHeads;
use frame_reader::{Frames, reader_stands_for_a_unit};
use std::alloc::Global;
use std::marker::Model;

/// The most bytes that a session takes.
const MAX_INPUT: u64 = 1 << 40;

/// One session on a link, which works one turn at a time.
///
/// It owns what it has to keep between two turns: what was pulled and not handled yet, and the text that it owes to the
/// link. All texts of the units that one pull brought go out together before the next pull, and 16,384 bytes wait at
/// most, beside one long reply.
///
/// Contracts see how far it is. `SoFar` says what it has done since it began.
#[derive(Drop)]
pub struct Session {
    frames: Frames<AllHeads>,
    owed: Owed,
    piece: Piece,
    taken: u64,
    phase: Phase,
}

impl Model for Session {
    ghost use Rattle.std.specs.Prelude.{◌≤◌, ◌^◌};
    ghost use Rattle.pipe_session.specs.Turns.{Standing, IsReading};

    ghost Value = { Standing };

    ghost view = { λ s. record {
      progress = s.frames;
      ahead = s.piece;
      owed = s.owed.text;
      is_full = s.owed.is_full;
      run = s.owed.run;
      taken = s.taken;
      phase = s.phase;
    } };

    ghost invariant = { λ s. (s.taken ≤ 2 ^ 40) × IsReading s.phase s.frames };
}

impl Session {
    /// A session that has done nothing. It takes memory for a line, a block of 131,072 bytes, a pull of 16,384 bytes and
    /// 51,200 bytes of text that waits, and 500 statuses. `NoMemory` comes for want of memory alone.
    pub fn new(alloc: Global) -> Result<Session, NoMemory>
        ensures { IfOk result IsFresh }
    {
        let frames = Frames::new(alloc, AllHeads)?;
        let owed = Owed::new(alloc)?;
        let piece = Piece::new(alloc)?;
        Ok(Session {
            frames,
            owed,
            piece,
            taken: 0,
            phase: Phase::Going,
        })
    }

    /// Makes the session one that has done nothing, for another link. Takes no memory.
    pub fn fresh(&mut self)
        ensures { IsFresh self.new }
    {
        self.frames.fresh();
        self.owed.clear();
        self.piece.clear();
        self.taken = 0;
        self.phase = Phase::Going;
    }

    /// Whether the session is over: a turn has answered `Over` since it began.
    pub fn is_over(&self) -> bool
        ensures { result ≡ is_over self.now.phase }
    {
        matches!(self.phase, Phase::Over)
    }

    /// Does nothing, and tells contracts that the session has taken 2^40 bytes at most, of which 16,384 at most were pulled
    /// and not read yet.
    pub fn keeps_its_limits(&self)
        ensures taken { self.now.taken ≤ 2 ^ 40 }
        ensures ahead { length self.now.ahead ≤ 16384 }
    {
        self.piece.ahead();
    }

    /// Works one turn: handles one unit of what was pulled, with at most one request executed at the clock's second; or,
    /// where no unit is whole, sends all that is owed and pulls once. Text that has no room is sent first. The session may
    /// not be over, and the desk has to be ready.
    ///
    /// `Over` comes with the end that `End` says. `Again` comes only where the link has counted it. Then nothing is lost,
    /// and nothing is executed or sent twice: the next turn goes on where this one stood.
    pub fn turn<D: Desk, L: Link, C: Clock>(
        &mut self,
        desk: &mut D,
        link: &mut L,
        clock: &mut C,
    ) -> Turn
        requires going { is_over self.old.phase ≡ false }
        requires ready { D.ready desk.old }
        ensures { (began : Moment D) (deeds : Deeds) → SoFar D.answers began
            (moment desk.old (outside (incoming (L.left link.old) (L.read_faults link.old))
            (outgoing (L.sent link.old) (L.write_faults link.old) (L.refusals link.old)) (C.coming clock.old))) self.old deeds
            → TurnLeaves D.answers began
            (moment desk.new (outside (incoming (L.left link.new) (L.read_faults link.new))
            (outgoing (L.sent link.new) (L.write_faults link.new) (L.refusals link.new)) (C.coming clock.new)))
            (L.agains link.old) (L.agains link.new) self.old self.new deeds result }
    {
        if !self.owed.is_full() {
            return self.work(desk, link, clock);
        }
        match self.owed.make_room(link) {
            Ok(()) => self.work(desk, link, clock),
            Err(unsent) => self.unsent(unsent),
        }
    }

    // Handles one unit, or sends all that is owed and pulls once. A further text has room.
    fn work<D: Desk, L: Link, C: Clock>(
        &mut self,
        desk: &mut D,
        link: &mut L,
        clock: &mut C,
    ) -> Turn
        requires going { is_over self.old.phase ≡ false }
        requires room { self.old.is_full ≡ false }
        requires ready { D.ready desk.old }
        ensures { (began : Moment D) (deeds : Deeds) → SoFar D.answers began
            (moment desk.old (outside (incoming (L.left link.old) (L.read_faults link.old))
            (outgoing (L.sent link.old) (L.write_faults link.old) (L.refusals link.old)) (C.coming clock.old))) self.old deeds
            → TurnLeaves D.answers began
            (moment desk.new (outside (incoming (L.left link.new) (L.read_faults link.new))
            (outgoing (L.sent link.new) (L.write_faults link.new) (L.refusals link.new)) (C.coming clock.new)))
            (L.agains link.old) (L.agains link.new) self.old self.new deeds result }
    {
        if self.handles_unit(desk, clock) {
            return Turn::More;
        }
        self.exchange::<D, L>(link)
    }

    // Handles the next unit where it gets whole by what was pulled, and tells whether it did. Else all of that is read.
    fn handles_unit<D: Desk, C: Clock>(&mut self, desk: &mut D, clock: &mut C) -> bool
        requires going { is_over self.old.phase ≡ false }
        requires room { self.old.is_full ≡ false }
        requires ready { D.ready desk.old }
        ensures leaves { (began : Moment D) (into : Incoming) (out : Outgoing) (deeds : Deeds)
            → SoFar D.answers began (moment desk.old (outside into out (C.coming clock.old))) self.old deeds
            → UnitLeaves D.answers began (moment desk.new (outside into out (C.coming clock.new))) self.old self.new deeds result }
        ensures read { IsRead self.old self.new result }
    {
        let Phase::Going = self.phase else {
            return false;
        };
        let ahead = self.piece.ahead();
        if ahead.is_empty() {
            return false;
        }
        let (count, phase) = take_unit(&mut self.frames, desk, clock, &mut self.owed, ahead);
        self.piece.pass(count);
        match phase {
            Some(phase) => {
                self.phase = phase;
                true
            }
            None => false,
        }
    }

    // Sends all that is owed, and then pulls once, or is over.
    fn exchange<D: Desk, L: Link>(&mut self, link: &mut L) -> Turn
        requires going { is_over self.old.phase ≡ false }
        requires read { self.old.phase ≡ phase.Going → self.old.ahead ≡ [] }
        ensures { (began : Moment D) (desk : D) (coming : Option (List ℕ)) (deeds : Deeds) → SoFar D.answers began
            (moment desk (outside (incoming (L.left link.old) (L.read_faults link.old))
            (outgoing (L.sent link.old) (L.write_faults link.old) (L.refusals link.old)) coming)) self.old deeds
            → LinkLeaves D.answers began
            (moment desk (outside (incoming (L.left link.new) (L.read_faults link.new))
            (outgoing (L.sent link.new) (L.write_faults link.new) (L.refusals link.new)) coming))
            (L.agains link.old) (L.agains link.new) self.new deeds result }
    {
        match self.owed.send(link) {
            Ok(()) => self.go_on::<D, L>(link),
            Err(unsent) => self.unsent(unsent),
        }
    }

    // Pulls once where the session goes on, or is over. Nothing is owed.
    fn go_on<D: Desk, L: Link>(&mut self, link: &mut L) -> Turn
        requires going { is_over self.old.phase ≡ false }
        requires read { self.old.phase ≡ phase.Going → self.old.ahead ≡ [] }
        requires sent { self.old.owed ≡ [] }
        requires room { self.old.is_full ≡ false }
        ensures { (began : Moment D) (desk : D) (coming : Option (List ℕ)) (deeds : Deeds) → SoFar D.answers began
            (moment desk (outside (incoming (L.left link.old) (L.read_faults link.old))
            (outgoing (L.sent link.old) (L.write_faults link.old) (L.refusals link.old)) coming)) self.old deeds
            → LinkLeaves D.answers began
            (moment desk (outside (incoming (L.left link.new) (L.read_faults link.new))
            (outgoing (L.sent link.new) (L.write_faults link.new) (L.refusals link.new)) coming))
            (L.agains link.old) (L.agains link.new) self.new deeds result }
    {
        match self.phase {
            Phase::Going => self.pull::<D, L>(link),
            Phase::Quit => self.over(End::Quit),
            Phase::LineTooLong => self.over(End::LineTooLong),
            Phase::Ended => self.over_at_end::<D>(),
            Phase::Over => unreachable!(),
        }
    }

    // Pulls once, where fewer than 2^40 bytes were taken. All that was pulled is read, and nothing is owed.
    fn pull<D: Desk, L: Link>(&mut self, link: &mut L) -> Turn
        requires going { self.old.phase ≡ phase.Going }
        requires read { self.old.ahead ≡ [] }
        requires sent { self.old.owed ≡ [] }
        requires room { self.old.is_full ≡ false }
        ensures { (began : Moment D) (desk : D) (coming : Option (List ℕ)) (deeds : Deeds) → SoFar D.answers began
            (moment desk (outside (incoming (L.left link.old) (L.read_faults link.old))
            (outgoing (L.sent link.old) (L.write_faults link.old) (L.refusals link.old)) coming)) self.old deeds
            → LinkLeaves D.answers began
            (moment desk (outside (incoming (L.left link.new) (L.read_faults link.new))
            (outgoing (L.sent link.new) (L.write_faults link.new) (L.refusals link.new)) coming))
            (L.agains link.old) (L.agains link.new) self.new deeds result }
    {
        reader_stands_for_a_unit();
        if self.taken == MAX_INPUT {
            return self.over(End::LongInput);
        }
        let most = (MAX_INPUT - self.taken).min(PIECE_BYTES as u64) as usize;
        match self.piece.fill(most, link) {
            Pull::Got(count) => {
                self.taken += count as u64;
                Turn::More
            }
            Pull::Again => Turn::Again,
            Pull::Failed => self.over(End::ReadFault),
            Pull::End => {
                self.owed.break_run();
                self.phase = Phase::Ended;
                self.end::<D, L>(link)
            }
        }
    }

    // Sends all that is owed behind the end of the input, and is over.
    fn end<D: Desk, L: Link>(&mut self, link: &mut L) -> Turn
        requires ended { self.old.phase ≡ phase.Ended }
        ensures { (began : Moment D) (desk : D) (coming : Option (List ℕ)) (deeds : Deeds) → SoFar D.answers began
            (moment desk (outside (incoming (L.left link.old) (L.read_faults link.old))
            (outgoing (L.sent link.old) (L.write_faults link.old) (L.refusals link.old)) coming)) self.old deeds
            → LinkLeaves D.answers began
            (moment desk (outside (incoming (L.left link.new) (L.read_faults link.new))
            (outgoing (L.sent link.new) (L.write_faults link.new) (L.refusals link.new)) coming))
            (L.agains link.old) (L.agains link.new) self.new deeds result }
    {
        match self.owed.send(link) {
            Ok(()) => self.over_at_end::<D>(),
            Err(unsent) => self.unsent(unsent),
        }
    }

    // The session is over behind the end of the input. Nothing is owed.
    fn over_at_end<D: Desk>(&mut self) -> Turn
        requires ended { self.old.phase ≡ phase.Ended }
        requires sent { self.old.owed ≡ [] }
        ensures { (began : Moment D) (desk : D) (into : Incoming) (out : Outgoing) (coming : Option (List ℕ)) (agains agains' : ℕ) (deeds : Deeds)
            → SoFar D.answers began (moment desk (outside into out coming)) self.old deeds
            → LinkLeaves D.answers began (moment desk (outside into out coming)) agains agains' self.new deeds result }
    {
        reader_stands_for_a_unit();
        let end = end_behind(self.frames.held());
        self.over(end)
    }

    // What a turn answers that could not send, by the cause.
    fn unsent(&mut self, unsent: Unsent) -> Turn
        ensures answer { result ≡ turn_unsent unsent }
        ensures stands { self.new ≡ stopped unsent self.old }
    {
        match unsent {
            Unsent::Again => Turn::Again,
            Unsent::Failed => self.over(End::WriteFault),
            Unsent::NoMemory => self.over(End::NoMemory),
        }
    }

    // The session is over, and ended so.
    fn over(&mut self, end: End) -> Turn
        ensures answer { result ≡ turn.Over end }
        ensures stands { self.new ≡ over self.old }
    {
        self.phase = Phase::Over;
        Turn::Over(end)
    }
}

/// A law: a session that has just begun has done nothing, wherever it begins.
pub fn fresh_sessions_have_done_nothing<D: Desk>()
    ensures { (now : Moment D) (at : Standing) → IsFresh at → SoFar D.answers now now at no_deeds }
{}

// How a session ends where the input has ended, by how many bytes came of an unfinished unit.
fn end_behind(held: u64) -> End
    ensures { (tail : List ℕ) → held ≡ length tail → result ≡ end_behind tail }
{
    match held {
        0 => End::Ended,
        rest => End::Cut(rest),
    }
}

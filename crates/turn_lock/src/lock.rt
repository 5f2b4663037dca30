//! The lock.
ghost use Rattle.std.specs.Prelude.{◌≡◌, ◌<◌, ◌^◌, length, IfOk, IsSomeAnd};
ghost use Rattle.arc_core.specs.CollectionLines.{CanBeSpelled};
ghost use Rattle.arc_core.specs.PlainRequest.{plain};
ghost use Rattle.arc_core.specs.ReplyText.{reply_text};
ghost use Rattle.turn_lock.specs.Calls.{Begins, IsLegal};
ghost use Rattle.turn_lock.specs.Seats.{first_seat, entry_of, IsCalled, CanSplit, after_split, split_seat, joined_seat, IsMet, HasAll, IsWhole};

use crate::gate::Gate;
use crate::moves::{Copied, Joined, Look, NewNumber, Recall};
use crate::seats::Seat;
use crate::steps::{pass, step, take_turn};
use crate::view::{Board, SERVING};
use arc_core::{Executor, NoMemory, Reply, Request};
use atomic_table::Table;
use std::alloc::Global;
use std::marker::{Brand, Model};
use std::snapshot::Snapshot;
use std::sync::Wait;

/// A lock round one executor. Contracts see which lock it is.
#[derive(Drop)]
pub struct TurnLock<E: Executor + Drop> {
    board: Board<E>,
    gate: Gate,
}

impl<E: Executor + Drop> Model for TurnLock<E> {
    ghost use Rattle.std.specs.Prelude.{◌≡◌};
    ghost use Rattle.atomic_table.specs.Seated.{TableId, table_id_coded};

    ghost Value = { TableId };

    ghost coded = { table_id_coded };

    ghost view = { λ l. l.board.shared.table_id };

    ghost invariant = { λ l. (l.board.shared.table_id.words ≡ 2) × (l.board.shared.table_id.slots ≡ 1) };
}

impl<E: Executor + Drop> TurnLock<E> {
    /// A lock round this executor, and its first seat, which has number 0 and the register. A refusal drops the
    /// executor.
    pub fn new(alloc: Global, executor: E) -> Result<(TurnLock<E>, Seat<E>), NoMemory>
        ensures { IfOk result (λ made. made.1 ≡ first_seat made.0 (E.state executor)) }
    {
        executor.keeps_the_rules();
        let about = Snapshot::of(&executor);
        let Ok(mut slots) = Vec::with_capacity(alloc, 1) else {
            return Err(NoMemory);
        };
        slots.push_reserved(executor);
        match Table::new(alloc, &[0, 0], slots, &about) {
            Ok((board, place)) => Ok((
                TurnLock {
                    board,
                    gate: Gate::new(),
                },
                Seat { place },
            )),
            Err(_) => Err(NoMemory),
        }
    }

    /// Waits for a turn, and executes the request at this second, as a call of this session.
    pub fn execute<R: Wait>(
        &self,
        rt: &R,
        seat: &mut Seat<E>,
        session: u64,
        now: u32,
        request: &Request<'_>,
    ) -> Reply
        requires own { seat.old.lock ≡ self.now }
        requires request { CanBeSpelled (plain request.now) }
        ensures called { IsCalled seat.old (entry_of seat.old.number session now (plain request.now) result) seat.new }
        ensures text { length (reply_text result) < 2 ^ 64 }
    {
        self.gate.enter(rt);
        let steps = &self.board.shared;
        let place = &mut seat.place;
        take_turn(rt, steps, place);
        let reply = step(steps, place, session, now, request);
        pass::<E, Brand>(steps, place, session, now, request, &reply);
        self.gate.leave();
        reply
    }

    /// A new seat with the next number, which has seen as much and made no calls.
    pub fn split(&self, seat: &mut Seat<E>) -> Seat<E>
        requires own { seat.old.lock ≡ self.now }
        requires number { CanSplit seat.old }
        ensures seat { seat.new ≡ after_split seat.old }
        ensures given { result ≡ split_seat seat.old }
    {
        Seat {
            place: self.board.shared.split_seat::<NewNumber>(&mut seat.place),
        }
    }

    /// Takes the other seat in. Its calls are kept under its number, and the longer of both histories is seen.
    pub fn join(&self, seat: &mut Seat<E>, other: Seat<E>)
        requires own { seat.old.lock ≡ self.now }
        requires other { other.lock ≡ self.now }
        ensures joined { seat.new ≡ joined_seat seat.old other }
        ensures own { Begins seat.old.seen seat.new.seen }
        ensures other { Begins other.seen seat.new.seen }
        ensures legal { IsLegal seat.new.opening seat.new.seen }
    {
        let steps = &self.board.shared;
        let Seat { place: other } = other;
        steps.join_seat::<Joined>(&mut seat.place, other);
        steps.load::<Recall>(&mut seat.place, SERVING);
    }

    /// Lets a seat see what the other one has seen.
    pub fn meet(&self, seat: &mut Seat<E>, other: &mut Seat<E>)
        requires own { seat.old.lock ≡ self.now }
        requires other { other.old.lock ≡ self.now }
        ensures met { IsMet seat.old other.old seat.new }
        ensures other { other.new ≡ other.old }
    {
        let steps = &self.board.shared;
        let copy = steps.split_seat::<Copied>(&mut other.place);
        steps.join_seat::<Joined>(&mut seat.place, copy);
        steps.load::<Look>(&mut seat.place, SERVING);
    }

    /// Gives the executor back. Every other seat was joined into this one, directly or through others.
    pub fn close(self, seat: Seat<E>) -> E
        requires own { seat.lock ≡ self }
        requires all { HasAll seat }
        ensures { IsWhole seat (E.state result) }
    {
        let TurnLock { board, gate: _ } = self;
        let Seat { place } = seat;
        let mut closed = board.close_with(place);
        let executor = closed.take(0);
        closed.free();
        executor
    }
}

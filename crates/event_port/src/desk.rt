//! The desk of a session that shares its seat with others.
ghost use Rattle.std.specs.Prelude.{◌≡◌, [], ⊤};
ghost use Rattle.event_port.specs.Desks.{behind, AnswersNext};

use arc_core::{Executor, Reply, Request};
use pipe_session::Desk;
use std::marker::Model;
use std::sync::Wait;
use turn_lock::{Seat, TurnLock};

/// What a session was answered before and is still to be told: nothing. It has no bytes. Contracts see it as a list of
/// entries, so that they can speak of a desk which has the earlier answers of a session before it.
#[derive(Drop)]
pub(crate) struct Past {
    nothing: (),
}

impl Model for Past {
    ghost use Rattle.std.specs.Prelude.{List, []};
    ghost use Rattle.arc_core.specs.History.{Entry};

    ghost Value = { List Entry };

    ghost view = { λ _. [] };
}

impl Past {
    /// Does nothing, and tells contracts that nothing is still to be told.
    pub(crate) fn is_nothing(&self)
        ensures { self.now ≡ [] }
    {
        self.nothing
    }
}

/// What the requests of one of many sessions go to in one turn: a lock, through the seat that all share.
#[derive(Drop)]
pub(crate) struct GuestDesk<'a, R, E: Executor + Drop> {
    rt: &'a R,
    lock: &'a TurnLock<E>,
    pub(crate) seat: &'a mut Seat<E>,
    session: u64,
    pub(crate) past: Past,
    ghost own: { seat.now.lock ≡ lock.now },
}

impl<'a, R: Wait, E: Executor + Drop> GuestDesk<'a, R, E> {
    /// A desk for the session with this number.
    pub(crate) fn new(
        rt: &'a R,
        lock: &'a TurnLock<E>,
        seat: &'a mut Seat<E>,
        session: u64,
    ) -> GuestDesk<'a, R, E>
        requires { seat.old.lock ≡ lock.now }
        ensures session { result.session ≡ session }
        ensures seat { result.seat.now ≡ seat.old }
        ensures same_seat { result.seat.ghost_name ≡ seat.entry.ghost_name }
        ensures past { result.past ≡ [] }
    {
        let past = Past { nothing: () };
        past.is_nothing();
        GuestDesk {
            rt,
            lock,
            seat,
            session,
            past,
        }
    }
}

impl<'a, R: Wait, E: Executor + Drop> Desk for GuestDesk<'a, R, E> {
    ghost ready = { λ _. ⊤ };

    // It is still the same seat, and the same session.
    ghost answers = { λ from entry to.
        AnswersNext (behind from.past from.session from.seat.now from.seat.ghost_name) entry
        (behind to.past to.session to.seat.now to.seat.ghost_name) };

    fn answer(&mut self, now: u32, request: &Request<'_>) -> Reply {
        self.past.is_nothing();
        self.lock
            .execute(self.rt, self.seat, self.session, now, request)
    }
}

//! A desk over a lock that many sessions share.
ghost use Rattle.std.specs.Prelude.{◌≡◌, ⊤};
ghost use Rattle.worker_server.specs.Sessions.{IsCallOf};

use arc_core::{Executor, Reply, Request};
use pipe_session::Desk;
use std::sync::Wait;
use turn_lock::{Seat, TurnLock};

/// What the requests of one session go to: a lock, through a seat of it, as calls of this session. It is always ready, and
/// an answer waits for a turn.
#[derive(Drop)]
pub struct LockDesk<'a, R, E: Executor + Drop> {
    rt: &'a R,
    lock: &'a TurnLock<E>,
    pub(crate) seat: &'a mut Seat<E>,
    session: u64,
    ghost own: { seat.now.lock ≡ lock.now },
}

impl<'a, R: Wait, E: Executor + Drop> LockDesk<'a, R, E> {
    /// A desk for the session with this number.
    pub fn new(
        rt: &'a R,
        lock: &'a TurnLock<E>,
        seat: &'a mut Seat<E>,
        session: u64,
    ) -> LockDesk<'a, R, E>
        requires { seat.old.lock ≡ lock.now }
        ensures session { result.session ≡ session }
        ensures seat { result.seat.now ≡ seat.old }
        ensures same_seat { result.seat.ghost_name ≡ seat.entry.ghost_name }
    {
        LockDesk {
            rt,
            lock,
            seat,
            session,
        }
    }
}

impl<'a, R: Wait, E: Executor + Drop> Desk for LockDesk<'a, R, E> {
    ghost ready = { λ _. ⊤ };

    // It is still the same seat, and the same session.
    ghost answers = { λ from entry to.
        IsCallOf from.session from.seat.now entry to.seat.now
        × (to.seat.ghost_name ≡ from.seat.ghost_name) × (to.session ≡ from.session) };

    fn answer(&mut self, now: u32, request: &Request<'_>) -> Reply {
        self.lock
            .execute(self.rt, self.seat, self.session, now, request)
    }
}

//! Serves one session under the lock.
ghost use Rattle.std.specs.Prelude.{◌≡◌};
ghost use Rattle.arc_core.specs.Outside.{incoming, outgoing};
ghost use Rattle.pipe_session.specs.Outside.{moment, outside};
ghost use Rattle.pipe_session.specs.Turns.{IsFresh};
ghost use Rattle.worker_server.specs.Sessions.{IsServed};

use crate::desk::LockDesk;
use arc_core::{Clock, End, Executor, Link};
use pipe_session::{Session, Turn, fresh_sessions_have_done_nothing};
use std::sync::Wait;
use std::thread::yield_now;
use turn_lock::{Seat, TurnLock};

/// Serves one session with this number on a link to its end, and answers how it ended. Its requests are calls of the seat,
/// at the clock's seconds.
///
/// The state is made fresh first, so it may be any. Where the link has to be asked again, other threads get the processor
/// first. Takes no memory but what the executor and the session take for a request. `NoMemory` comes only where the link
/// was refused memory, `ReadFault` and `WriteFault` only where it failed.
pub fn serve_session<R: Wait, E: Executor + Drop, L: Link, C: Clock>(
    rt: &R,
    lock: &TurnLock<E>,
    seat: &mut Seat<E>,
    session: u64,
    state: &mut Session,
    link: &mut L,
    clock: &mut C,
) -> End
    requires { seat.old.lock ≡ lock.now }
    ensures { IsServed session
        (moment seat.old (outside (incoming (L.left link.old) (L.read_faults link.old))
        (outgoing (L.sent link.old) (L.write_faults link.old) (L.refusals link.old)) (C.coming clock.old)))
        (moment seat.new (outside (incoming (L.left link.new) (L.read_faults link.new))
        (outgoing (L.sent link.new) (L.write_faults link.new) (L.refusals link.new)) (C.coming clock.new)))
        result }
{
    state.fresh();
    let mut desk = LockDesk::new(rt, lock, seat, session);
    turn_to_its_end(rt, &mut desk, state, link, clock)
}

// Turns a fresh session until it is over.
fn turn_to_its_end<'a, R: Wait, E: Executor + Drop, L: Link, C: Clock>(
    rt: &R,
    desk: &mut LockDesk<'a, R, E>,
    state: &mut Session,
    link: &mut L,
    clock: &mut C,
) -> End
    requires { IsFresh state.old }
    ensures served { IsServed desk.old.session
        (moment desk.old.seat.now (outside (incoming (L.left link.old) (L.read_faults link.old))
        (outgoing (L.sent link.old) (L.write_faults link.old) (L.refusals link.old)) (C.coming clock.old)))
        (moment desk.new.seat.now (outside (incoming (L.left link.new) (L.read_faults link.new))
        (outgoing (L.sent link.new) (L.write_faults link.new) (L.refusals link.new)) (C.coming clock.new)))
        result }
    ensures same_seat { desk.new.seat.ghost_name ≡ desk.old.seat.ghost_name }
{
    fresh_sessions_have_done_nothing::<LockDesk<'a, R, E>>();
    for _ in rt.forever() {
        match state.turn(desk, link, clock) {
            Turn::More => {}
            Turn::Again => yield_now(),
            Turn::Over(end) => return end,
        }
    }
    unreachable!()
}

//! The turns of one session among many.
ghost use Rattle.std.specs.Prelude.{◌≡◌, ◌++◌, List, false};
ghost use Rattle.arc_core.specs.History.{Entry};
ghost use Rattle.arc_core.specs.Outside.{linked};
ghost use Rattle.pipe_session.specs.Turns.{is_over};
ghost use Rattle.event_port.specs.Running.{GoesOnTicking, MadeCalls, StandsAt, StandsSomehow, TurnedTo, WorkedTo};

use crate::desk::GuestDesk;
use crate::guests::Guest;
use arc_core::{Clock, End, Executor, Link};
use pipe_session::Turn;
use std::sync::Wait;
use turn_lock::{Seat, TurnLock};

/// Works one turn of a session. Its requests are calls of the seat, at the clock's seconds.
pub(crate) fn turn_once<R: Wait, E: Executor + Drop, L: Link, C: Clock>(
    rt: &R,
    lock: &TurnLock<E>,
    seat: &mut Seat<E>,
    guest: &mut Guest<L>,
    clock: &mut C,
) -> Turn
    requires own { seat.old.lock ≡ lock.now }
    requires going { is_over guest.old.session.phase ≡ false }
    ensures number { guest.new.number ≡ guest.old.number }
    ensures turned { (came : L) (told : List Entry) → GoesOnTicking told (C.coming clock.old)
        → StandsAt (λ link. linked (L.left link) (L.read_faults link) (L.sent link) (L.write_faults link) (L.refusals link) (L.agains link)) came guest.old.link guest.old.session told
        → (more : List Entry) × MadeCalls guest.old.number more seat.old seat.new (C.coming clock.old) (C.coming clock.new)
        × TurnedTo (λ link. linked (L.left link) (L.read_faults link) (L.sent link) (L.write_faults link) (L.refusals link) (L.agains link)) came guest.new (told ++ more) result }
{
    let mut desk = GuestDesk::new(rt, lock, seat, guest.number);
    let turn = guest.session.turn(&mut desk, &mut guest.link, clock);
    desk.past.is_nothing();
    turn
}

/// Works turns of a session until its link has to be asked again, or it is over.
pub(crate) fn work<R: Wait, E: Executor + Drop, L: Link, C: Clock>(
    rt: &R,
    lock: &TurnLock<E>,
    seat: &mut Seat<E>,
    guest: &mut Guest<L>,
    clock: &mut C,
) -> Option<End>
    requires own { seat.old.lock ≡ lock.now }
    requires stands { StandsSomehow (λ link. linked (L.left link) (L.read_faults link) (L.sent link) (L.write_faults link) (L.refusals link) (L.agains link)) guest.old (C.coming clock.old) }
    ensures number { guest.new.number ≡ guest.old.number }
    ensures worked { (came : L) (told : List Entry) → GoesOnTicking told (C.coming clock.old)
        → StandsAt (λ link. linked (L.left link) (L.read_faults link) (L.sent link) (L.write_faults link) (L.refusals link) (L.agains link)) came guest.old.link guest.old.session told
        → (more : List Entry) × MadeCalls guest.old.number more seat.old seat.new (C.coming clock.old) (C.coming clock.new)
        × WorkedTo (λ link. linked (L.left link) (L.read_faults link) (L.sent link) (L.write_faults link) (L.refusals link) (L.agains link)) came guest.new (told ++ more) result }
{
    for _ in rt.forever() {
        match turn_once(rt, lock, seat, guest, clock) {
            Turn::More => {}
            Turn::Again => return None,
            Turn::Over(end) => return Some(end),
        }
    }
    unreachable!()
}

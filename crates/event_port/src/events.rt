//! Event workers, each of which serves many links at once.
ghost use Rattle.std.specs.Prelude.{◌≡◌, ◌==◌, ◌-◌, ◌^◌, ◌+◌, ◌<◌, ◌≤◌, if◌then◌else◌};
ghost use Rattle.arc_core.specs.Outside.{linked};
ghost use Rattle.slab.specs.Slab.{slab_len};
ghost use Rattle.worker_server.specs.Ports.{port_state};
ghost use Rattle.worker_server.specs.Workers.{EndsFor};
ghost use Rattle.event_port.specs.Pollers.{poller_state};
ghost use Rattle.event_port.specs.Moves.{EventState, event_state, HasRunEvents};
ghost use Rattle.event_port.specs.Running.{Runs, OnlyReturns, SameNumbers, GoesOnOrEnds};

use crate::floor::{turn_at, visit, welcome};
use crate::guests::{Floor, MOST_LINKS};
use crate::pollers::{Poller, Wake};
use arc_core::{Clock, Executor};
use std::alloc::Global;
use std::sync::Wait;
use std::thread::yield_now;
use turn_lock::{Seat, TurnLock};
use worker_server::WorkerEnd;

/// Serves the links of a poller, up to 1,024 at once, each by a session of its own under the lock, through one seat. It
/// answers how it ended, and how many sessions it served.
///
/// Links are numbered from 0 in the order in which they come, which are the numbers of their sessions. A link that comes
/// while 1,024 are open, or when as many were taken on as `sessions` says (0 means 2^64 - 1), goes back as `Crowded` at
/// once. Where no memory is there for its session, it goes back as `NoMemory`, untouched. Every other link is served until
/// its session is over, and goes back with its end. A session works while its link has something to give or to take; then
/// the link is watched.
///
/// The worker ends as `Closed` where the poller has no further link, as `PortFault` where it fails, as `NoMemory` where
/// memory is refused to it, and as `Limit` where as many links were taken on as may be and none is open. Links that are
/// still open are served to their end first.
pub fn run_events<R: Wait, E: Executor + Drop, Q: Poller, C: Clock>(
    rt: &R,
    alloc: Global,
    lock: &TurnLock<E>,
    seat: &mut Seat<E>,
    poller: &mut Q,
    clock: &mut C,
    sessions: u64,
) -> (WorkerEnd, u64)
    requires { seat.old.lock ≡ lock.now }
    ensures { HasRunEvents (λ link. linked (Q.Link.left link) (Q.Link.read_faults link) (Q.Link.sent link) (Q.Link.write_faults link) (Q.Link.refusals link) (Q.Link.agains link)) (if sessions == 0 then 2 ^ 64 - 1 else sessions)
        (event_state (poller_state (port_state (Q.links poller.old) (Q.returned poller.old) (Q.faults poller.old) (Q.refusals poller.old)) (Q.held poller.old)) (C.coming clock.old) seat.old) (event_state (poller_state (port_state (Q.links poller.new) (Q.returned poller.new) (Q.faults poller.new) (Q.refusals poller.new)) (Q.held poller.new)) (C.coming clock.new) seat.new) result.0 result.1 }
{
    let mut floor = Floor::new(alloc, most_sessions(sessions));
    let end = serve_links(rt, alloc, lock, seat, poller, clock, &mut floor);
    serve_the_rest(rt, lock, seat, poller, clock, &mut floor);
    (end, floor.taken_on)
}

// How many links are taken on at most.
fn most_sessions(sessions: u64) -> u64
    ensures { result ≡ (if sessions == 0 then 2 ^ 64 - 1 else sessions) }
{
    if sessions == 0 { u64::MAX } else { sessions }
}

// Serves links until the worker has a cause to end.
fn serve_links<R: Wait, E: Executor + Drop, Q: Poller, C: Clock>(
    rt: &R,
    alloc: Global,
    lock: &TurnLock<E>,
    seat: &mut Seat<E>,
    poller: &mut Q,
    clock: &mut C,
    floor: &mut Floor<Q::Link>,
) -> WorkerEnd
    requires own { seat.old.lock ≡ lock.now }
    requires none { floor.old.came ≡ 0 }
    requires begun { (before : EventState Q.Link) × Runs (λ link. linked (Q.Link.left link) (Q.Link.read_faults link) (Q.Link.sent link) (Q.Link.write_faults link) (Q.Link.refusals link) (Q.Link.agains link)) before (event_state (poller_state (port_state (Q.links poller.old) (Q.returned poller.old) (Q.faults poller.old) (Q.refusals poller.old)) (Q.held poller.old)) (C.coming clock.old) seat.old) floor.old }
    ensures runs { (before : EventState Q.Link) → Runs (λ link. linked (Q.Link.left link) (Q.Link.read_faults link) (Q.Link.sent link) (Q.Link.write_faults link) (Q.Link.refusals link) (Q.Link.agains link)) before (event_state (poller_state (port_state (Q.links poller.old) (Q.returned poller.old) (Q.faults poller.old) (Q.refusals poller.old)) (Q.held poller.old)) (C.coming clock.old) seat.old) floor.old → Runs (λ link. linked (Q.Link.left link) (Q.Link.read_faults link) (Q.Link.sent link) (Q.Link.write_faults link) (Q.Link.refusals link) (Q.Link.agains link)) before (event_state (poller_state (port_state (Q.links poller.new) (Q.returned poller.new) (Q.faults poller.new) (Q.refusals poller.new)) (Q.held poller.new)) (C.coming clock.new) seat.new) floor.new }
    ensures ends { EndsFor result floor.new.taken_on floor.new.limit (poller_state (port_state (Q.links poller.old) (Q.returned poller.old) (Q.faults poller.old) (Q.refusals poller.old)) (Q.held poller.old)).port (poller_state (port_state (Q.links poller.new) (Q.returned poller.new) (Q.faults poller.new) (Q.refusals poller.new)) (Q.held poller.new)).port }
    ensures limit { floor.new.limit ≡ floor.old.limit }
    ensures own { seat.new.lock ≡ lock.now }
{
    for _round in 0..u64::MAX {
        if floor.guests.is_empty() && floor.taken_on == floor.limit {
            return WorkerEnd::Limit;
        }
        match serve_wake(rt, alloc, lock, seat, poller, clock, floor) {
            Some(end) => return end,
            None => {}
        }
    }
    // So many links never come.
    for _ in rt.forever() {}
    unreachable!()
}

// Serves what comes next, and answers the worker's end where there is a cause for one.
fn serve_wake<R: Wait, E: Executor + Drop, Q: Poller, C: Clock>(
    rt: &R,
    alloc: Global,
    lock: &TurnLock<E>,
    seat: &mut Seat<E>,
    poller: &mut Q,
    clock: &mut C,
    floor: &mut Floor<Q::Link>,
) -> Option<WorkerEnd>
    requires own { seat.old.lock ≡ lock.now }
    requires few { floor.old.came < 2 ^ 64 - 1 }
    requires begun { (before : EventState Q.Link) × Runs (λ link. linked (Q.Link.left link) (Q.Link.read_faults link) (Q.Link.sent link) (Q.Link.write_faults link) (Q.Link.refusals link) (Q.Link.agains link)) before (event_state (poller_state (port_state (Q.links poller.old) (Q.returned poller.old) (Q.faults poller.old) (Q.refusals poller.old)) (Q.held poller.old)) (C.coming clock.old) seat.old) floor.old }
    ensures runs { (before : EventState Q.Link) → Runs (λ link. linked (Q.Link.left link) (Q.Link.read_faults link) (Q.Link.sent link) (Q.Link.write_faults link) (Q.Link.refusals link) (Q.Link.agains link)) before (event_state (poller_state (port_state (Q.links poller.old) (Q.returned poller.old) (Q.faults poller.old) (Q.refusals poller.old)) (Q.held poller.old)) (C.coming clock.old) seat.old) floor.old → Runs (λ link. linked (Q.Link.left link) (Q.Link.read_faults link) (Q.Link.sent link) (Q.Link.write_faults link) (Q.Link.refusals link) (Q.Link.agains link)) before (event_state (poller_state (port_state (Q.links poller.new) (Q.returned poller.new) (Q.faults poller.new) (Q.refusals poller.new)) (Q.held poller.new)) (C.coming clock.new) seat.new) floor.new }
    ensures counts { GoesOnOrEnds (poller_state (port_state (Q.links poller.old) (Q.returned poller.old) (Q.faults poller.old) (Q.refusals poller.old)) (Q.held poller.old)) (poller_state (port_state (Q.links poller.new) (Q.returned poller.new) (Q.faults poller.new) (Q.refusals poller.new)) (Q.held poller.new)) floor.new result }
    ensures came { floor.new.came ≤ floor.old.came + 1 }
    ensures limit { floor.new.limit ≡ floor.old.limit }
    ensures own { seat.new.lock ≡ lock.now }
{
    match poller.wait() {
        Wake::Fresh(link) => match welcome(alloc, poller, floor, link) {
            Some(key) => visit(rt, lock, seat, poller, clock, floor, key),
            None => None,
        },
        Wake::Ready(token) => visit(rt, lock, seat, poller, clock, floor, token),
        Wake::Closed => Some(WorkerEnd::Closed),
        Wake::Failed => Some(WorkerEnd::PortFault),
        Wake::NoMemory => Some(WorkerEnd::NoMemory),
    }
}

// Serves the links that are open until none is. None of them is watched: where all wait, other threads get the processor
// first.
fn serve_the_rest<R: Wait, E: Executor + Drop, Q: Poller, C: Clock>(
    rt: &R,
    lock: &TurnLock<E>,
    seat: &mut Seat<E>,
    poller: &mut Q,
    clock: &mut C,
    floor: &mut Floor<Q::Link>,
)
    requires own { seat.old.lock ≡ lock.now }
    requires begun { (before : EventState Q.Link) × Runs (λ link. linked (Q.Link.left link) (Q.Link.read_faults link) (Q.Link.sent link) (Q.Link.write_faults link) (Q.Link.refusals link) (Q.Link.agains link)) before (event_state (poller_state (port_state (Q.links poller.old) (Q.returned poller.old) (Q.faults poller.old) (Q.refusals poller.old)) (Q.held poller.old)) (C.coming clock.old) seat.old) floor.old }
    ensures runs { (before : EventState Q.Link) → Runs (λ link. linked (Q.Link.left link) (Q.Link.read_faults link) (Q.Link.sent link) (Q.Link.write_faults link) (Q.Link.refusals link) (Q.Link.agains link)) before (event_state (poller_state (port_state (Q.links poller.old) (Q.returned poller.old) (Q.faults poller.old) (Q.refusals poller.old)) (Q.held poller.old)) (C.coming clock.old) seat.old) floor.old → Runs (λ link. linked (Q.Link.left link) (Q.Link.read_faults link) (Q.Link.sent link) (Q.Link.write_faults link) (Q.Link.refusals link) (Q.Link.agains link)) before (event_state (poller_state (port_state (Q.links poller.new) (Q.returned poller.new) (Q.faults poller.new) (Q.refusals poller.new)) (Q.held poller.new)) (C.coming clock.new) seat.new) floor.new }
    ensures counts { OnlyReturns (poller_state (port_state (Q.links poller.old) (Q.returned poller.old) (Q.faults poller.old) (Q.refusals poller.old)) (Q.held poller.old)) (poller_state (port_state (Q.links poller.new) (Q.returned poller.new) (Q.faults poller.new) (Q.refusals poller.new)) (Q.held poller.new)) }
    ensures same { SameNumbers floor.old floor.new }
    ensures none { slab_len floor.new.guests ≡ 0 }
{
    for _ in rt.forever() {
        if floor.guests.is_empty() {
            return;
        }
        turn_all(rt, lock, seat, poller, clock, floor);
        yield_now();
    }
    unreachable!()
}

// Works turns of each guest.
fn turn_all<R: Wait, E: Executor + Drop, Q: Poller, C: Clock>(
    rt: &R,
    lock: &TurnLock<E>,
    seat: &mut Seat<E>,
    poller: &mut Q,
    clock: &mut C,
    floor: &mut Floor<Q::Link>,
)
    requires own { seat.old.lock ≡ lock.now }
    requires begun { (before : EventState Q.Link) × Runs (λ link. linked (Q.Link.left link) (Q.Link.read_faults link) (Q.Link.sent link) (Q.Link.write_faults link) (Q.Link.refusals link) (Q.Link.agains link)) before (event_state (poller_state (port_state (Q.links poller.old) (Q.returned poller.old) (Q.faults poller.old) (Q.refusals poller.old)) (Q.held poller.old)) (C.coming clock.old) seat.old) floor.old }
    ensures runs { (before : EventState Q.Link) → Runs (λ link. linked (Q.Link.left link) (Q.Link.read_faults link) (Q.Link.sent link) (Q.Link.write_faults link) (Q.Link.refusals link) (Q.Link.agains link)) before (event_state (poller_state (port_state (Q.links poller.old) (Q.returned poller.old) (Q.faults poller.old) (Q.refusals poller.old)) (Q.held poller.old)) (C.coming clock.old) seat.old) floor.old → Runs (λ link. linked (Q.Link.left link) (Q.Link.read_faults link) (Q.Link.sent link) (Q.Link.write_faults link) (Q.Link.refusals link) (Q.Link.agains link)) before (event_state (poller_state (port_state (Q.links poller.new) (Q.returned poller.new) (Q.faults poller.new) (Q.refusals poller.new)) (Q.held poller.new)) (C.coming clock.new) seat.new) floor.new }
    ensures counts { OnlyReturns (poller_state (port_state (Q.links poller.old) (Q.returned poller.old) (Q.faults poller.old) (Q.refusals poller.old)) (Q.held poller.old)) (poller_state (port_state (Q.links poller.new) (Q.returned poller.new) (Q.faults poller.new) (Q.refusals poller.new)) (Q.held poller.new)) }
    ensures same { SameNumbers floor.old floor.new }
    ensures own { seat.new.lock ≡ lock.now }
{
    for key in 0..MOST_LINKS {
        turn_at(rt, lock, seat, poller, clock, floor, key);
    }
}

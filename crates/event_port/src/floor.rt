//! How links come, are turned, and go.
ghost use Rattle.std.specs.Prelude.{◌≡◌, ◌+◌, ◌-◌, ◌^◌, ◌<◌, ◌≤◌, [], IfSome, OnOk, OnErr};
ghost use Rattle.arc_core.specs.Outside.{linked};
ghost use Rattle.pipe_session.specs.Turns.{IsFresh};
ghost use Rattle.slab.specs.Slab.{ContainsKey};
ghost use Rattle.worker_server.specs.Ports.{port_state};
ghost use Rattle.event_port.specs.Pollers.{poller_state, GivesOut, FailsOnce};
ghost use Rattle.event_port.specs.Moves.{EventState, event_state};
ghost use Rattle.event_port.specs.Running.{Runs, OnlyReturns, HandsBack, IsBegun, HasPlace, SameNumbers, GoesOnOrEnds};

use crate::guests::{Floor, Guest, MOST_LINKS};
use crate::pollers::Poller;
use crate::turning::work;
use arc_core::{Clock, End, Executor, Failed};
use pipe_session::Session;
use slab::Slab;
use std::alloc::Global;
use std::sync::Wait;
use turn_lock::{Seat, TurnLock};
use worker_server::WorkerEnd;

impl<L> Floor<L> {
    /// No link is open, and none came. So many are taken on at most. Takes no memory.
    pub(crate) fn new(alloc: Global, limit: u64) -> Floor<L>
        ensures { IsBegun limit result }
    {
        Floor {
            guests: Slab::new(alloc),
            spare: Vec::new(alloc),
            came: 0,
            taken_on: 0,
            limit,
        }
    }
}

// A session that has done nothing: one that is over, or a new one. There is none for want of memory alone.
fn fresh_session(alloc: Global, spare: &mut Vec<Session>) -> Option<Session>
    ensures { IfSome result IsFresh }
{
    match spare.pop() {
        Some(mut session) => {
            session.fresh();
            Some(session)
        }
        None => Session::new(alloc).ok(),
    }
}

/// Takes a link on that has come, and answers the key of its guest. Where there are too many it goes back as Crowded, and
/// for want of memory as NoMemory.
pub(crate) fn welcome<Q: Poller>(
    alloc: Global,
    poller: &mut Q,
    floor: &mut Floor<Q::Link>,
    link: Q::Link,
) -> Option<usize>
    requires held { 0 < Q.held poller.old }
    requires few { floor.old.came < 2 ^ 64 - 1 }
    requires within { floor.old.taken_on ≤ floor.old.limit }
    ensures runs { (before now : EventState Q.Link) → Runs (λ link. linked (Q.Link.left link) (Q.Link.read_faults link) (Q.Link.sent link) (Q.Link.write_faults link) (Q.Link.refusals link) (Q.Link.agains link)) before now floor.old → GivesOut now.poller link (poller_state (port_state (Q.links poller.old) (Q.returned poller.old) (Q.faults poller.old) (Q.refusals poller.old)) (Q.held poller.old))
        → Runs (λ link. linked (Q.Link.left link) (Q.Link.read_faults link) (Q.Link.sent link) (Q.Link.write_faults link) (Q.Link.refusals link) (Q.Link.agains link)) before (record now { poller = (poller_state (port_state (Q.links poller.new) (Q.returned poller.new) (Q.faults poller.new) (Q.refusals poller.new)) (Q.held poller.new)) }) floor.new }
    ensures counts { OnlyReturns (poller_state (port_state (Q.links poller.old) (Q.returned poller.old) (Q.faults poller.old) (Q.refusals poller.old)) (Q.held poller.old)) (poller_state (port_state (Q.links poller.new) (Q.returned poller.new) (Q.faults poller.new) (Q.refusals poller.new)) (Q.held poller.new)) }
    ensures came { floor.new.came ≡ floor.old.came + 1 }
    ensures limit { floor.new.limit ≡ floor.old.limit }
{
    if floor.guests.len() == MOST_LINKS || floor.taken_on == floor.limit {
        floor.came += 1;
        poller.done(link, End::Crowded);
        return None;
    }
    take_on(alloc, poller, floor, link)
}

// Takes a link on that has come, where there is room.
fn take_on<Q: Poller>(
    alloc: Global,
    poller: &mut Q,
    floor: &mut Floor<Q::Link>,
    link: Q::Link,
) -> Option<usize>
    requires held { 0 < Q.held poller.old }
    requires few { floor.old.came < 2 ^ 64 - 1 }
    requires room { HasPlace floor.old }
    ensures runs { (before now : EventState Q.Link) → Runs (λ link. linked (Q.Link.left link) (Q.Link.read_faults link) (Q.Link.sent link) (Q.Link.write_faults link) (Q.Link.refusals link) (Q.Link.agains link)) before now floor.old → GivesOut now.poller link (poller_state (port_state (Q.links poller.old) (Q.returned poller.old) (Q.faults poller.old) (Q.refusals poller.old)) (Q.held poller.old))
        → Runs (λ link. linked (Q.Link.left link) (Q.Link.read_faults link) (Q.Link.sent link) (Q.Link.write_faults link) (Q.Link.refusals link) (Q.Link.agains link)) before (record now { poller = (poller_state (port_state (Q.links poller.new) (Q.returned poller.new) (Q.faults poller.new) (Q.refusals poller.new)) (Q.held poller.new)) }) floor.new }
    ensures counts { OnlyReturns (poller_state (port_state (Q.links poller.old) (Q.returned poller.old) (Q.faults poller.old) (Q.refusals poller.old)) (Q.held poller.old)) (poller_state (port_state (Q.links poller.new) (Q.returned poller.new) (Q.faults poller.new) (Q.refusals poller.new)) (Q.held poller.new)) }
    ensures came { floor.new.came ≡ floor.old.came + 1 }
    ensures limit { floor.new.limit ≡ floor.old.limit }
{
    let number = floor.came;
    floor.came += 1;
    floor.taken_on += 1;
    let Some(session) = fresh_session(alloc, &mut floor.spare) else {
        poller.done(link, End::NoMemory);
        return None;
    };
    match floor.guests.insert(Guest {
        number,
        link,
        session,
    }) {
        Ok(key) => Some(key),
        Err(failed) => {
            poller.done(link_of(failed.value), End::NoMemory);
            None
        }
    }
}

// The link of a guest whose session is not needed.
fn link_of<L>(guest: Guest<L>) -> L
    ensures { result ≡ guest.link }
{
    let Guest { link, .. } = guest;
    link
}

// Hands the link of a guest back with this end, and keeps its session for a further link, where memory is there.
fn hand_back<Q: Poller>(poller: &mut Q, floor: &mut Floor<Q::Link>, key: usize, end: End)
    requires held { 0 < Q.held poller.old }
    requires guest { ContainsKey floor.old.guests key }
    ensures { HandsBack floor.old (poller_state (port_state (Q.links poller.old) (Q.returned poller.old) (Q.faults poller.old) (Q.refusals poller.old)) (Q.held poller.old)) key end floor.new (poller_state (port_state (Q.links poller.new) (Q.returned poller.new) (Q.faults poller.new) (Q.refusals poller.new)) (Q.held poller.new)) }
{
    let Guest { link, session, .. } = floor.guests.remove(key);
    let _ = floor.spare.push(session);
    poller.done(link, end);
}

/// Works turns of the guest with this key, where there is one. A session that is over goes back with its link. It answers
/// whether a guest waits for its link.
pub(crate) fn turn_at<R: Wait, E: Executor + Drop, Q: Poller, C: Clock>(
    rt: &R,
    lock: &TurnLock<E>,
    seat: &mut Seat<E>,
    poller: &mut Q,
    clock: &mut C,
    floor: &mut Floor<Q::Link>,
    key: usize,
) -> bool
    requires own { seat.old.lock ≡ lock.now }
    requires begun { (before : EventState Q.Link) × Runs (λ link. linked (Q.Link.left link) (Q.Link.read_faults link) (Q.Link.sent link) (Q.Link.write_faults link) (Q.Link.refusals link) (Q.Link.agains link)) before (event_state (poller_state (port_state (Q.links poller.old) (Q.returned poller.old) (Q.faults poller.old) (Q.refusals poller.old)) (Q.held poller.old)) (C.coming clock.old) seat.old) floor.old }
    ensures runs { (before : EventState Q.Link) → Runs (λ link. linked (Q.Link.left link) (Q.Link.read_faults link) (Q.Link.sent link) (Q.Link.write_faults link) (Q.Link.refusals link) (Q.Link.agains link)) before (event_state (poller_state (port_state (Q.links poller.old) (Q.returned poller.old) (Q.faults poller.old) (Q.refusals poller.old)) (Q.held poller.old)) (C.coming clock.old) seat.old) floor.old → Runs (λ link. linked (Q.Link.left link) (Q.Link.read_faults link) (Q.Link.sent link) (Q.Link.write_faults link) (Q.Link.refusals link) (Q.Link.agains link)) before (event_state (poller_state (port_state (Q.links poller.new) (Q.returned poller.new) (Q.faults poller.new) (Q.refusals poller.new)) (Q.held poller.new)) (C.coming clock.new) seat.new) floor.new }
    ensures counts { OnlyReturns (poller_state (port_state (Q.links poller.old) (Q.returned poller.old) (Q.faults poller.old) (Q.refusals poller.old)) (Q.held poller.old)) (poller_state (port_state (Q.links poller.new) (Q.returned poller.new) (Q.faults poller.new) (Q.refusals poller.new)) (Q.held poller.new)) }
    ensures same { SameNumbers floor.old floor.new }
    ensures own { seat.new.lock ≡ lock.now }
{
    let Some(guest) = floor.guests.get_mut(key) else {
        return false;
    };
    match work(rt, lock, seat, guest, clock) {
        None => true,
        Some(end) => {
            hand_back(poller, floor, key, end);
            false
        }
    }
}

// Has the poller watch the link of the guest with this key.
fn watch_at<Q: Poller>(poller: &mut Q, floor: &mut Floor<Q::Link>, key: usize) -> Result<(), Failed>
    ensures runs { (before now : EventState Q.Link) → Runs (λ link. linked (Q.Link.left link) (Q.Link.read_faults link) (Q.Link.sent link) (Q.Link.write_faults link) (Q.Link.refusals link) (Q.Link.agains link)) before (record now { poller = (poller_state (port_state (Q.links poller.old) (Q.returned poller.old) (Q.faults poller.old) (Q.refusals poller.old)) (Q.held poller.old)) }) floor.old
        → Runs (λ link. linked (Q.Link.left link) (Q.Link.read_faults link) (Q.Link.sent link) (Q.Link.write_faults link) (Q.Link.refusals link) (Q.Link.agains link)) before (record now { poller = (poller_state (port_state (Q.links poller.new) (Q.returned poller.new) (Q.faults poller.new) (Q.refusals poller.new)) (Q.held poller.new)) }) floor.new }
    ensures watched { OnOk result ((poller_state (port_state (Q.links poller.new) (Q.returned poller.new) (Q.faults poller.new) (Q.refusals poller.new)) (Q.held poller.new)) ≡ (poller_state (port_state (Q.links poller.old) (Q.returned poller.old) (Q.faults poller.old) (Q.refusals poller.old)) (Q.held poller.old))) }
    ensures failed { OnErr result (FailsOnce (poller_state (port_state (Q.links poller.old) (Q.returned poller.old) (Q.faults poller.old) (Q.refusals poller.old)) (Q.held poller.old)) (poller_state (port_state (Q.links poller.new) (Q.returned poller.new) (Q.faults poller.new) (Q.refusals poller.new)) (Q.held poller.new))) }
    ensures same { SameNumbers floor.old floor.new }
{
    match floor.guests.get_mut(key) {
        Some(guest) => poller.watch(key, &mut guest.link),
        None => Ok(()),
    }
}

/// Works turns of the guest with this key, and has its link watched where it has to be asked again.
pub(crate) fn visit<R: Wait, E: Executor + Drop, Q: Poller, C: Clock>(
    rt: &R,
    lock: &TurnLock<E>,
    seat: &mut Seat<E>,
    poller: &mut Q,
    clock: &mut C,
    floor: &mut Floor<Q::Link>,
    key: usize,
) -> Option<WorkerEnd>
    requires own { seat.old.lock ≡ lock.now }
    requires begun { (before : EventState Q.Link) × Runs (λ link. linked (Q.Link.left link) (Q.Link.read_faults link) (Q.Link.sent link) (Q.Link.write_faults link) (Q.Link.refusals link) (Q.Link.agains link)) before (event_state (poller_state (port_state (Q.links poller.old) (Q.returned poller.old) (Q.faults poller.old) (Q.refusals poller.old)) (Q.held poller.old)) (C.coming clock.old) seat.old) floor.old }
    ensures runs { (before : EventState Q.Link) → Runs (λ link. linked (Q.Link.left link) (Q.Link.read_faults link) (Q.Link.sent link) (Q.Link.write_faults link) (Q.Link.refusals link) (Q.Link.agains link)) before (event_state (poller_state (port_state (Q.links poller.old) (Q.returned poller.old) (Q.faults poller.old) (Q.refusals poller.old)) (Q.held poller.old)) (C.coming clock.old) seat.old) floor.old → Runs (λ link. linked (Q.Link.left link) (Q.Link.read_faults link) (Q.Link.sent link) (Q.Link.write_faults link) (Q.Link.refusals link) (Q.Link.agains link)) before (event_state (poller_state (port_state (Q.links poller.new) (Q.returned poller.new) (Q.faults poller.new) (Q.refusals poller.new)) (Q.held poller.new)) (C.coming clock.new) seat.new) floor.new }
    ensures counts { GoesOnOrEnds (poller_state (port_state (Q.links poller.old) (Q.returned poller.old) (Q.faults poller.old) (Q.refusals poller.old)) (Q.held poller.old)) (poller_state (port_state (Q.links poller.new) (Q.returned poller.new) (Q.faults poller.new) (Q.refusals poller.new)) (Q.held poller.new)) floor.new result }
    ensures same { SameNumbers floor.old floor.new }
    ensures own { seat.new.lock ≡ lock.now }
{
    if !turn_at(rt, lock, seat, poller, clock, floor, key) {
        return None;
    }
    match watch_at(poller, floor, key) {
        Ok(()) => None,
        Err(Failed) => Some(WorkerEnd::PortFault),
    }
}

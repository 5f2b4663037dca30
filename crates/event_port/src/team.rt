//! Runs event workers side by side.
ghost use Rattle.std.specs.Prelude.{◌≡◌, All, map};
ghost use Rattle.std.specs.Thread.{IsSend, IsSync};
ghost use Rattle.arc_core.specs.Outside.{linked};
ghost use Rattle.worker_server.specs.declared.worker.WorkerEnd.TheVariants as worker_end;
ghost use Rattle.worker_server.specs.Ports.{port_state};
ghost use Rattle.worker_server.specs.Workers.{HasMet};
ghost use Rattle.event_port.specs.Pollers.{poller_state};
ghost use Rattle.event_port.specs.Moves.{event_state};
ghost use Rattle.event_port.specs.Teams.{member_state, HasRunAlone, AllRanEvents, HaveServedEvents};

use crate::events::run_events;
use crate::pollers::Poller;
use arc_core::{Clock, Executor};
use std::alloc::Global;
use std::sync::Wait;
use std::thread::{Threads, for_each_mut};
use turn_lock::{Seat, TurnLock};
use worker_server::WorkerEnd;

/// What serves the links of one poller, many at once.
#[derive(Drop)]
pub struct EventWorker<E, Q, C> {
    pub poller: Q,
    pub clock: C,
    pub seat: Seat<E>,
    /// How many links it takes on at most; 0 means 2^64 - 1.
    pub sessions: u64,
    /// How many links it served: those that were handed back with another end than `Crowded`.
    pub served: u64,
    pub end: WorkerEnd,
}

impl<E, Q, C> EventWorker<E, Q, C> {
    /// A worker that has not run yet, and takes so many links on at most; 0 means 2^64 - 1. Takes no memory.
    pub fn new(poller: Q, clock: C, seat: Seat<E>, sessions: u64) -> EventWorker<E, Q, C>
        ensures given { (result.poller ≡ poller) × (result.clock ≡ clock) × (result.seat ≡ seat) × (result.sessions ≡ sessions) }
        ensures ready { (result.served ≡ 0) × (result.end ≡ worker_end.NotRun) }
    {
        EventWorker {
            poller,
            clock,
            seat,
            sessions,
            served: 0,
            end: WorkerEnd::NotRun,
        }
    }
}

/// Runs all event workers at the same time, each in a thread of its own. When all have ended the first one's seat meets
/// each other's: it has then seen all that any of them has. Workers for which no thread can be started run in another's,
/// one after another. No worker at all is fine.
pub fn serve_events<
    R: Threads + Wait + Sync,
    E: Executor + Drop + Send,
    Q: Poller + Send,
    C: Clock + Send,
>(rt: &R, alloc: Global, lock: &TurnLock<E>, workers: &mut [EventWorker<E, Q, C>])
where
    Q::Link: Send,
    requires { All (λ w. w.seat.lock ≡ lock.now) workers.old }
    ensures { HaveServedEvents
        (λ link. linked (Q.Link.left link) (Q.Link.read_faults link) (Q.Link.sent link) (Q.Link.write_faults link) (Q.Link.refusals link) (Q.Link.agains link))
        (map (λ w. (member_state (event_state (poller_state (port_state (Q.links w.poller) (Q.returned w.poller) (Q.faults w.poller) (Q.refusals w.poller)) (Q.held w.poller)) (C.coming w.clock) w.seat) w.sessions w.served w.end)) workers.old)
        (map (λ w. (member_state (event_state (poller_state (port_state (Q.links w.poller) (Q.returned w.poller) (Q.faults w.poller) (Q.refusals w.poller)) (Q.held w.poller)) (C.coming w.clock) w.seat) w.sessions w.served w.end)) workers.new) }
{
    run_all(rt, alloc, lock, workers);
    if let Some((first, others)) = workers.split_first_mut() {
        meet_all(lock, &mut first.seat, others);
    }
}

// Runs one worker, and keeps how it ended.
fn run_alone<R: Wait, E: Executor + Drop, Q: Poller, C: Clock>(
    rt: &R,
    alloc: Global,
    lock: &TurnLock<E>,
    worker: &mut EventWorker<E, Q, C>,
)
    requires { worker.old.seat.lock ≡ lock.now }
    ensures { HasRunAlone
        (λ link. linked (Q.Link.left link) (Q.Link.read_faults link) (Q.Link.sent link) (Q.Link.write_faults link) (Q.Link.refusals link) (Q.Link.agains link))
        (member_state (event_state (poller_state (port_state (Q.links worker.old.poller) (Q.returned worker.old.poller) (Q.faults worker.old.poller) (Q.refusals worker.old.poller)) (Q.held worker.old.poller)) (C.coming worker.old.clock) worker.old.seat) worker.old.sessions worker.old.served worker.old.end)
        (member_state (event_state (poller_state (port_state (Q.links worker.new.poller) (Q.returned worker.new.poller) (Q.faults worker.new.poller) (Q.refusals worker.new.poller)) (Q.held worker.new.poller)) (C.coming worker.new.clock) worker.new.seat) worker.new.sessions worker.new.served worker.new.end) }
{
    let (end, served) = run_events(
        rt,
        alloc,
        lock,
        &mut worker.seat,
        &mut worker.poller,
        &mut worker.clock,
        worker.sessions,
    );
    worker.end = end;
    worker.served = served;
}

// Runs all workers, each in a thread of its own.
fn run_all<R: Threads + Wait + Sync, E: Executor + Drop + Send, Q: Poller + Send, C: Clock + Send>(
    rt: &R,
    alloc: Global,
    lock: &TurnLock<E>,
    workers: &mut [EventWorker<E, Q, C>],
)
where
    Q::Link: Send,
    requires { All (λ w. w.seat.lock ≡ lock.now) workers.old }
    ensures ran { AllRanEvents
        (λ link. linked (Q.Link.left link) (Q.Link.read_faults link) (Q.Link.sent link) (Q.Link.write_faults link) (Q.Link.refusals link) (Q.Link.agains link))
        (map (λ w. (member_state (event_state (poller_state (port_state (Q.links w.poller) (Q.returned w.poller) (Q.faults w.poller) (Q.refusals w.poller)) (Q.held w.poller)) (C.coming w.clock) w.seat) w.sessions w.served w.end)) workers.old)
        (map (λ w. (member_state (event_state (poller_state (port_state (Q.links w.poller) (Q.returned w.poller) (Q.faults w.poller) (Q.refusals w.poller)) (Q.held w.poller)) (C.coming w.clock) w.seat) w.sessions w.served w.end)) workers.new) }
    ensures own { All (λ w. w.seat.lock ≡ lock.now) workers.new }
{
    let threads = workers.len().max(1);
    let run = |_: usize, worker: &mut EventWorker<E, Q, C>|
        requires { IsSync R.row × IsSend E.row × IsSend Q.row × IsSend C.row × (worker.now.seat.lock ≡ lock.now) }
        ensures { HasRunAlone
            (λ link. linked (Q.Link.left link) (Q.Link.read_faults link) (Q.Link.sent link) (Q.Link.write_faults link) (Q.Link.refusals link) (Q.Link.agains link))
            (member_state (event_state (poller_state (port_state (Q.links worker.entry.now.poller) (Q.returned worker.entry.now.poller) (Q.faults worker.entry.now.poller) (Q.refusals worker.entry.now.poller)) (Q.held worker.entry.now.poller)) (C.coming worker.entry.now.clock) worker.entry.now.seat) worker.entry.now.sessions worker.entry.now.served worker.entry.now.end)
            (member_state (event_state (poller_state (port_state (Q.links worker.exit.now.poller) (Q.returned worker.exit.now.poller) (Q.faults worker.exit.now.poller) (Q.refusals worker.exit.now.poller)) (Q.held worker.exit.now.poller)) (C.coming worker.exit.now.clock) worker.exit.now.seat) worker.exit.now.sessions worker.exit.now.served worker.exit.now.end) }
    { run_alone(rt, alloc, lock, worker) };
    for_each_mut(rt, workers, threads, &run);
}

// The seat meets that of each worker.
fn meet_all<E: Executor + Drop, Q, C>(
    lock: &TurnLock<E>,
    seat: &mut Seat<E>,
    others: &mut [EventWorker<E, Q, C>],
)
    requires own { seat.old.lock ≡ lock.now }
    requires others { All (λ w. w.seat.lock ≡ lock.now) others.old }
    ensures met { HasMet seat.old (map (λ w. w.seat) others.old) seat.new }
    ensures same { others.new ≡ others.old }
{
    for place in 0..others.len() {
        lock.meet(seat, &mut others[place].seat);
    }
}

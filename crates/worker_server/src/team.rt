//! Runs workers side by side.
ghost use Rattle.std.specs.Prelude.{◌≡◌, All, map};
ghost use Rattle.std.specs.Thread.{IsSend, IsSync};
ghost use Rattle.arc_core.specs.Outside.{linked};
ghost use Rattle.worker_server.specs.Ports.{port_state};
ghost use Rattle.worker_server.specs.Workers.{worker_state, HasRun, AllRan, HaveServed, HasMet};

use crate::ports::Port;
use crate::worker::{Worker, run_worker};
use arc_core::{Clock, Executor};
use std::sync::Wait;
use std::thread::{Threads, for_each_mut};
use turn_lock::{Seat, TurnLock};

/// Runs all workers at the same time, each in a thread of its own. When all have ended the first one's seat meets each
/// other's: it has then seen all that any of them has. Workers for which no thread can be started run in another's, one
/// after another. No worker at all is fine.
pub fn serve_all<
    R: Threads + Wait + Sync,
    E: Executor + Drop + Send,
    P: Port + Send,
    C: Clock + Send,
>(rt: &R, lock: &TurnLock<E>, workers: &mut [Worker<E, P, C>])
where
    P::Link: Send,
    requires { All (λ w. w.seat.lock ≡ lock.now) workers.old }
    ensures { HaveServed
        (λ link. linked (P.Link.left link) (P.Link.read_faults link) (P.Link.sent link) (P.Link.write_faults link) (P.Link.refusals link) (P.Link.agains link))
        (map (λ w. worker_state (port_state (P.links w.port) (P.returned w.port) (P.faults w.port) (P.refusals w.port)) (C.coming w.clock) w.seat w.next w.sessions w.end) workers.old)
        (map (λ w. worker_state (port_state (P.links w.port) (P.returned w.port) (P.faults w.port) (P.refusals w.port)) (C.coming w.clock) w.seat w.next w.sessions w.end) workers.new) }
{
    run_all(rt, lock, workers);
    if let Some((first, others)) = workers.split_first_mut() {
        meet_all(lock, &mut first.seat, others);
    }
}

// Runs all workers, each in a thread of its own.
fn run_all<R: Threads + Wait + Sync, E: Executor + Drop + Send, P: Port + Send, C: Clock + Send>(
    rt: &R,
    lock: &TurnLock<E>,
    workers: &mut [Worker<E, P, C>],
)
where
    P::Link: Send,
    requires { All (λ w. w.seat.lock ≡ lock.now) workers.old }
    ensures ran { AllRan
        (λ link. linked (P.Link.left link) (P.Link.read_faults link) (P.Link.sent link) (P.Link.write_faults link) (P.Link.refusals link) (P.Link.agains link))
        (map (λ w. worker_state (port_state (P.links w.port) (P.returned w.port) (P.faults w.port) (P.refusals w.port)) (C.coming w.clock) w.seat w.next w.sessions w.end) workers.old)
        (map (λ w. worker_state (port_state (P.links w.port) (P.returned w.port) (P.faults w.port) (P.refusals w.port)) (C.coming w.clock) w.seat w.next w.sessions w.end) workers.new) }
    ensures own { All (λ w. w.seat.lock ≡ lock.now) workers.new }
{
    let threads = workers.len().max(1);
    let run = |_: usize, worker: &mut Worker<E, P, C>|
        requires { IsSync R.row × IsSend E.row × IsSend P.row × IsSend C.row × (worker.now.seat.lock ≡ lock.now) }
        ensures { HasRun
            (λ link. linked (P.Link.left link) (P.Link.read_faults link) (P.Link.sent link) (P.Link.write_faults link) (P.Link.refusals link) (P.Link.agains link))
            (worker_state (port_state (P.links worker.entry.now.port) (P.returned worker.entry.now.port) (P.faults worker.entry.now.port) (P.refusals worker.entry.now.port))
            (C.coming worker.entry.now.clock) worker.entry.now.seat worker.entry.now.next worker.entry.now.sessions worker.entry.now.end)
            (worker_state (port_state (P.links worker.exit.now.port) (P.returned worker.exit.now.port) (P.faults worker.exit.now.port) (P.refusals worker.exit.now.port))
            (C.coming worker.exit.now.clock) worker.exit.now.seat worker.exit.now.next worker.exit.now.sessions worker.exit.now.end) }
    { run_worker(rt, lock, worker) };
    for_each_mut(rt, workers, threads, &run);
}

// The seat meets that of each worker.
fn meet_all<E: Executor + Drop, P, C>(
    lock: &TurnLock<E>,
    seat: &mut Seat<E>,
    others: &mut [Worker<E, P, C>],
)
    requires own { seat.old.lock ≡ lock.now }
    requires others { All (λ w. w.seat.lock ≡ lock.now) others.old }
    ensures met { HasMet seat.old (map (λ w. w.seat) others.old) seat.new }
    ensures same { others.new ≡ others.old }
{
    for place in 0..others.len() {
        lock.meet(seat, &mut others[place].seat);
    }
}

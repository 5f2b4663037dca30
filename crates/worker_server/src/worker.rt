//! Workers, each of which serves the links of its port one after another.
ghost use Rattle.std.specs.Prelude.{◌≡◌, ◌==◌, ◌-◌, ◌^◌, IfOk, IfErr, if◌then◌else◌};
ghost use Rattle.arc_core.specs.Outside.{linked};
ghost use Rattle.pipe_session.specs.Turns.{IsFresh};
ghost use Rattle.worker_server.specs.declared.worker.WorkerEnd.TheVariants as worker_end;
ghost use Rattle.worker_server.specs.Ports.{port_state};
ghost use Rattle.worker_server.specs.Workers.{worker_state, HasRun};

use crate::ports::{Next, Port};
use crate::session::serve_session;
use arc_core::{Clock, Executor, NoMemory};
use pipe_session::Session;
use std::alloc::Global;
use std::sync::Wait;
use turn_lock::{Seat, TurnLock};

/// How a worker ended.
#[derive(Clone, Copy, Debug, PartialEq, Eq)]
pub enum WorkerEnd {
    /// It has not run yet.
    NotRun,
    /// No link is left.
    Closed,
    /// It has served as many sessions as it may.
    Limit,
    /// The port failed, which it has counted.
    PortFault,
    /// The port was refused memory, which it has counted.
    NoMemory,
}

/// What serves the links of one port, one after another.
#[derive(Drop)]
pub struct Worker<E, P, C> {
    pub port: P,
    pub clock: C,
    pub seat: Seat<E>,
    pub state: Session,
    /// How many links it handed back since it began to run. It is the number of the next session.
    pub next: u64,
    /// How many sessions it serves at most.
    pub sessions: u64,
    pub end: WorkerEnd,
}

impl<E, P, C> Worker<E, P, C> {
    /// A worker that has not run yet, and serves so many sessions at most; 0 means 2^64 - 1. It takes memory for one
    /// session. A refusal hands back what was given.
    pub fn new(
        alloc: Global,
        port: P,
        clock: C,
        seat: Seat<E>,
        sessions: u64,
    ) -> Result<Worker<E, P, C>, (P, C, Seat<E>, NoMemory)>
        ensures made { IfOk result (λ w. (w.port ≡ port) × (w.clock ≡ clock) × (w.seat ≡ seat)) }
        ensures ready { IfOk result (λ w. (w.next ≡ 0) × (w.end ≡ worker_end.NotRun)
            × (w.sessions ≡ (if sessions == 0 then 2 ^ 64 - 1 else sessions))) }
        ensures refused { IfErr result (λ back. (back.0 ≡ port) × (back.1 ≡ clock) × (back.2 ≡ seat)) }
    {
        let Ok(state) = Session::new(alloc) else {
            return Err((port, clock, seat, NoMemory));
        };
        Ok(Worker {
            port,
            clock,
            seat,
            state,
            next: 0,
            sessions: if sessions == 0 { u64::MAX } else { sessions },
            end: WorkerEnd::NotRun,
        })
    }
}

/// Serves the worker's links one after another, by sessions that are numbered from 0 on, and hands each back to the port
/// with the end of its session. It goes on until no link is left, the worker has served as many as it may, or the port
/// fails or is refused memory, and keeps that as the worker's end.
pub fn run_worker<R: Wait, E: Executor + Drop, P: Port, C: Clock>(
    rt: &R,
    lock: &TurnLock<E>,
    worker: &mut Worker<E, P, C>,
)
    requires { worker.old.seat.lock ≡ lock.now }
    ensures { HasRun
        (λ link. linked (P.Link.left link) (P.Link.read_faults link) (P.Link.sent link) (P.Link.write_faults link) (P.Link.refusals link) (P.Link.agains link))
        (worker_state (port_state (P.links worker.old.port) (P.returned worker.old.port) (P.faults worker.old.port) (P.refusals worker.old.port))
        (C.coming worker.old.clock) worker.old.seat worker.old.next worker.old.sessions worker.old.end)
        (worker_state (port_state (P.links worker.new.port) (P.returned worker.new.port) (P.faults worker.new.port) (P.refusals worker.new.port))
        (C.coming worker.new.clock) worker.new.seat worker.new.next worker.new.sessions worker.new.end) }
{
    worker.next = 0;
    while worker.next < worker.sessions {
        match worker.port.next() {
            Next::Link(mut link) => {
                let end = serve_session(
                    rt,
                    lock,
                    &mut worker.seat,
                    worker.next,
                    &mut worker.state,
                    &mut link,
                    &mut worker.clock,
                );
                worker.port.done(link, end);
                worker.next += 1;
            }
            Next::Closed => {
                worker.end = WorkerEnd::Closed;
                return;
            }
            Next::Failed => {
                worker.end = WorkerEnd::PortFault;
                return;
            }
            Next::NoMemory => {
                worker.end = WorkerEnd::NoMemory;
                return;
            }
        }
    }
    worker.end = WorkerEnd::Limit;
}

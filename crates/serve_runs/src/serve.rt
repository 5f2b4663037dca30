//! The run of a server.
ghost use Rattle.std.specs.Prelude.{◌≡◌, ◌≤◌, ◌+◌, ◌-◌, ◌==◌, ◌^◌, [], length, map, if◌then◌else◌};
ghost use Rattle.std.specs.Thread.{IsSend, IsSync};
ghost use Rattle.arc_core.specs.Outside.{linked, outgoing};
ghost use Rattle.worker_ports.specs.Hands.{PortsState, ports_state};
ghost use Rattle.worker_server.specs.Ports.{port_state};
ghost use Rattle.worker_team.specs.Team.{HasServedPort};
ghost use Rattle.serve_runs.specs.Serving.{Serves};
ghost use Rattle.serve_runs.specs.Ending.{EndsStopped, EndsServed};
ghost use Rattle.serve_runs.specs.Hiring.{HasStopped};

use crate::hiring::{Stop, hire_all, take_back};
use crate::verdict::{Verdict, verdict_on};
use crate::writing::write_total;
use arc_core::{Clock, Executor, Sink};
use std::alloc::Global;
use std::sync::Wait;
use std::thread::Threads;
use worker_ports::Ports;
use worker_server::Port;
use worker_team::Team;

/// What a server is run with.
#[derive(Clone, Copy, Debug, PartialEq, Eq)]
pub struct Serving {
    /// The number of the port that it listens on: 1 to 65,535.
    pub number: u16,
    /// How many workers there are, 1 to 4,096.
    pub workers: u32,
    /// How many sessions each serves at most; 0 means 2^64 - 1.
    pub sessions: u64,
}

/// How a run of a server ends.
#[derive(Clone, Copy, Debug, PartialEq, Eq)]
pub enum ServeEnd {
    /// All workers ended since no link was left, or since they had served as many as they may, and their number was written.
    Done,
    /// The sink failed. A front of the line was written.
    WriteFault,
    /// A port failed, or a call for one.
    PortFault,
    /// Memory was refused.
    NoMemory,
}

/// Runs a server over this executor: has connections to the number come to the ports, takes a port for each worker, runs all
/// workers side by side, each with a clock that goes on as this one, takes the ports back, and writes how many sessions were
/// served, as the line `sessions=<number>`, with LF.
///
/// It goes on until no worker has a link left or each has served as many as it may. `PortFault` comes only where the ports have
/// counted a fault, `WriteFault` where the sink has. Where a call for a port is refused no worker runs, and the ports that were
/// handed out come back as they were. It may wait. (This server's own.)
pub fn serve_ports<
    R: Threads + Wait + Sync,
    E: Executor + Drop + Send,
    Q: Ports,
    K: Sink,
    C: Clock + Drop + Send,
>(
    rt: &R,
    alloc: Global,
    executor: E,
    job: Serving,
    ports: &mut Q,
    sink: &mut K,
    clock: &C,
) -> ServeEnd
where
    Q::Port: Send + Drop,
    <Q::Port as Port>::Link: Send,
    requires { job.workers ≤ 4096 }
    ensures { Serves (HasServedPort
        (λ link. linked (Q.Port.Link.left link) (Q.Port.Link.read_faults link) (Q.Port.Link.sent link) (Q.Port.Link.write_faults link) (Q.Port.Link.refusals link) (Q.Port.Link.agains link))
        (λ port. port_state (Q.Port.links port) (Q.Port.returned port) (Q.Port.faults port) (Q.Port.refusals port)) C.coming)
        (λ port. port_state (Q.Port.links port) (Q.Port.returned port) (Q.Port.faults port) (Q.Port.refusals port))
        C.coming result (E.state executor) job.workers (if job.sessions == 0 then 2 ^ 64 - 1 else job.sessions) (C.coming clock.now)
        (ports_state (Q.waiting ports.old) (Q.taken_back ports.old) (Q.out ports.old) (Q.faults ports.old) (Q.refusals ports.old))
        (ports_state (Q.waiting ports.new) (Q.taken_back ports.new) (Q.out ports.new) (Q.faults ports.new) (Q.refusals ports.new))
        (outgoing (K.sent sink.old) (K.write_faults sink.old) (K.refusals sink.old)) (outgoing (K.sent sink.new) (K.write_faults sink.new) (K.refusals sink.new)) }
{
    let Ok(mut team) = Team::new(alloc, executor, job.workers as usize) else {
        return ServeEnd::NoMemory;
    };
    let Ok(()) = ports.bind(job.number) else {
        return ServeEnd::PortFault;
    };
    match hire_all(&mut team, job.workers, job.sessions, ports, clock) {
        Ok(()) => run_team(rt, alloc, team, ports, sink),
        Err(stop) => send_away(team, stop, ports),
    }
}

// Sends the workers away that were hired, none of which has run, and takes all ports back.
fn send_away<E: Executor + Drop, Q: Ports, C: Clock + Drop>(
    team: Team<E, Q::Port, C>,
    stop: Stop<Q::Port>,
    ports: &mut Q,
) -> ServeEnd
where
    Q::Port: Drop,
    requires { (before : PortsState Q.Port) × HasStopped (λ port. port_state (Q.Port.links port) (Q.Port.returned port) (Q.Port.faults port) (Q.Port.refusals port)) before
        (ports_state (Q.waiting ports.old) (Q.taken_back ports.old) (Q.out ports.old) (Q.faults ports.old) (Q.refusals ports.old)) team.workers stop }
    ensures { EndsStopped (λ port. port_state (Q.Port.links port) (Q.Port.returned port) (Q.Port.faults port) (Q.Port.refusals port))
        (ports_state (Q.waiting ports.old) (Q.taken_back ports.old) (Q.out ports.old) (Q.faults ports.old) (Q.refusals ports.old))
        (ports_state (Q.waiting ports.new) (Q.taken_back ports.new) (Q.out ports.new) (Q.faults ports.new) (Q.refusals ports.new)) (map (λ w. w.port) team.workers) stop result }
{
    take_back(ports, team.dismiss());
    match stop {
        Stop::Failed => ServeEnd::PortFault,
        Stop::Refused => ServeEnd::NoMemory,
        Stop::NoWorker(port) => {
            ports.back(port);
            ServeEnd::NoMemory
        }
    }
}

// Runs the workers, takes their ports back, and writes how many sessions they have served.
fn run_team<
    R: Threads + Wait + Sync,
    E: Executor + Drop + Send,
    Q: Ports,
    K: Sink,
    C: Clock + Drop + Send,
>(rt: &R, alloc: Global, team: Team<E, Q::Port, C>, ports: &mut Q, sink: &mut K) -> ServeEnd
where
    Q::Port: Send + Drop,
    <Q::Port as Port>::Link: Send,
    requires few { length team.workers ≤ 4096 }
    requires out { length team.workers ≤ Q.out ports.old }
    ensures { EndsServed (HasServedPort
        (λ link. linked (Q.Port.Link.left link) (Q.Port.Link.read_faults link) (Q.Port.Link.sent link) (Q.Port.Link.write_faults link) (Q.Port.Link.refusals link) (Q.Port.Link.agains link))
        (λ port. port_state (Q.Port.links port) (Q.Port.returned port) (Q.Port.faults port) (Q.Port.refusals port)) C.coming)
        (λ port. port_state (Q.Port.links port) (Q.Port.returned port) (Q.Port.faults port) (Q.Port.refusals port))
        team.opening team.workers
        (ports_state (Q.waiting ports.old) (Q.taken_back ports.old) (Q.out ports.old) (Q.faults ports.old) (Q.refusals ports.old))
        (ports_state (Q.waiting ports.new) (Q.taken_back ports.new) (Q.out ports.new) (Q.faults ports.new) (Q.refusals ports.new))
        (outgoing (K.sent sink.old) (K.write_faults sink.old) (K.refusals sink.old)) (outgoing (K.sent sink.new) (K.write_faults sink.new) (K.refusals sink.new)) result }
{
    let (_executor, members) = team.serve(rt);
    let verdict = verdict_on(&members);
    take_back(ports, members);
    match verdict {
        Verdict::PortFault => ServeEnd::PortFault,
        Verdict::NoMemory => ServeEnd::NoMemory,
        Verdict::Well(total) => write_total(alloc, total, sink),
    }
}

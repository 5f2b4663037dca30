//! The run of a server of event workers.
ghost use Rattle.std.specs.Prelude.{◌≡◌, ◌≤◌, ◌-◌, ◌==◌, ◌^◌, length, if◌then◌else◌};
ghost use Rattle.std.specs.Thread.{IsSend, IsSync};
ghost use Rattle.arc_core.specs.Outside.{linked, outgoing};
ghost use Rattle.event_port.specs.Pollers.{poller_state};
ghost use Rattle.event_team.specs.Served.{HasServedPoller};
ghost use Rattle.worker_ports.specs.Hands.{ports_state};
ghost use Rattle.worker_server.specs.Ports.{port_state};
ghost use Rattle.serve_runs.specs.Serving.{Serves};
ghost use Rattle.serve_runs.specs.Ending.{EndsServed};

use crate::hiring::{hire_all, take_back};
use arc_core::{Clock, Executor, Sink};
use event_port::Poller;
use event_ports::EventPorts;
use event_team::EventTeam;
use serve_runs::{ServeEnd, Serving, Verdict, verdict_on, write_total};
use std::alloc::Global;
use std::sync::Wait;
use std::thread::Threads;

/// Runs a server over this executor, whose workers serve many links at once: has connections to the number come to the pollers,
/// takes a poller for each worker, runs all workers side by side, each with a clock that goes on as this one, takes the pollers
/// back, and writes how many sessions were served, as the line `sessions=<number>`, with LF. Links that were turned away as
/// `Crowded` are not counted.
///
/// It goes on until no worker has a link left or each has taken on as many as it may and none is open. `PortFault` comes only
/// where the ports have counted a fault, `WriteFault` where the sink has. Where a call for a poller is refused no worker runs,
/// and the pollers that were handed out come back as they were. It may wait. (This server's own.)
pub fn serve_pollers<
    R: Threads + Wait + Sync,
    E: Executor + Drop + Send,
    Q: EventPorts,
    K: Sink,
    C: Clock + Drop + Send,
>(
    rt: &R,
    alloc: Global,
    executor: E,
    job: Serving,
    ports: &mut Q,
    sink: &mut K,
    clock: &C,
) -> ServeEnd
where
    Q::Poller: Send + Drop,
    <Q::Poller as Poller>::Link: Send,
    requires { job.workers ≤ 4096 }
    ensures { Serves (HasServedPoller
        (λ link. linked (Q.Poller.Link.left link) (Q.Poller.Link.read_faults link) (Q.Poller.Link.sent link) (Q.Poller.Link.write_faults link) (Q.Poller.Link.refusals link) (Q.Poller.Link.agains link))
        (λ poller. poller_state (port_state (Q.Poller.links poller) (Q.Poller.returned poller) (Q.Poller.faults poller) (Q.Poller.refusals poller)) (Q.Poller.held poller)) C.coming)
        (λ poller. port_state (Q.Poller.links poller) (Q.Poller.returned poller) (Q.Poller.faults poller) (Q.Poller.refusals poller))
        C.coming result (E.state executor) job.workers (if job.sessions == 0 then 2 ^ 64 - 1 else job.sessions) (C.coming clock.now)
        (ports_state (Q.pollers_waiting ports.old) (Q.pollers_back ports.old) (Q.pollers_out ports.old) (Q.faults ports.old) (Q.refusals ports.old))
        (ports_state (Q.pollers_waiting ports.new) (Q.pollers_back ports.new) (Q.pollers_out ports.new) (Q.faults ports.new) (Q.refusals ports.new))
        (outgoing (K.sent sink.old) (K.write_faults sink.old) (K.refusals sink.old)) (outgoing (K.sent sink.new) (K.write_faults sink.new) (K.refusals sink.new)) }
{
    let Ok(mut team) = EventTeam::new(alloc, executor, job.workers as usize) else {
        return ServeEnd::NoMemory;
    };
    let Ok(()) = ports.bind_pollers(job.number) else {
        return ServeEnd::PortFault;
    };
    match hire_all(&mut team, job.workers, job.sessions, ports, clock) {
        Ok(()) => run_team(rt, alloc, team, ports, sink),
        Err(end) => {
            take_back(ports, team.dismiss());
            end
        }
    }
}

// Runs the workers, takes their pollers back, and writes how many sessions they have served.
fn run_team<
    R: Threads + Wait + Sync,
    E: Executor + Drop + Send,
    Q: EventPorts,
    K: Sink,
    C: Clock + Drop + Send,
>(rt: &R, alloc: Global, team: EventTeam<E, Q::Poller, C>, ports: &mut Q, sink: &mut K) -> ServeEnd
where
    Q::Poller: Send + Drop,
    <Q::Poller as Poller>::Link: Send,
    requires few { length team.workers ≤ 4096 }
    requires out { length team.workers ≤ Q.pollers_out ports.old }
    ensures { EndsServed (HasServedPoller
        (λ link. linked (Q.Poller.Link.left link) (Q.Poller.Link.read_faults link) (Q.Poller.Link.sent link) (Q.Poller.Link.write_faults link) (Q.Poller.Link.refusals link) (Q.Poller.Link.agains link))
        (λ poller. poller_state (port_state (Q.Poller.links poller) (Q.Poller.returned poller) (Q.Poller.faults poller) (Q.Poller.refusals poller)) (Q.Poller.held poller)) C.coming)
        (λ poller. port_state (Q.Poller.links poller) (Q.Poller.returned poller) (Q.Poller.faults poller) (Q.Poller.refusals poller))
        team.opening team.workers
        (ports_state (Q.pollers_waiting ports.old) (Q.pollers_back ports.old) (Q.pollers_out ports.old) (Q.faults ports.old) (Q.refusals ports.old))
        (ports_state (Q.pollers_waiting ports.new) (Q.pollers_back ports.new) (Q.pollers_out ports.new) (Q.faults ports.new) (Q.refusals ports.new))
        (outgoing (K.sent sink.old) (K.write_faults sink.old) (K.refusals sink.old)) (outgoing (K.sent sink.new) (K.write_faults sink.new) (K.refusals sink.new)) result }
{
    let (_executor, members) = team.serve(rt);
    let verdict = verdict_on(&members);
    take_back(ports, members);
    match verdict {
        Verdict::PortFault => ServeEnd::PortFault,
        Verdict::NoMemory => ServeEnd::NoMemory,
        Verdict::Well(total) => write_total(alloc, total, sink),
    }
}

//! Hires a worker for each port.
ghost use Rattle.std.specs.Prelude.{◌≡◌, ◌≤◌, ◌+◌, ◌-◌, ◌==◌, ◌^◌, [], length, map, if◌then◌else◌, MatchResult};
ghost use Rattle.worker_ports.specs.Hands.{ports_state};
ghost use Rattle.worker_server.specs.Ports.{port_state};
ghost use Rattle.serve_runs.specs.Hiring.{HasHired, HasStopped};
ghost use Rattle.serve_runs.specs.Serving.{TakesThrough};

use arc_core::{Clock, Executor};
use worker_ports::{Handed, Ports};
use worker_server::Port;
use worker_team::{Member, Team};

/// Why not all workers were hired.
#[derive(Drop)]
pub(crate) enum Stop<P> {
    /// A call for a port failed, and was counted.
    Failed,
    /// A call for a port was refused memory, and that was counted.
    Refused,
    /// There is no memory for the worker of this port, which was handed out last.
    NoWorker(P),
}

/// Hires so many workers for a team that has none, each for a port that is handed out, with a clock that goes on as this one.
pub(crate) fn hire_all<E: Executor + Drop, Q: Ports, C: Clock + Drop>(
    team: &mut Team<E, Q::Port, C>,
    workers: u32,
    sessions: u64,
    ports: &mut Q,
    clock: &C,
) -> Result<(), Stop<Q::Port>>
where
    Q::Port: Drop,
    requires none { team.old.workers ≡ [] }
    requires room { workers ≤ team.old.room }
    requires few { workers ≤ 4096 }
    ensures opening { team.new.opening ≡ team.old.opening }
    ensures hired { MatchResult result
        (λ _. HasHired (λ port. port_state (Q.Port.links port) (Q.Port.returned port) (Q.Port.faults port) (Q.Port.refusals port)) C.coming workers
        (if sessions == 0 then 2 ^ 64 - 1 else sessions) (C.coming clock.now)
        (ports_state (Q.waiting ports.old) (Q.taken_back ports.old) (Q.out ports.old) (Q.faults ports.old) (Q.refusals ports.old))
        (ports_state (Q.waiting ports.new) (Q.taken_back ports.new) (Q.out ports.new) (Q.faults ports.new) (Q.refusals ports.new)) team.new.workers)
        (λ stop. HasStopped (λ port. port_state (Q.Port.links port) (Q.Port.returned port) (Q.Port.faults port) (Q.Port.refusals port))
        (ports_state (Q.waiting ports.old) (Q.taken_back ports.old) (Q.out ports.old) (Q.faults ports.old) (Q.refusals ports.old))
        (ports_state (Q.waiting ports.new) (Q.taken_back ports.new) (Q.out ports.new) (Q.faults ports.new) (Q.refusals ports.new)) team.new.workers stop) }
{
    for _ in 0..workers {
        match ports.hand() {
            Handed::Port(port) => match team.hire(port, clock.twin(), sessions) {
                Ok(()) => {}
                Err(port) => return Err(Stop::NoWorker(port)),
            },
            Handed::Failed => return Err(Stop::Failed),
            Handed::NoMemory => return Err(Stop::Refused),
        }
    }
    Ok(())
}

/// Takes the ports of these back.
pub(crate) fn take_back<Q: Ports>(ports: &mut Q, members: Vec<Member<Q::Port>>)
where
    Q::Port: Drop,
    requires { length members.items ≤ Q.out ports.old }
    ensures { TakesThrough (λ port. port_state (Q.Port.links port) (Q.Port.returned port) (Q.Port.faults port) (Q.Port.refusals port))
        (ports_state (Q.waiting ports.old) (Q.taken_back ports.old) (Q.out ports.old) (Q.faults ports.old) (Q.refusals ports.old))
        (map (λ m. m.port) members.items)
        (ports_state (Q.waiting ports.new) (Q.taken_back ports.new) (Q.out ports.new) (Q.faults ports.new) (Q.refusals ports.new)) }
{
    for member in members {
        ports.back(member.port);
    }
}

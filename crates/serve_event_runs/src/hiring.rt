//! Hires a worker for each poller.
ghost use Rattle.std.specs.Prelude.{◌≡◌, ◌≤◌, ◌-◌, ◌==◌, ◌^◌, [], length, map, if◌then◌else◌, MatchResult};
ghost use Rattle.worker_ports.specs.Hands.{ports_state};
ghost use Rattle.worker_server.specs.Ports.{port_state};
ghost use Rattle.serve_runs.specs.Hiring.{HasHired};
ghost use Rattle.serve_runs.specs.Serving.{TakesThrough};
ghost use Rattle.serve_event_runs.specs.Hiring.{HasBeenRefused};

use arc_core::{Clock, Executor};
use event_ports::EventPorts;
use event_team::EventTeam;
use serve_runs::ServeEnd;
use worker_ports::Handed;
use worker_team::Member;

/// Hires so many workers for a team that has none, each for a poller that is handed out, with a clock that goes on as this one.
/// Where a poller cannot be had it answers how the run ends.
pub(crate) fn hire_all<E: Executor + Drop, Q: EventPorts, C: Clock + Drop>(
    team: &mut EventTeam<E, Q::Poller, C>,
    workers: u32,
    sessions: u64,
    ports: &mut Q,
    clock: &C,
) -> Result<(), ServeEnd>
where
    Q::Poller: Drop,
    requires none { team.old.workers ≡ [] }
    requires room { workers ≤ team.old.room }
    requires few { workers ≤ 4096 }
    ensures opening { team.new.opening ≡ team.old.opening }
    ensures hired { MatchResult result
        (λ _. HasHired (λ poller. port_state (Q.Poller.links poller) (Q.Poller.returned poller) (Q.Poller.faults poller) (Q.Poller.refusals poller)) C.coming workers
        (if sessions == 0 then 2 ^ 64 - 1 else sessions) (C.coming clock.now)
        (ports_state (Q.pollers_waiting ports.old) (Q.pollers_back ports.old) (Q.pollers_out ports.old) (Q.faults ports.old) (Q.refusals ports.old))
        (ports_state (Q.pollers_waiting ports.new) (Q.pollers_back ports.new) (Q.pollers_out ports.new) (Q.faults ports.new) (Q.refusals ports.new)) team.new.workers)
        (λ ended. HasBeenRefused (λ poller. port_state (Q.Poller.links poller) (Q.Poller.returned poller) (Q.Poller.faults poller) (Q.Poller.refusals poller)) ended
        (ports_state (Q.pollers_waiting ports.old) (Q.pollers_back ports.old) (Q.pollers_out ports.old) (Q.faults ports.old) (Q.refusals ports.old))
        (ports_state (Q.pollers_waiting ports.new) (Q.pollers_back ports.new) (Q.pollers_out ports.new) (Q.faults ports.new) (Q.refusals ports.new)) team.new.workers) }
{
    for _ in 0..workers {
        match ports.hand_poller() {
            Handed::Port(poller) => team.hire(poller, clock.twin(), sessions),
            Handed::Failed => return Err(ServeEnd::PortFault),
            Handed::NoMemory => return Err(ServeEnd::NoMemory),
        }
    }
    Ok(())
}

/// Takes the pollers of these back.
pub(crate) fn take_back<Q: EventPorts>(ports: &mut Q, members: Vec<Member<Q::Poller>>)
where
    Q::Poller: Drop,
    requires { length members.items ≤ Q.pollers_out ports.old }
    ensures { TakesThrough (λ poller. port_state (Q.Poller.links poller) (Q.Poller.returned poller) (Q.Poller.faults poller) (Q.Poller.refusals poller))
        (ports_state (Q.pollers_waiting ports.old) (Q.pollers_back ports.old) (Q.pollers_out ports.old) (Q.faults ports.old) (Q.refusals ports.old))
        (map (λ m. m.port) members.items)
        (ports_state (Q.pollers_waiting ports.new) (Q.pollers_back ports.new) (Q.pollers_out ports.new) (Q.faults ports.new) (Q.refusals ports.new)) }
{
    for member in members {
        ports.back_poller(member.port);
    }
}

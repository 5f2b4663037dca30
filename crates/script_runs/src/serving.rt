//! Serves the sessions of a script, and writes what came of them.
ghost use Rattle.std.specs.Prelude.{◌≡◌, ◌≤◌, List, ℕ, length, map};
ghost use Rattle.arc_core.specs.Outside.{linked, outgoing};
ghost use Rattle.sink_writes.specs.Writing.{Writes};
ghost use Rattle.script_runs.specs.Output.{Outcome, output_of};
ghost use Rattle.script_runs.specs.Serving.{EndsText, IsServable, Stands, AllStand, any_stopped, has_stopped, end_of};

use crate::dealing::{ScriptPort, hire_all};
use crate::output::write_outcome;
use crate::run::RunEnd;
use arc_core::{Clock, End, Executor, Link, Sink, SteadyLink};
use sink_writes::Unwritten;
use std::alloc::Global;
use std::sync::Wait;
use std::thread::Threads;
use worker_server::{Port, WorkerEnd, sessions_are_apart};
use worker_team::{Member, Team};

/// Serves the sessions of a script, each a link to which nothing was sent, and writes what came of them, in order.
pub(crate) fn serve_sessions<
    R: Threads + Wait + Sync,
    E: Executor + Drop + Send,
    K: Sink,
    C: Clock + Drop + Send,
>(
    rt: &R,
    alloc: Global,
    executor: E,
    workers: u32,
    links: Vec<SteadyLink>,
    sink: &mut K,
    clock: &C,
) -> RunEnd
    requires at_least { 1 ≤ workers }
    requires at_most { workers ≤ 4096 }
    requires servable { (text : List ℕ) × IsServable
        (λ link. linked (⟦<SteadyLink as Link>⟧.left link) (⟦<SteadyLink as Link>⟧.read_faults link) (⟦<SteadyLink as Link>⟧.sent link) (⟦<SteadyLink as Link>⟧.write_faults link) (⟦<SteadyLink as Link>⟧.refusals link) (⟦<SteadyLink as Link>⟧.agains link))
        text links.items }
    ensures { (text : List ℕ) → IsServable
        (λ link. linked (⟦<SteadyLink as Link>⟧.left link) (⟦<SteadyLink as Link>⟧.read_faults link) (⟦<SteadyLink as Link>⟧.sent link) (⟦<SteadyLink as Link>⟧.write_faults link) (⟦<SteadyLink as Link>⟧.refusals link) (⟦<SteadyLink as Link>⟧.agains link))
        text links.items → EndsText (E.state executor) workers (C.coming clock.now) text
        (outgoing (K.sent sink.old) (K.write_faults sink.old) (K.refusals sink.old))
        (outgoing (K.sent sink.new) (K.write_faults sink.new) (K.refusals sink.new)) result }
{
    let number = links.len();
    let Ok(mut team) = Team::new(alloc, executor, workers as usize) else {
        return RunEnd::NoMemory;
    };
    let Ok(()) = hire_all(alloc, &mut team, workers, links, clock) else {
        return RunEnd::NoMemory;
    };
    let (_executor, members) = team.serve(rt);
    sessions_are_apart::<SteadyLink>();
    if any_stopped(&members) {
        // The port of a worker was refused memory.
        return RunEnd::NoMemory;
    }
    end_of(write_outcomes(alloc, &members, number, sink))
}

// How a run ends by how its output was written.
fn end_of(written: Result<(), Unwritten>) -> RunEnd
    ensures { result ≡ end_of written }
{
    match written {
        Ok(()) => RunEnd::Done,
        Err(Unwritten::Failed) => RunEnd::WriteFault,
        Err(Unwritten::NoMemory) => RunEnd::NoMemory,
    }
}

// Whether any of these ended otherwise than since no link was left.
fn any_stopped<P>(members: &[Member<P>]) -> bool
    ensures { result ≡ any_stopped members.now }
{
    members.iter().any(|member| has_stopped(member.end))
}

// Whether a worker ended otherwise than since no link was left.
fn has_stopped(end: WorkerEnd) -> bool
    ensures { result ≡ has_stopped end }
{
    !matches!(end, WorkerEnd::Closed)
}

// Writes what came of so many sessions, in order.
fn write_outcomes<K: Sink>(
    alloc: Global,
    members: &[Member<ScriptPort>],
    number: usize,
    sink: &mut K,
) -> Result<(), Unwritten>
    requires { (outcomes : List Outcome) × (length outcomes ≡ number)
        × AllStand ⟦<SteadyLink as Link>⟧.sent ⟦<ScriptPort as Port>⟧.returned (length members.now) (map (λ m. m.port) members.now) 0 outcomes }
    ensures { (outcomes : List Outcome) → length outcomes ≡ number
        → AllStand ⟦<SteadyLink as Link>⟧.sent ⟦<ScriptPort as Port>⟧.returned (length members.now) (map (λ m. m.port) members.now) 0 outcomes
        → Writes (outgoing (K.sent sink.old) (K.write_faults sink.old) (K.refusals sink.old)) (output_of outcomes)
        (outgoing (K.sent sink.new) (K.write_faults sink.new) (K.refusals sink.new)) result }
{
    for session in 0..number {
        let (end, sent) = outcome_at(members, session);
        match write_outcome(alloc, session, end, sent, sink) {
            Ok(()) => {}
            Err(fault) => return Err(fault),
        }
    }
    Ok(())
}

// What came of the session with this number: how it ended, and what was sent.
fn outcome_at(members: &[Member<ScriptPort>], number: usize) -> (End, &[u8])
    requires { (outcome : Outcome)
        × Stands ⟦<SteadyLink as Link>⟧.sent ⟦<ScriptPort as Port>⟧.returned (length members.now) (map (λ m. m.port) members.now) number outcome }
    ensures { (outcome : Outcome)
        → Stands ⟦<SteadyLink as Link>⟧.sent ⟦<ScriptPort as Port>⟧.returned (length members.now) (map (λ m. m.port) members.now) number outcome
        → (result.0 ≡ outcome.ended) × (result.1.now ≡ outcome.sent) }
{
    let member = &members[number % members.len()];
    let (link, end) = &member.port.returned()[number / members.len()];
    (*end, link.sent())
}

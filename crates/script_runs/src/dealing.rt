//! Deals the sessions of a script to workers.
ghost use Rattle.std.specs.Prelude.{◌≡◌, ◌≤◌, ◌<◌, [], map, IfOk};
ghost use Rattle.worker_server.specs.Ports.{port_state};
ghost use Rattle.script_runs.specs.Dealing.{AreDealt, HasHired};

use arc_core::{Clock, Executor, NoMemory, SteadyLink};
use std::alloc::{AllocError, Global};
use worker_server::{Port, SteadyPort};
use worker_team::Team;

/// Where a worker's sessions come from and go back to.
pub(crate) type ScriptPort = SteadyPort<SteadyLink>;

// So many empty hands.
fn empty_hands<L: Drop>(alloc: Global, workers: usize) -> Result<Vec<Vec<L>>, AllocError>
    ensures { IfOk result (λ hands. AreDealt workers [] (map (λ hand. hand.items) hands.items)) }
{
    let mut hands = Vec::new(alloc);
    for _ in 0..workers {
        hands.push(Vec::new(alloc))?;
    }
    Ok(hands)
}

// Deals these to so many workers, one after another and round again.
fn deal<L: Drop>(alloc: Global, workers: usize, all: Vec<L>) -> Result<Vec<Vec<L>>, AllocError>
    requires { 0 < workers }
    ensures { IfOk result (λ hands. AreDealt workers all.items (map (λ hand. hand.items) hands.items)) }
{
    let mut hands = empty_hands(alloc, workers)?;
    let mut number = 0;
    for one in all {
        hands[number % workers].push(one)?;
        number += 1;
    }
    Ok(hands)
}

/// Hires so many workers for a team that has none, deals these links to them, and gives each a clock that goes on as this one.
/// `NoMemory` comes for want of memory alone.
pub(crate) fn hire_all<E: Executor + Drop, C: Clock + Drop>(
    alloc: Global,
    team: &mut Team<E, ScriptPort, C>,
    workers: u32,
    links: Vec<SteadyLink>,
    clock: &C,
) -> Result<(), NoMemory>
    requires none { team.old.workers ≡ [] }
    requires some { 1 ≤ workers }
    requires room { workers ≤ team.old.room }
    requires few { workers ≤ 4096 }
    ensures opening { team.new.opening ≡ team.old.opening }
    ensures hired { IfOk result (λ _. HasHired
        (λ port. port_state (⟦<ScriptPort as Port>⟧.links port) (⟦<ScriptPort as Port>⟧.returned port) (⟦<ScriptPort as Port>⟧.faults port) (⟦<ScriptPort as Port>⟧.refusals port))
        C.coming workers (C.coming clock.now) links.items team.new.workers) }
{
    let Ok(hands) = deal(alloc, workers as usize, links) else {
        return Err(NoMemory);
    };
    for hand in hands {
        match team.hire(SteadyPort::new(alloc, hand), clock.twin(), 0) {
            Ok(()) => {}
            Err(_) => return Err(NoMemory),
        }
    }
    Ok(())
}

//! The top call over an outside that is given and handed back.
ghost use Rattle.std.specs.Prelude.{◌≡◌, map, string_bytes};
ghost use Rattle.arc_core.specs.Outside.{linked, incoming, outgoing};
ghost use Rattle.arcus_tool.specs.Running.{around, Runs};
ghost use Rattle.event_port.specs.Pollers.{poller_state};
ghost use Rattle.pipe_session.specs.Outside.{outside};
ghost use Rattle.worker_ports.specs.Hands.{ports_state};
ghost use Rattle.worker_server.specs.Ports.{port_state};

use arc_core::{Clock, Sink, Source};
use arcus_tool::{Status, World, run};
use event_port::Poller;
use event_ports::EventPorts;
use std::alloc::Global;
use std::sync::Wait;
use std::thread::Threads;
use worker_server::Port;

/// How the program ended, and the outside that it left.
#[derive(Drop)]
pub struct Played<S, K, P, C> {
    /// How it ended.
    pub status: Status,
    /// What is left of the input, what was sent, the ports, and the clock with the seconds that are still to come.
    pub world: World<S, K, P, C>,
}

/// Does what the words say, and hands the outside back with the status.
///
/// It is one call of `run`, with the same words and the same outside: nothing is read, sent or asked before it or behind
/// it. It waits where `run` does, and its statuses are those of `run`. (This server's own.)
pub fn play<R: Threads + Wait + Sync, S: Source, K: Sink, P: EventPorts, C: Clock + Drop + Send>(
    rt: &R,
    alloc: Global,
    words: &[String],
    world: World<S, K, P, C>,
) -> Played<S, K, P, C>
where
    P::Port: Send + Drop,
    <P::Port as Port>::Link: Send,
    P::Poller: Send + Drop,
    <P::Poller as Poller>::Link: Send,
    ensures { Runs
        (λ link. linked (P.Port.Link.left link) (P.Port.Link.read_faults link) (P.Port.Link.sent link) (P.Port.Link.write_faults link) (P.Port.Link.refusals link) (P.Port.Link.agains link))
        (λ port. port_state (P.Port.links port) (P.Port.returned port) (P.Port.faults port) (P.Port.refusals port))
        (λ link. linked (P.Poller.Link.left link) (P.Poller.Link.read_faults link) (P.Poller.Link.sent link) (P.Poller.Link.write_faults link) (P.Poller.Link.refusals link) (P.Poller.Link.agains link))
        (λ poller. poller_state (port_state (P.Poller.links poller) (P.Poller.returned poller) (P.Poller.faults poller) (P.Poller.refusals poller)) (P.Poller.held poller))
        C.coming (map string_bytes words.now)
        (around (outside (incoming (S.left world.source) (S.read_faults world.source))
        (outgoing (K.sent world.sink) (K.write_faults world.sink) (K.refusals world.sink)) (C.coming world.clock))
        (ports_state (P.waiting world.ports) (P.taken_back world.ports) (P.out world.ports) (P.faults world.ports) (P.refusals world.ports))
        (ports_state (P.pollers_waiting world.ports) (P.pollers_back world.ports) (P.pollers_out world.ports) (P.faults world.ports) (P.refusals world.ports)))
        (around (outside (incoming (S.left result.world.source) (S.read_faults result.world.source))
        (outgoing (K.sent result.world.sink) (K.write_faults result.world.sink) (K.refusals result.world.sink)) (C.coming result.world.clock))
        (ports_state (P.waiting result.world.ports) (P.taken_back result.world.ports) (P.out result.world.ports) (P.faults result.world.ports) (P.refusals result.world.ports))
        (ports_state (P.pollers_waiting result.world.ports) (P.pollers_back result.world.ports) (P.pollers_out result.world.ports) (P.faults result.world.ports) (P.refusals result.world.ports)))
        result.status }
{
    let mut world = world;
    let status = run(rt, alloc, words, &mut world);
    Played { status, world }
}

//! The top call: all that the program does.
ghost use Rattle.std.specs.Prelude.{◌≡◌, map, string_bytes};
ghost use Rattle.arc_core.specs.Outside.{linked, incoming, outgoing};
ghost use Rattle.event_port.specs.Pollers.{poller_state};
ghost use Rattle.pipe_session.specs.Outside.{outside};
ghost use Rattle.worker_ports.specs.Hands.{ports_state};
ghost use Rattle.worker_server.specs.Ports.{port_state};
ghost use Rattle.arcus_tool.specs.Running.{around, Runs, IfRefused};

use crate::scripts::many;
use crate::serving::serve;
use crate::sessions::session;
use crate::status::Status;
use arc_core::{Clock, Sink, Source};
use event_port::Poller;
use event_ports::EventPorts;
use program_words::{BadWords, Job, read_words};
use std::alloc::Global;
use std::sync::Wait;
use std::thread::Threads;
use worker_server::Port;

/// The outside that a job is given.
#[derive(Drop)]
pub struct World<S, K, P, C> {
    /// Where input comes from.
    pub source: S,
    /// Where output goes to.
    pub sink: K,
    /// Where connections come from.
    pub ports: P,
    /// What tells the second.
    pub clock: C,
}

/// Does what the words say, and tells how it ended.
///
/// `session` is one session from the source to the sink; `many` the sessions of a script, which is read from the source, by
/// several workers over one cache; `serve` a server over the ports. `BadWords` comes exactly where `read_words` gives it, and
/// nothing is done then. The other statuses are those of `session`, `many` and `serve`. A session always returns; the others
/// may wait.
pub fn run<R: Threads + Wait + Sync, S: Source, K: Sink, P: EventPorts, C: Clock + Drop + Send>(
    rt: &R,
    alloc: Global,
    words: &[String],
    world: &mut World<S, K, P, C>,
) -> Status
where
    P::Port: Send + Drop,
    <P::Port as Port>::Link: Send,
    P::Poller: Send + Drop,
    <P::Poller as Poller>::Link: Send,
    ensures runs { Runs
        (λ link. linked (P.Port.Link.left link) (P.Port.Link.read_faults link) (P.Port.Link.sent link) (P.Port.Link.write_faults link) (P.Port.Link.refusals link) (P.Port.Link.agains link))
        (λ port. port_state (P.Port.links port) (P.Port.returned port) (P.Port.faults port) (P.Port.refusals port))
        (λ link. linked (P.Poller.Link.left link) (P.Poller.Link.read_faults link) (P.Poller.Link.sent link) (P.Poller.Link.write_faults link) (P.Poller.Link.refusals link) (P.Poller.Link.agains link))
        (λ poller. poller_state (port_state (P.Poller.links poller) (P.Poller.returned poller) (P.Poller.faults poller) (P.Poller.refusals poller)) (P.Poller.held poller))
        C.coming (map string_bytes words.now)
        (around (outside (incoming (S.left world.old.source) (S.read_faults world.old.source))
        (outgoing (K.sent world.old.sink) (K.write_faults world.old.sink) (K.refusals world.old.sink)) (C.coming world.old.clock))
        (ports_state (P.waiting world.old.ports) (P.taken_back world.old.ports) (P.out world.old.ports) (P.faults world.old.ports) (P.refusals world.old.ports))
        (ports_state (P.pollers_waiting world.old.ports) (P.pollers_back world.old.ports) (P.pollers_out world.old.ports) (P.faults world.old.ports) (P.refusals world.old.ports)))
        (around (outside (incoming (S.left world.new.source) (S.read_faults world.new.source))
        (outgoing (K.sent world.new.sink) (K.write_faults world.new.sink) (K.refusals world.new.sink)) (C.coming world.new.clock))
        (ports_state (P.waiting world.new.ports) (P.taken_back world.new.ports) (P.out world.new.ports) (P.faults world.new.ports) (P.refusals world.new.ports))
        (ports_state (P.pollers_waiting world.new.ports) (P.pollers_back world.new.ports) (P.pollers_out world.new.ports) (P.faults world.new.ports) (P.refusals world.new.ports)))
        result }
    // Where the words are refused nothing at all has changed.
    ensures refused { IfRefused result (world.new ≡ world.old) }
{
    let job = match read_words(words) {
        Ok(job) => job,
        Err(BadWords(place)) => return Status::BadWords(place),
    };
    let World {
        source,
        sink,
        ports,
        clock,
    } = world;
    match job {
        Job::Session { limit, share } => session(alloc, limit, share, source, sink, clock),
        Job::Many {
            workers,
            limit,
            share,
        } => many(rt, alloc, workers, limit, share, source, sink, clock),
        Job::Serve(job) => serve(rt, alloc, &job, ports, sink, clock),
    }
}

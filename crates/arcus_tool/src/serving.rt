//! A server.
ghost use Rattle.std.specs.Prelude.{◌≡◌};
ghost use Rattle.std.specs.Option.{option_map_or};
ghost use Rattle.arc_core.specs.Outside.{Incoming, linked, outgoing};
ghost use Rattle.event_port.specs.Pollers.{poller_state};
ghost use Rattle.pipe_session.specs.Outside.{outside};
ghost use Rattle.worker_ports.specs.Hands.{ports_state};
ghost use Rattle.worker_server.specs.Ports.{port_state};
ghost use Rattle.program_words.specs.declared.job.Job.TheVariants as asked;
ghost use Rattle.program_words.specs.Reading.{IsJob};
ghost use Rattle.arcus_tool.specs.Running.{around, RunsServer};

use crate::sessions::cache_of;
use crate::status::{Status, serve_status};
use arc_core::{Clock, Sink};
use event_port::Poller;
use event_ports::EventPorts;
use program_words::ServeJob;
use serve_event_runs::serve_pollers;
use serve_runs::{Serving, serve_ports};
use std::alloc::Global;
use std::sync::Wait;
use std::thread::Threads;
use worker_server::Port;

/// Runs a server as the job says, over these ports.
///
/// `PortFault` comes only where the ports have counted a fault, `WriteFault` where the sink has; `NoMemory` where memory was
/// refused. `Done` comes where no worker has a link left, or each has served as many as it may, and the line `sessions=<number>`
/// was written. No worker runs where a port is refused. All ports come back. It may wait. (This server's own.)
pub fn serve<R: Threads + Wait + Sync, P: EventPorts, K: Sink, C: Clock + Drop + Send>(
    rt: &R,
    alloc: Global,
    job: &ServeJob,
    ports: &mut P,
    sink: &mut K,
    clock: &C,
) -> Status
where
    P::Port: Send + Drop,
    <P::Port as Port>::Link: Send,
    P::Poller: Send + Drop,
    <P::Poller as Poller>::Link: Send,
    requires { IsJob (asked.Serve job.now) }
    ensures { (incoming : Incoming) → RunsServer
        (λ link. linked (P.Port.Link.left link) (P.Port.Link.read_faults link) (P.Port.Link.sent link) (P.Port.Link.write_faults link) (P.Port.Link.refusals link) (P.Port.Link.agains link))
        (λ port. port_state (P.Port.links port) (P.Port.returned port) (P.Port.faults port) (P.Port.refusals port))
        (λ link. linked (P.Poller.Link.left link) (P.Poller.Link.read_faults link) (P.Poller.Link.sent link) (P.Poller.Link.write_faults link) (P.Poller.Link.refusals link) (P.Poller.Link.agains link))
        (λ poller. poller_state (port_state (P.Poller.links poller) (P.Poller.returned poller) (P.Poller.faults poller) (P.Poller.refusals poller)) (P.Poller.held poller))
        C.coming job.now
        (around (outside incoming (outgoing (K.sent sink.old) (K.write_faults sink.old) (K.refusals sink.old)) (C.coming clock.now))
        (ports_state (P.waiting ports.old) (P.taken_back ports.old) (P.out ports.old) (P.faults ports.old) (P.refusals ports.old))
        (ports_state (P.pollers_waiting ports.old) (P.pollers_back ports.old) (P.pollers_out ports.old) (P.faults ports.old) (P.refusals ports.old)))
        (around (outside incoming (outgoing (K.sent sink.new) (K.write_faults sink.new) (K.refusals sink.new)) (C.coming clock.now))
        (ports_state (P.waiting ports.new) (P.taken_back ports.new) (P.out ports.new) (P.faults ports.new) (P.refusals ports.new))
        (ports_state (P.pollers_waiting ports.new) (P.pollers_back ports.new) (P.pollers_out ports.new) (P.faults ports.new) (P.refusals ports.new)))
        result }
{
    let Ok(cache) = cache_of(alloc, job.limit, job.share) else {
        return Status::NoMemory;
    };
    let serving = serving(job);
    if job.events {
        return serve_status(serve_pollers(rt, alloc, cache, serving, ports, sink, clock));
    }
    serve_status(serve_ports(rt, alloc, cache, serving, ports, sink, clock))
}

// What the server is run with.
fn serving(job: &ServeJob) -> Serving
    ensures number { result.number ≡ job.now.port }
    ensures workers { result.workers ≡ job.now.workers }
    ensures sessions { result.sessions ≡ option_map_or (λ k. k) job.now.sessions 0 }
{
    Serving {
        number: job.port,
        workers: job.workers,
        // 0 is for no limit.
        sessions: job.sessions.map_or(0, u64::from),
    }
}

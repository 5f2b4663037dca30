//! Runs of a server of event workers over memory.
use crate::events::{CROWDED, WAITING};
use crate::harness::{EMPTY, Row, empty_cache, expect_rows, links_of};
use arc_core::{ListClock, MemoryLink, MemorySink};
use event_port::MemoryPoller;
use event_ports::{MemoryEventPorts, PollersCalls};
use serve_event_runs::serve_pollers;
use serve_runs::{ServeEnd, Serving};
use std::alloc::{AllocError, Global};
use std::process::Abort;
use std::sync::Wait;
use std::test::Fail;
use std::thread::Threads;
use worker_ports::{MemoryPorts, PortsCalls};

// What a server is given, how it ends, and what comes back.
#[derive(Clone, Copy)]
struct Run<'a> {
    workers: u32,
    // The links that come to each poller.
    links: &'a [&'a [Row<'a>]],
    // Which calls for pollers fail, or are refused memory.
    binds: &'a [u64],
    hands: &'a [u64],
    refused: &'a [u64],
    // Which calls of the first poller fail, and which of the sink.
    waits: &'a [u64],
    pushes: &'a [u64],
    end: ServeEnd,
    output: &'a str,
    // The links that came back to each poller that came back.
    returned: &'a [&'a [Row<'a>]],
}

// Pollers to which the links of this run come.
fn pollers_of(alloc: Global, run: &Run<'_>) -> Result<Vec<MemoryPoller<MemoryLink>>, AllocError> {
    let mut pollers = Vec::new(alloc);
    for rows in run.links {
        let links = links_of(alloc, rows)?;
        let failing = if pollers.is_empty() {
            run.waits.to_vec(alloc)?
        } else {
            Vec::new(alloc)
        };
        pollers.push(MemoryPoller::new(alloc, links, Vec::new(alloc), failing))?;
    }
    Ok(pollers)
}

// Ports that have these pollers.
fn ports_of(alloc: Global, run: &Run<'_>) -> Result<MemoryEventPorts<MemoryLink>, AllocError> {
    let ports = PortsCalls {
        failing_binds: Vec::new(alloc),
        failing_hands: Vec::new(alloc),
    };
    let calls = PollersCalls {
        failing_binds: run.binds.to_vec(alloc)?,
        failing_hands: run.hands.to_vec(alloc)?,
        refused_hands: run.refused.to_vec(alloc)?,
    };
    Ok(MemoryEventPorts::new(
        alloc,
        MemoryPorts::new(alloc, Vec::new(alloc), ports),
        pollers_of(alloc, run)?,
        calls,
    ))
}

// Runs a server, each worker of which takes one link on.
fn expect_run<R: Threads + Wait + Sync + Abort>(
    rt: &R,
    alloc: Global,
    run: &Run<'_>,
) -> Result<(), Fail> {
    let mut ports = ports_of(alloc, run)?;
    let mut sink = MemorySink::new(alloc, 16, run.pushes.to_vec(alloc)?);
    let job = Serving {
        number: 11211,
        workers: run.workers.min(4096),
        sessions: 1,
    };
    let clock = ListClock::new(&[0]);
    let cache = empty_cache(alloc)?;
    let end = serve_pollers(rt, alloc, cache, job, &mut ports, &mut sink, &clock);
    assert_eq!(rt; end, run.end);
    assert!(rt; sink.bytes() == run.output.as_bytes());
    let back = ports.pollers_back();
    assert_eq!(rt; back.len(), run.returned.len());
    for (poller, rows) in back.iter().zip(run.returned.iter()) {
        expect_rows(rt, alloc, rows, poller.returned())?;
    }
    Ok(())
}

const FIRST: Row<'static> = Row {
    input: "set k 0 0 1|x|",
    output: "STORED|",
    ..EMPTY
};

// Two pollers of one link each, and nothing fails.
const WELL: Run<'static> = Run {
    workers: 2,
    links: &[&[FIRST], &[EMPTY]],
    binds: &[],
    hands: &[],
    refused: &[],
    waits: &[],
    pushes: &[],
    end: ServeEnd::Done,
    output: "sessions=2\n",
    returned: &[&[FIRST], &[EMPTY]],
};

// One worker takes one link on. One that comes while it is open is turned away, and not counted.
#[test]
fn one_session_is_served(rt: HostRuntime) -> Result<(), Fail> {
    let run = Run {
        workers: 1,
        output: "sessions=1\n",
        returned: &[&[FIRST]],
        ..WELL
    };
    expect_run(&rt, rt.alloc(), &run)?;
    let run = Run {
        links: &[&[WAITING, CROWDED]],
        returned: &[&[CROWDED, WAITING]],
        ..run
    };
    expect_run(&rt, rt.alloc(), &run)
}

const UNBOUND: Run<'static> = Run {
    binds: &[0],
    end: ServeEnd::PortFault,
    output: "",
    returned: &[],
    ..WELL
};

// The first poller comes back as it was.
const WITHOUT_SECOND: Run<'static> = Run {
    hands: &[1],
    end: ServeEnd::PortFault,
    output: "",
    returned: &[&[]],
    ..WELL
};

const WITHOUT_MEMORY: Run<'static> = Run {
    refused: &[0],
    end: ServeEnd::NoMemory,
    output: "",
    returned: &[],
    ..WELL
};

// The other worker serves its link.
const FIRST_FAILS: Run<'static> = Run {
    waits: &[0],
    end: ServeEnd::PortFault,
    output: "",
    returned: &[&[], &[EMPTY]],
    ..WELL
};

const UNWRITTEN: Run<'static> = Run {
    pushes: &[0],
    end: ServeEnd::WriteFault,
    output: "",
    ..WELL
};

#[test]
fn a_server_ends_by_its_cause(rt: HostRuntime) -> Result<(), Fail> {
    let alloc = rt.alloc();
    for run in [
        WELL,
        UNBOUND,
        WITHOUT_SECOND,
        WITHOUT_MEMORY,
        FIRST_FAILS,
        UNWRITTEN,
    ] {
        expect_run(&rt, alloc, &run)?;
    }
    Ok(())
}

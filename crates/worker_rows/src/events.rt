//! An event worker over memory.
use crate::harness::{EMPTY, Row, expect_rows, links_of, opened};
use arc_core::{End, ListClock, MemoryLink};
use event_port::{Cue, MemoryPoller, run_events};
use std::alloc::{AllocError, Global};
use std::process::Abort;
use std::sync::Wait;
use std::test::Fail;
use worker_server::WorkerEnd;

// Every second call, from the first on.
const EVERY_SECOND: &[u64] = &[0, 2, 4, 6, 8, 10, 12, 14, 16, 18];

// What a worker is given, how it ends, and which of its links come back.
#[derive(Clone, Copy)]
struct Run<'a> {
    cues: &'a [Cue],
    // The calls of the poller that fail.
    failing: &'a [u64],
    // How many links are taken on at most.
    sessions: u64,
    end: WorkerEnd,
    served: u64,
    // In the order in which they come back.
    returned: &'a [Row<'a>],
}

// A poller to which the links of these rows come.
fn poller_of(
    alloc: Global,
    rows: &[Row<'_>],
    run: &Run<'_>,
) -> Result<MemoryPoller<MemoryLink>, AllocError> {
    let links = links_of(alloc, rows)?;
    Ok(MemoryPoller::new(
        alloc,
        links,
        run.cues.to_vec(alloc)?,
        run.failing.to_vec(alloc)?,
    ))
}

// Runs an event worker on the links of these rows.
fn expect_run<R: Wait + Abort>(
    rt: &R,
    alloc: Global,
    rows: &[Row<'_>],
    run: &Run<'_>,
) -> Result<(), Fail> {
    let (lock, mut seat) = opened(alloc, "")?;
    let mut poller = poller_of(alloc, rows, run)?;
    let mut clock = ListClock::new(&[0]);
    let (end, served) = run_events(
        rt,
        alloc,
        &lock,
        &mut seat,
        &mut poller,
        &mut clock,
        run.sessions,
    );
    assert_eq!(rt; end, run.end);
    assert_eq!(rt; served, run.served);
    expect_rows(rt, alloc, run.returned, poller.returned())?;
    Ok(())
}

const HALTING: Row<'static> = Row {
    input: "set a 5 0 3|abc|get a|",
    again_pulls: EVERY_SECOND,
    again_pushes: EVERY_SECOND,
    output: "STORED|VALUE a 5 3|abc|END|",
    end: End::Ended,
};

// Whether the poller tells that the link is ready, or has no further link.
#[test]
fn a_link_is_asked_again(rt: HostRuntime) -> Result<(), Fail> {
    let ready = [
        Cue::Fresh,
        Cue::Ready(0),
        Cue::Ready(7),
        Cue::Ready(0),
        Cue::Ready(0),
    ];
    for cues in [&ready[..0], &ready[..3], &ready] {
        let run = Run {
            cues,
            failing: &[],
            sessions: 0,
            end: WorkerEnd::Closed,
            served: 1,
            returned: &[HALTING],
        };
        expect_run(&rt, rt.alloc(), &[HALTING], &run)?;
    }
    Ok(())
}

// It has to be asked again before anything comes.
const LATE: Row<'static> = Row {
    input: "get k|",
    again_pulls: &[0],
    output: "VALUE k 0 1|x|END|",
    ..EMPTY
};

const EARLY: Row<'static> = Row {
    input: "set k 0 0 1|x|quit|",
    output: "STORED|",
    end: End::Quit,
    ..EMPTY
};

// While one link waits another one is served.
#[test]
fn two_links_are_served_in_turn(rt: HostRuntime) -> Result<(), Fail> {
    let run = Run {
        cues: &[Cue::Fresh, Cue::Fresh, Cue::Ready(0)],
        failing: &[],
        sessions: 0,
        end: WorkerEnd::Closed,
        served: 2,
        returned: &[EARLY, LATE],
    };
    expect_run(&rt, rt.alloc(), &[LATE, EARLY], &run)
}

/// It comes while there is no room.
pub(crate) const CROWDED: Row<'static> = Row {
    input: "version|",
    end: End::Crowded,
    ..EMPTY
};

/// It has to be asked again before its request comes.
pub(crate) const WAITING: Row<'static> = Row {
    input: "get k|",
    again_pulls: &[0],
    output: "END|",
    ..EMPTY
};

// One link is taken on at most: a second one goes back at once, or does not come any more.
#[test]
fn links_beyond_the_limit_go_back(rt: HostRuntime) -> Result<(), Fail> {
    let run = Run {
        cues: &[],
        failing: &[],
        sessions: 1,
        end: WorkerEnd::Closed,
        served: 1,
        returned: &[CROWDED, WAITING],
    };
    expect_run(&rt, rt.alloc(), &[WAITING, CROWDED], &run)?;
    let run = Run {
        cues: &[Cue::Fresh, Cue::Ready(0)],
        end: WorkerEnd::Limit,
        returned: &[WAITING],
        ..run
    };
    expect_run(&rt, rt.alloc(), &[WAITING, CROWDED], &run)
}

// The poller fails at once, or where it is to watch the first link, which is served all the same.
#[test]
fn a_poller_fails(rt: HostRuntime) -> Result<(), Fail> {
    let run = Run {
        cues: &[],
        failing: &[0],
        sessions: 0,
        end: WorkerEnd::PortFault,
        served: 0,
        returned: &[],
    };
    expect_run(&rt, rt.alloc(), &[WAITING], &run)?;
    let run = Run {
        failing: &[1],
        served: 1,
        returned: &[WAITING],
        ..run
    };
    expect_run(&rt, rt.alloc(), &[WAITING, EMPTY], &run)
}

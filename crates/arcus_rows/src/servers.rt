//! Rows of `many` and `serve`: several sessions over one cache, by workers.

use crate::harness::{
    DEFAULT, RowPlayed, Setting, bytes_of, expect, expect_bytes, run_on, words_of,
};
use crate::play;
use arc_core::{End, LinkCalls, ListClock, MemoryLink, MemorySink, MemorySource};
use arcus_tool::{Status, World};
use event_port::MemoryPoller;
use event_ports::{MemoryEventPorts, PollersCalls};
use std::alloc::{AllocError, Global};
use std::test::Fail;
use worker_ports::{MemoryPorts, PortsCalls};
use worker_server::MemoryPort;

const SENT: &str = "set a 5 0 3|abc|get a|";

const ANSWERED: &str = "STORED|VALUE a 5 3|abc|END|";

const ONE_WORKER: &[&str] = &["many", "--workers", "1"];

const TWO_WORKERS: &[&str] = &["many", "--workers=2"];

const THREE_WORKERS: &[&str] = &["many", "--workers", "3"];

#[test]
fn scripts_are_served(rt: HostRuntime) -> Result<(), Fail> {
    for (words, script, output, status) in [
        (
            ONE_WORKER,
            "session 0\nend\n",
            "session 0 ended 0\n\n",
            Status::Done,
        ),
        (THREE_WORKERS, "end\n", "", Status::Done),
        // In two pieces, cut within the line.
        (
            TWO_WORKERS,
            "session 2\npiece 3\nget\npiece 4\n a|\nend\n",
            "session 0 ended 5\nEND|\n",
            Status::Done,
        ),
        // How single sessions end is no end of the run.
        (
            TWO_WORKERS,
            "session 1\npiece 3\nget\nsession 1\npiece 6\nquit|\nend\n",
            "session 0 cut 0\n\nsession 1 quit 0\n\n",
            Status::Done,
        ),
        (ONE_WORKER, "session x\n", "", Status::BadScript(0)),
        (ONE_WORKER, "session 0\n", "", Status::BadScript(10)),
        (ONE_WORKER, "session 0\nend\nx", "", Status::BadScript(14)),
    ] {
        let setting = Setting { words, ..DEFAULT };
        expect(&rt, rt.alloc(), setting, script, output, status)?;
    }
    Ok(())
}

// One of two sessions comes first, and the third has nothing to do with them.
#[test]
fn one_of_two_sessions_adds_the_key(rt: HostRuntime) -> Result<(), Fail> {
    let alloc = rt.alloc();
    let script =
        "session 1\npiece 16\nadd k 0 0 1|x|\nsession 1\npiece 16\nadd k 0 0 1|x|\nsession 1\npiece 23\nset z 0 0 1|y|get z|\nend\n";
    let third = "session 2 ended 29\nSTORED|VALUE z 0 1|y|END|\n";
    let orders = [
        "session 0 ended 8\nSTORED|\nsession 1 ended 12\nNOT_STORED|\n",
        "session 0 ended 12\nNOT_STORED|\nsession 1 ended 8\nSTORED|\n",
    ];
    let setting = Setting {
        words: TWO_WORKERS,
        ..DEFAULT
    };
    let played = run_on(&rt, alloc, setting, bytes_of(alloc, script)?)?;
    let mut wanted = bytes_of(alloc, orders[0])?;
    if !played.world.sink.bytes().starts_with(&wanted) {
        wanted = bytes_of(alloc, orders[1])?;
    }
    wanted.extend_from_slice(&bytes_of(alloc, third)?)?;
    expect_bytes(&rt, script, played.world.sink.bytes(), &wanted);
    assert_eq!(rt; played.status, Status::Done);
    Ok(())
}

// A link to which this text comes.
fn link_of(alloc: Global, text: &str) -> Result<MemoryLink, AllocError> {
    let calls = LinkCalls {
        failing_pulls: Vec::new(alloc),
        again_pulls: Vec::new(alloc),
        failing_pushes: Vec::new(alloc),
        again_pushes: Vec::new(alloc),
        partial_pushes: Vec::new(alloc),
    };
    let bytes = bytes_of(alloc, text)?;
    Ok(MemoryLink::new(alloc, bytes, Vec::new(alloc), calls))
}

// One port and one poller, each with one link to which this text comes. These calls to bind fail, of either kind.
fn ports_of(
    alloc: Global,
    text: &str,
    binds: &[u64],
) -> Result<MemoryEventPorts<MemoryLink>, AllocError> {
    let calls = PortsCalls {
        failing_binds: binds.to_vec(alloc)?,
        failing_hands: Vec::new(alloc),
    };
    let poller_calls = PollersCalls {
        failing_binds: binds.to_vec(alloc)?,
        failing_hands: Vec::new(alloc),
        refused_hands: Vec::new(alloc),
    };
    let port = MemoryPort::new(
        alloc,
        vec![in alloc; link_of(alloc, text)?]?,
        Vec::new(alloc),
    );
    let ports = MemoryPorts::new(alloc, vec![in alloc; port]?, calls);
    let poller = MemoryPoller::new(
        alloc,
        vec![in alloc; link_of(alloc, text)?]?,
        Vec::new(alloc),
        Vec::new(alloc),
    );
    let pollers = vec![in alloc; poller]?;
    Ok(MemoryEventPorts::new(alloc, ports, pollers, poller_calls))
}

// The outside of a server.
fn world_of(
    alloc: Global,
    ports: MemoryEventPorts<MemoryLink>,
) -> World<MemorySource, MemorySink, MemoryEventPorts<MemoryLink>, ListClock> {
    World {
        source: MemorySource::new(Vec::new(alloc), 1, Vec::new(alloc)),
        sink: MemorySink::new(alloc, 100, Vec::new(alloc)),
        ports,
        clock: ListClock::new(&[0]),
    }
}

// The one link that a port, or a poller, was given back.
fn returned(played: &RowPlayed, events: bool) -> Option<&(MemoryLink, End)> {
    if events {
        return played
            .world
            .ports
            .pollers_back()
            .first()?
            .returned()
            .first();
    }
    played.world.ports.taken_back().first()?.returned().first()
}

#[test]
fn a_server_serves_one_session(rt: HostRuntime) -> Result<(), Fail> {
    let alloc = rt.alloc();
    for (word, events) in [("--limit=64", false), ("--events", true)] {
        let words = words_of(
            alloc,
            &[
                "serve",
                "--port",
                "7001",
                "--workers",
                "1",
                "--sessions",
                "1",
                word,
            ],
        )?;
        let world = world_of(alloc, ports_of(alloc, SENT, &[])?);
        let played = play(&rt, alloc, &words, world);
        assert_eq!(rt; played.status, Status::Done);
        expect_bytes(&rt, word, played.world.sink.bytes(), b"sessions=1\n");
        let (link, end) = returned(&played, events).ok_or("a link came back")?;
        expect_bytes(&rt, word, link.sent(), &bytes_of(alloc, ANSWERED)?);
        assert_eq!(rt; *end, End::Ended);
    }
    Ok(())
}

#[test]
fn a_port_that_cannot_be_had_is_told(rt: HostRuntime) -> Result<(), Fail> {
    let alloc = rt.alloc();
    for word in ["--limit=64", "--events"] {
        let words = words_of(alloc, &["serve", "--port=1", "--workers=1", word])?;
        let world = world_of(alloc, ports_of(alloc, SENT, &[0])?);
        let played = play(&rt, alloc, &words, world);
        assert_eq!(rt; played.status, Status::PortFault);
        expect_bytes(&rt, word, played.world.sink.bytes(), b"");
        assert!(rt; returned(&played, word == "--events").is_none());
    }
    Ok(())
}

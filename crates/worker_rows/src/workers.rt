//! Workers over one cache: sessions one after another, and two side by side.
ghost use Rattle.std.specs.Prelude.{◌≡◌, None, IfOk};

use crate::harness::{EMPTY, Row, empty_cache, expect_rows, links_of, opened};
use arc_core::{End, Link, ListClock, MemoryLink, MemorySink, Pull, Push};
use cache_engine::Cache;
use serve_runs::{ServeEnd, Serving, serve_ports};
use std::alloc::{AllocError, Global};
use std::process::Abort;
use std::sync::Arc;
use std::sync::atomic::AtomicU64;
use std::sync::atomic::Ordering::SeqCst;
use std::test::Fail;
use std::thread::yield_now;
use turn_lock::Seat;
use worker_ports::{MemoryPorts, PortsCalls};
use worker_server::{MemoryPort, Worker, WorkerEnd, run_worker, serve_all};

/// A worker over memory.
pub(crate) type CacheWorker<L> = Worker<Cache, MemoryPort<L>, ListClock>;

/// A worker to which these links come, at second 0; the listed calls for a link fail. It serves so many sessions at most, or
/// any number for 0.
pub(crate) fn worker_of<L: Link + Drop>(
    alloc: Global,
    seat: Seat<Cache>,
    links: Vec<L>,
    failing: &[u64],
    sessions: u64,
) -> Result<CacheWorker<L>, AllocError>
    ensures { IfOk result (λ w. w.seat ≡ seat) }
{
    let port = MemoryPort::new(alloc, links, failing.to_vec(alloc)?);
    match Worker::new(alloc, port, ListClock::new(&[0]), seat, sessions) {
        Ok(worker) => Ok(worker),
        Err(_) => Err(AllocError),
    }
}

// Sessions on one cache, one after another.
const ROWS: [Row<'static>; 3] = [
    Row {
        input: "add k 0 0 1|x|",
        output: "STORED|",
        ..EMPTY
    },
    // It goes on where it had to be asked again.
    Row {
        input: "add k 0 0 1|y|get k|quit|get k|",
        again_pulls: &[0, 2],
        again_pushes: &[0],
        output: "NOT_STORED|VALUE k 0 1|x|END|",
        end: End::Quit,
    },
    Row {
        input: "set a 0 0 9|abc",
        end: End::Cut(16),
        ..EMPTY
    },
];

#[test]
fn a_worker_serves_its_links_in_order(rt: HostRuntime) -> Result<(), Fail> {
    let (lock, seat) = opened(rt.alloc(), "")?;
    let links = links_of(rt.alloc(), &ROWS)?;
    let mut worker = worker_of(rt.alloc(), seat, links, &[], 0)?;
    run_worker(&rt, &lock, &mut worker);
    assert_eq!(rt; worker.end, WorkerEnd::Closed);
    assert_eq!(rt; worker.next, 3);
    expect_rows(&rt, rt.alloc(), &ROWS, worker.port.returned())?;
    Ok(())
}

// Of three links, by the calls for a link that fail and by how many sessions there may be.
#[test]
fn a_worker_ends_by_its_cause(rt: HostRuntime) -> Result<(), Fail> {
    let rows: [(&[u64], u64, WorkerEnd, u64); 4] = [
        (&[], 3, WorkerEnd::Limit, 3),
        (&[], 1, WorkerEnd::Limit, 1),
        (&[0], 0, WorkerEnd::PortFault, 0),
        (&[2], 3, WorkerEnd::PortFault, 2),
    ];
    for (failing, sessions, end, served) in rows {
        let (lock, seat) = opened(rt.alloc(), "")?;
        let links = links_of(rt.alloc(), &[EMPTY, EMPTY, EMPTY])?;
        let mut worker = worker_of(rt.alloc(), seat, links, failing, sessions)?;
        run_worker(&rt, &lock, &mut worker);
        assert_eq!(rt; worker.end, end);
        assert_eq!(rt; worker.next, served);
    }
    Ok(())
}

// What comes on each of two links, byte by byte.
const ASKS: &[u8] = b"version\r\n";

// One of two links. Behind what comes it ends only when something was sent to the other one too, and fails where that
// does not happen.
#[derive(Drop)]
struct Twin {
    at: usize,
    // Whether something was sent to this one, and to the other.
    own: Arc<AtomicU64, Global>,
    other: Arc<AtomicU64, Global>,
    faults: u64,
}

impl Twin {
    fn other_was_answered(&self) -> bool {
        for _ in 0..50_000_000 {
            if self.other.load(SeqCst) == 1 {
                return true;
            }
            yield_now();
        }
        false
    }
}

impl Link for Twin {
    ghost left = { λ _. None };

    ghost read_faults = { λ twin. twin.faults };

    ghost sent = { λ _. None };

    ghost write_faults = { λ _. 0 };

    ghost refusals = { λ _. 0 };

    ghost agains = { λ _. 0 };

    fn pull(&mut self, buf: &mut [u8]) -> Pull {
        if let Some(byte) = ASKS.get(self.at) {
            buf[0] = *byte;
            self.at = self.at.saturating_add(1);
            return Pull::Got(1);
        }
        if self.other_was_answered() {
            return Pull::End;
        }
        self.faults = self.faults.saturating_add(1);
        Pull::Failed
    }

    fn push(&mut self, piece: &[u8]) -> Push {
        self.own.store(1, SeqCst);
        Push::Took(piece.len())
    }
}

// One such link.
fn twin_links(
    alloc: Global,
    own: &Arc<AtomicU64, Global>,
    other: &Arc<AtomicU64, Global>,
) -> Result<Vec<Twin>, AllocError> {
    let mut links = Vec::new(alloc);
    links.push(Twin {
        at: 0,
        own: Arc::try_clone(own)?,
        other: Arc::try_clone(other)?,
        faults: 0,
    })?;
    Ok(links)
}

// A worker to which one such link comes.
fn twin_worker(
    alloc: Global,
    seat: Seat<Cache>,
    own: &Arc<AtomicU64, Global>,
    other: &Arc<AtomicU64, Global>,
) -> Result<CacheWorker<Twin>, AllocError>
    ensures { IfOk result (λ w. w.seat ≡ seat) }
{
    worker_of(alloc, seat, twin_links(alloc, own, other)?, &[], 0)
}

// Served one after another, the first session would end with a fault.
#[test]
fn workers_run_side_by_side(rt: HostRuntime) -> Result<(), Fail> {
    let (lock, mut seat) = opened(rt.alloc(), "")?;
    let other = lock.split(&mut seat);
    let first = Arc::new(rt.alloc(), AtomicU64::new(0))?;
    let second = Arc::new(rt.alloc(), AtomicU64::new(0))?;
    let mut workers = [
        twin_worker(rt.alloc(), seat, &first, &second)?,
        twin_worker(rt.alloc(), other, &second, &first)?,
    ];
    serve_all(&rt, &lock, &mut workers);
    for worker in &workers {
        assert_eq!(rt; worker.end, WorkerEnd::Closed);
        assert_eq!(rt; worker.next, 1);
        let ended = matches!(worker.port.returned(), [(_, End::Ended)]);
        assert!(rt; ended);
    }
    Ok(())
}

// The same by the workers of a server, each of which has a port with one such link.
#[test]
fn workers_of_a_server_run_side_by_side(rt: HostRuntime) -> Result<(), Fail> {
    let alloc = rt.alloc();
    let first = Arc::new(alloc, AtomicU64::new(0))?;
    let second = Arc::new(alloc, AtomicU64::new(0))?;
    let mut waiting = Vec::new(alloc);
    for (own, other) in [(&first, &second), (&second, &first)] {
        let links = twin_links(alloc, own, other)?;
        waiting.push(MemoryPort::new(alloc, links, Vec::new(alloc)))?;
    }
    let calls = PortsCalls {
        failing_binds: Vec::new(alloc),
        failing_hands: Vec::new(alloc),
    };
    let mut ports = MemoryPorts::new(alloc, waiting, calls);
    let mut sink = MemorySink::new(alloc, 100, Vec::new(alloc));
    let clock = ListClock::new(&[0]);
    let job = Serving {
        number: 7001,
        workers: 2,
        sessions: 1,
    };
    let cache = empty_cache(alloc)?;
    let end = serve_ports(&rt, alloc, cache, job, &mut ports, &mut sink, &clock);
    assert_eq!(rt; end, ServeEnd::Done);
    assert_eq!(rt; sink.bytes(), b"sessions=2\n".as_slice());
    assert_eq!(rt; ports.taken_back().len(), 2);
    for port in ports.taken_back() {
        let ended = matches!(port.returned(), [(_, End::Ended)]);
        assert!(rt; ended);
    }
    Ok(())
}

//! Four workers whose forty sessions change the same items.
ghost use Rattle.std.specs.Prelude.{◌≡◌, IfOk};

use crate::harness::{EMPTY, Row, link_of, opened};
use crate::workers::{CacheWorker, worker_of};
use arc_core::{End, MemoryLink};
use cache_engine::Cache;
use std::alloc::{AllocError, Global};
use std::process::Abort;
use std::sync::Wait;
use std::test::Fail;
use std::thread::Threads;
use turn_lock::Seat;
use worker_server::serve_all;

/// Ten items whose uniques are 1 to 10, and ten numbers.
pub(crate) const OPENING: &str =
    "set c0 0 0 1|a|set c1 0 0 1|a|set c2 0 0 1|a|set c3 0 0 1|a|set c4 0 0 1|a|\
    set c5 0 0 1|a|set c6 0 0 1|a|set c7 0 0 1|a|set c8 0 0 1|a|set c9 0 0 1|a|\
    set n0 0 0 1|0|set n1 0 0 1|0|set n2 0 0 1|0|set n3 0 0 1|0|set n4 0 0 1|0|\
    set n5 0 0 1|0|set n6 0 0 1|0|set n7 0 0 1|0|set n8 0 0 1|0|set n9 0 0 1|0|";

/// What comes on each link: each number is raised, and each item is stored where no other session has stored it.
pub(crate) const ASKS: &str = "incr n0 1|incr n1 1|incr n2 1|incr n3 1|incr n4 1|\
    incr n5 1|incr n6 1|incr n7 1|incr n8 1|incr n9 1|\
    cas c0 0 0 1 1|b|cas c1 0 0 1 2|b|cas c2 0 0 1 3|b|cas c3 0 0 1 4|b|cas c4 0 0 1 5|b|\
    cas c5 0 0 1 6|b|cas c6 0 0 1 7|b|cas c7 0 0 1 8|b|cas c8 0 0 1 9|b|cas c9 0 0 1 10|b|";

// The most sessions that are counted.
const MOST: usize = 200;

/// How often each answer came.
#[derive(Drop)]
pub(crate) struct Tally {
    // By the item, and by the number that was answered.
    numbers: [[u32; MOST + 1]; 10],
    stored: [u32; 10],
    exists: [u32; 10],
}

impl Tally {
    /// None came.
    pub(crate) fn new() -> Tally {
        Tally {
            numbers: [[0; MOST + 1]; 10],
            stored: [0; 10],
            exists: [0; 10],
        }
    }

    // Counts the answer that stands on the line at this place of a session's output.
    fn note(&mut self, place: usize, line: &str) {
        let item = place % 10;
        match line {
            "STORED" => add_one(self.stored.get_mut(item)),
            "EXISTS" => add_one(self.exists.get_mut(item)),
            line => {
                if let Ok(number) = line.parse::<usize>() {
                    add_one(self.numbers[item].get_mut(number));
                }
            }
        }
    }

    /// Counts the answers of one session.
    pub(crate) fn note_all(&mut self, output: &[u8]) {
        let text = str::from_utf8(output).unwrap_or("");
        for (place, line) in text.lines().enumerate() {
            self.note(place, line);
        }
    }

    /// Asks that so many sessions came: each number from 1 to theirs was answered once for each item, and each item was
    /// stored by one of them.
    pub(crate) fn expect(&self, rt: &impl Abort, sessions: usize) {
        for numbers in &self.numbers {
            for (number, count) in numbers.iter().enumerate() {
                let times = if number > 0 && number <= sessions {
                    1
                } else {
                    0
                };
                assert_eq!(rt; *count, times);
            }
        }
        assert!(rt; self.stored.iter().all(|count| *count == 1));
        assert!(rt;
            self.exists
                .iter()
                .all(|count| *count as usize + 1 == sessions)
        );
    }
}

fn add_one(count: Option<&mut u32>) {
    if let Some(count) = count {
        *count = count.saturating_add(1);
    }
}

// A worker to which ten such links come.
fn contender(alloc: Global, seat: Seat<Cache>) -> Result<CacheWorker<MemoryLink>, AllocError>
    ensures { IfOk result (λ w. w.seat ≡ seat) }
{
    let row = Row {
        input: ASKS,
        ..EMPTY
    };
    let mut links = Vec::new(alloc);
    for _ in 0..10 {
        links.push(link_of(alloc, &row)?)?;
    }
    worker_of(alloc, seat, links, &[], 0)
}

// What the sessions of four workers were answered, each of which came to its end.
fn contend<R: Threads + Wait + Sync + Abort>(rt: &R, alloc: Global) -> Result<Tally, Fail> {
    let (lock, mut first) = opened(alloc, OPENING)?;
    let second = lock.split(&mut first);
    let third = lock.split(&mut first);
    let fourth = lock.split(&mut first);
    let mut workers = [
        contender(alloc, first)?,
        contender(alloc, second)?,
        contender(alloc, third)?,
        contender(alloc, fourth)?,
    ];
    serve_all(rt, &lock, &mut workers);
    let mut tally = Tally::new();
    for worker in &workers {
        for (link, end) in worker.port.returned() {
            assert_eq!(rt; *end, End::Ended);
            tally.note_all(link.sent());
        }
    }
    Ok(tally)
}

// Forty sessions raise each number: each answer from 1 to 40 comes once. Each item is stored by one of them.
#[test]
fn sessions_do_not_disturb_each_other(rt: HostRuntime) -> Result<(), Fail> {
    let tally = contend(&rt, rt.alloc())?;
    tally.expect(&rt, 40);
    Ok(())
}

//! Runs of scripts: over one cache, by several workers.
ghost use Rattle.std.specs.Prelude.{◌≤◌, None};

use crate::contention::{ASKS, OPENING, Tally};
use crate::harness::{add_text, bytes_of, cache_after};
use arc_core::{Clock, ListClock, MemorySink, MemorySource};
use cache_engine::Cache;
use script_runs::{RunEnd, run_script};
use std::alloc::{AllocError, Global};
use std::process::Abort;
use std::sync::Wait;
use std::sync::atomic::AtomicU64;
use std::sync::atomic::Ordering::SeqCst;
use std::test::Fail;
use std::thread::{Threads, yield_now};

// Which calls of the source and of the sink fail.
#[derive(Clone, Copy)]
struct Failing<'a> {
    pulls: &'a [u64],
    pushes: &'a [u64],
}

const NONE: Failing<'static> = Failing {
    pulls: &[],
    pushes: &[],
};

// Runs a script over this cache, and tells how it ends and what was written.
fn run_over<R: Threads + Wait + Sync, C: Clock + Drop + Send>(
    rt: &R,
    alloc: Global,
    cache: Cache,
    workers: u32,
    script: Vec<u8>,
    failing: Failing<'_>,
    clock: &C,
) -> Result<(RunEnd, MemorySink), AllocError>
    requires at_least { 1 ≤ workers }
    requires at_most { workers ≤ 4096 }
{
    let mut source = MemorySource::new(script, 1000, failing.pulls.to_vec(alloc)?);
    let mut sink = MemorySink::new(alloc, 1000, failing.pushes.to_vec(alloc)?);
    let end = run_script(rt, alloc, cache, workers, &mut source, &mut sink, clock);
    Ok((end, sink))
}

// Asks that a script over an empty cache, at second 0, ends so, and that one of these texts is written.
fn expect_run<R: Threads + Wait + Sync + Abort>(
    rt: &R,
    alloc: Global,
    workers: u32,
    script: &str,
    end: RunEnd,
    outputs: &[&str],
) -> Result<(), Fail>
    requires at_least { 1 ≤ workers }
    requires at_most { workers ≤ 4096 }
{
    let cache = cache_after(alloc, "")?;
    let bytes = bytes_of(alloc, script)?;
    let clock = ListClock::new(&[0]);
    let (ended, sink) = run_over(rt, alloc, cache, workers, bytes, NONE, &clock)?;
    assert_eq!(rt; ended, end, "{script}");
    for output in outputs {
        let wanted = bytes_of(alloc, output)?;
        if sink.bytes() == wanted.as_slice() {
            return Ok(());
        }
    }
    let text = str::from_utf8(sink.bytes()).unwrap_or("no text");
    panic!(rt; "{script} gives {text}");
}

#[test]
fn sessions_come_out_in_order(rt: HostRuntime) -> Result<(), Fail> {
    let alloc = rt.alloc();
    expect_run(
        &rt,
        alloc,
        1,
        "session 0\nend\n",
        RunEnd::Done,
        &["session 0 ended 0\n\n"],
    )?;
    expect_run(&rt, alloc, 3, "end\n", RunEnd::Done, &[""])?;
    // How a session ends is told by a word, and those behind it are served all the same.
    let script = "session 3\npiece 3\nget\npiece 5\n k|q\npiece 12\nuit|get k|\n\
        session 1\npiece 16\nset a 0 0 9|abc\nsession 1\npiece 9\nversion|\n\
        session 2\npiece 14\nset k 0 0 1|x\npiece 9\n|get k|\nend\n";
    // The first session asks for k before the last one stores it.
    let output =
        "session 0 quit 5\nEND|\nsession 1 cut 0\n\nsession 2 ended 25\nVERSION arcus-profile-2|\n\
        session 3 ended 29\nSTORED|VALUE k 0 1|x|END|\n";
    expect_run(&rt, alloc, 1, script, RunEnd::Done, &[output])?;
    Ok(())
}

// Two sessions of two workers store the same new key, and one of them is the first.
#[test]
fn sessions_share_one_cache(rt: HostRuntime) -> Result<(), Fail> {
    let alloc = rt.alloc();
    let two = "session 1\npiece 16\nadd k 0 0 1|x|\nsession 1\npiece 16\nadd k 0 0 1|x|\nend\n";
    let outputs = [
        "session 0 ended 8\nSTORED|\nsession 1 ended 12\nNOT_STORED|\n",
        "session 0 ended 12\nNOT_STORED|\nsession 1 ended 8\nSTORED|\n",
    ];
    expect_run(&rt, alloc, 2, two, RunEnd::Done, &outputs)?;
    let three = "session 1\npiece 16\nadd k 0 0 1|x|\nsession 1\npiece 16\nadd k 0 0 1|x|\n\
        session 1\npiece 23\nset z 0 0 1|y|get z|\nend\n";
    let outputs = [
        "session 0 ended 8\nSTORED|\nsession 1 ended 12\nNOT_STORED|\nsession 2 ended 29\nSTORED|VALUE z 0 1|y|END|\n",
        "session 0 ended 12\nNOT_STORED|\nsession 1 ended 8\nSTORED|\nsession 2 ended 29\nSTORED|VALUE z 0 1|y|END|\n",
    ];
    expect_run(&rt, alloc, 2, three, RunEnd::Done, &outputs)?;
    Ok(())
}

// Texts that are no scripts, and where the first part begins that is none.
const BAD: [(&str, usize); 18] = [
    // Nothing stands where a part is missing.
    ("", 0),
    ("session 0\n", 10),
    ("session 1\n", 10),
    ("session 2\npiece 1\na\n", 20),
    // `end` is a line, and the last one.
    ("end", 0),
    ("end|", 0),
    ("end\nx", 4),
    ("session 0\nsession 0\nend \n", 20),
    // Numbers are digits without a leading zero, within their bounds.
    ("session x\n", 0),
    ("session 01\nend\n", 0),
    ("session 0|end\n", 0),
    ("session 100001\n", 0),
    ("session 1\npiece 268435457\n", 10),
    ("session 1\npiece 0\n\nend\n", 10),
    // A piece has so many bytes, and LF behind them.
    ("session 1\npiece 2\nabc\nend\n", 10),
    ("session 1\npiece 9\nabc\nend\n", 10),
    ("session 2\npiece 1\na\nend\n", 20),
    ("session 1\npiece 3\nabc\npiece 1\na\nend\n", 22),
];

#[test]
fn bad_scripts_are_told_by_their_offset(rt: HostRuntime) -> Result<(), Fail> {
    let alloc = rt.alloc();
    for (script, offset) in BAD {
        expect_run(&rt, alloc, 1, script, RunEnd::BadScript(offset), &[""])?;
    }
    Ok(())
}

// A script of so many sessions, to each of which this text comes in one piece, or of sessions without pieces.
fn script_of(alloc: Global, sessions: u32, text: &str) -> Result<Vec<u8>, AllocError> {
    let piece = bytes_of(alloc, text)?;
    let count = piece.len();
    let mut script = Vec::new(alloc);
    for _ in 0..sessions {
        if piece.is_empty() {
            add_text(&mut script, "session 0\n")?;
        } else {
            add_text(&mut script, "session 1\n")?;
            let line = format!(in alloc; "piece {count}\n")?;
            add_text(&mut script, line.as_str())?;
            script.extend_from_slice(&piece)?;
            script.push(b'\n')?;
        }
    }
    add_text(&mut script, "end\n")?;
    Ok(script)
}

// A script may have a thousand sessions; the line of one more begins behind ten thousand bytes.
#[test]
fn a_script_has_a_thousand_sessions_at_most(rt: HostRuntime) -> Result<(), Fail> {
    let clock = ListClock::new(&[0]);
    for (sessions, end) in [(1000, RunEnd::Done), (1001, RunEnd::BadScript(10_000))] {
        let cache = cache_after(rt.alloc(), "")?;
        let script = script_of(rt.alloc(), sessions, "")?;
        let (ended, _) = run_over(&rt, rt.alloc(), cache, 7, script, NONE, &clock)?;
        assert_eq!(rt; ended, end);
    }
    Ok(())
}

#[test]
fn faults_of_the_outside_are_told(rt: HostRuntime) -> Result<(), Fail> {
    let rows: [(&[u64], &[u64], RunEnd, &str); 4] = [
        (&[0], &[], RunEnd::ReadFault, ""),
        // All bytes came, and then a pull failed.
        (&[1], &[], RunEnd::ReadFault, ""),
        (&[], &[0], RunEnd::WriteFault, ""),
        (&[], &[2], RunEnd::WriteFault, "session 0 ended 8\nSTORED|"),
    ];
    let clock = ListClock::new(&[0]);
    for (pulls, pushes, end, output) in rows {
        let cache = cache_after(rt.alloc(), "")?;
        let script = script_of(rt.alloc(), 1, "add k 0 0 1|x|")?;
        let failing = Failing { pulls, pushes };
        let (ended, sink) = run_over(&rt, rt.alloc(), cache, 2, script, failing, &clock)?;
        assert_eq!(rt; ended, end);
        let wanted = bytes_of(rt.alloc(), output)?;
        assert!(rt; sink.bytes() == wanted.as_slice());
    }
    Ok(())
}

// The text that was sent to the next session, which has this number, and what stands behind its record.
fn next_record<'a>(
    rt: &impl Abort,
    alloc: Global,
    number: u32,
    output: &'a str,
) -> Result<(&'a str, &'a str), Fail> {
    let (line, rest) = output.split_once("\n").ok_or("a line")?;
    let front = format!(in alloc; "session {number} ended ")?;
    let count = line
        .strip_prefix(front.as_str())
        .ok_or("a session that ended")?;
    let count = count.parse::<usize>().map_err(|_| Fail::from("a number"))?;
    let text = rest.get(..count).ok_or("what was sent")?;
    let rest = rest.get(count..).ok_or("what stands behind it")?;
    let rest = rest.strip_prefix("\n").ok_or("a line feed")?;
    assert!(rt; text.ends_with("\r\n"));
    Ok((text, rest))
}

// Two hundred sessions of four workers change the same items: each number is answered once, and each item is stored by one.
#[test]
fn many_sessions_do_not_disturb_each_other(rt: HostRuntime) -> Result<(), Fail> {
    let alloc = rt.alloc();
    let cache = cache_after(alloc, OPENING)?;
    let script = script_of(alloc, 200, ASKS)?;
    let clock = ListClock::new(&[0]);
    let (end, sink) = run_over(&rt, alloc, cache, 4, script, NONE, &clock)?;
    assert_eq!(rt; end, RunEnd::Done);
    let mut tally = Tally::new();
    let mut output = str::from_utf8(sink.bytes()).unwrap_or("");
    for number in 0..200 {
        let (text, rest) = next_record(&rt, alloc, number, output)?;
        tally.note_all(text.as_bytes());
        output = rest;
    }
    assert!(rt; output.is_empty());
    tally.expect(&rt, 200);
    Ok(())
}

// A clock whose twins tell whether two of them were asked at the same time.
#[derive(Clone, Copy, Drop)]
struct Meeting<'a> {
    asked: &'a AtomicU64,
    met: &'a AtomicU64,
}

impl<'a> Clock for Meeting<'a> {
    ghost coming = { λ _. None };

    fn second(&mut self) -> u32 {
        self.asked.fetch_add(1, SeqCst);
        for _ in 0..50_000_000 {
            if self.asked.load(SeqCst) == 2 {
                self.met.store(1, SeqCst);
            }
            if self.met.load(SeqCst) == 1 {
                break;
            }
            yield_now();
        }
        self.asked.fetch_sub(1, SeqCst);
        0
    }

    fn twin(&self) -> Meeting<'a> {
        *self
    }
}

// In one thread the second session would ask the clock behind the first one.
#[test]
fn workers_of_a_script_run_side_by_side(rt: HostRuntime) -> Result<(), Fail> {
    let asked = AtomicU64::new(0);
    let met = AtomicU64::new(0);
    let clock = Meeting {
        asked: &asked,
        met: &met,
    };
    let cache = cache_after(rt.alloc(), "")?;
    let script = script_of(rt.alloc(), 2, "set k 0 0 1|x|")?;
    let (end, _) = run_over(&rt, rt.alloc(), cache, 2, script, NONE, &clock)?;
    assert_eq!(rt; end, RunEnd::Done);
    assert_eq!(rt; met.load(SeqCst), 1);
    Ok(())
}

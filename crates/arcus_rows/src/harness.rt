//! How a row is run: a session over memory.
//!
//! In the texts of rows `|` stands for CR LF, and braces hold bytes with the number of times that each is repeated:
//! `{3x2y}` stands for `xxxyy`.

use crate::{Played, play};
use arc_core::{ListClock, MemoryLink, MemorySink, MemorySource};
use arcus_tool::{Status, World};
use event_ports::MemoryEventPorts;
use std::alloc::{AllocError, Global};
use std::process::Abort;
use std::sync::Wait;
use std::thread::Threads;

/// A run of the program over an outside in memory.
pub(crate) type RowPlayed = Played<
    MemorySource,
    MemorySink,
    MemoryEventPorts<MemoryLink>,
    ListClock,
>;

/// As many bytes as a pull or a push asks for.
pub(crate) const AT_ONCE: usize = 1 << 20;

/// What a session is run with, beside its input.
#[derive(Clone, Copy)]
pub(crate) struct Setting<'a> {
    pub words: &'a [&'a str],
    /// The clock's seconds, 1 to 64, one for each request; the last one stays.
    pub seconds: &'a [u32],
    /// The most bytes that a pull gives at once.
    pub most: usize,
    /// The calls of `pull` that fail, counted from 0.
    pub failing_pulls: &'a [u64],
    /// The most bytes that a push takes at once.
    pub takes: usize,
    /// The calls of `push` that fail, counted from 0.
    pub failing_pushes: &'a [u64],
}

/// The cache that the program has where no limit is named, second 0, and no fault.
pub(crate) const DEFAULT: Setting<'static> = Setting {
    words: &["session"],
    seconds: &[0],
    most: AT_ONCE,
    failing_pulls: &[],
    takes: AT_ONCE,
    failing_pushes: &[],
};

/// A cache of 1 MiB.
pub(crate) const ONE_MIB: Setting<'static> = Setting {
    words: &["session", "--limit", "1"],
    ..DEFAULT
};

/// In pieces of one byte.
pub(crate) const BYTE_BY_BYTE: Setting<'static> = Setting { most: 1, ..DEFAULT };

/// Puts the bytes for which a row's text stands behind the others.
pub(crate) fn add_text(bytes: &mut Vec<u8>, text: &str) -> Result<(), AllocError> {
    // How often the next byte within braces is repeated.
    let mut times = None;
    for &byte in text.as_bytes() {
        times = match (times, byte) {
            (None, b'{') => Some(0usize),
            (None, b'|') => {
                bytes.extend_from_slice(b"\r\n")?;
                None
            }
            (None, byte) => {
                bytes.push(byte)?;
                None
            }
            (Some(_), b'}') => None,
            (Some(count), b'0'..=b'9') => {
                Some(
                    count
                        .saturating_mul(10)
                        .saturating_add(usize::from(byte - b'0')),
                )
            }
            (Some(count), byte) => {
                bytes.resize(bytes.len().saturating_add(count), byte)?;
                Some(0)
            }
        };
    }
    Ok(())
}

/// The bytes for which a row's text stands.
pub(crate) fn bytes_of(alloc: Global, text: &str) -> Result<Vec<u8>, AllocError> {
    let mut bytes = Vec::new(alloc);
    add_text(&mut bytes, text)?;
    Ok(bytes)
}

/// The program's words.
pub(crate) fn words_of(alloc: Global, words: &[&str]) -> Result<Vec<String>, AllocError> {
    let mut owned = Vec::new(alloc);
    for word in words {
        owned.push(String::from_str(alloc, word)?)?;
    }
    Ok(owned)
}

/// Runs the program on this input.
pub(crate) fn run_on<R: Abort + Threads + Wait + Sync>(
    rt: &R,
    alloc: Global,
    setting: Setting<'_>,
    input: Vec<u8>,
) -> Result<RowPlayed, AllocError> {
    assert!(rt; !setting.seconds.is_empty() && setting.seconds.len() <= 64);
    assert!(rt; setting.most > 0 && setting.takes > 0);
    let words = words_of(alloc, setting.words)?;
    let source = MemorySource::new(input, setting.most, setting.failing_pulls.to_vec(alloc)?);
    let sink = MemorySink::new(alloc, setting.takes, setting.failing_pushes.to_vec(alloc)?);
    let world = World {
        source,
        sink,
        ports: no_ports(alloc),
        clock: ListClock::new(setting.seconds),
    };
    Ok(play(rt, alloc, &words, world))
}

/// Ports and pollers to which no link comes.
pub(crate) fn no_ports(alloc: Global) -> MemoryEventPorts<MemoryLink> {
    MemoryEventPorts::steady(alloc, Vec::new(alloc), Vec::new(alloc))
}

/// Runs the program on the input for which this text stands, and asks for that output and that status.
pub(crate) fn expect<R: Abort + Threads + Wait + Sync>(
    rt: &R,
    alloc: Global,
    setting: Setting<'_>,
    input: &str,
    output: &str,
    status: Status,
) -> Result<(), AllocError> {
    let played = run_on(rt, alloc, setting, bytes_of(alloc, input)?)?;
    let wanted = bytes_of(alloc, output)?;
    expect_bytes(rt, input, played.world.sink.bytes(), &wanted);
    assert_eq!(rt; played.status, status, "{input}");
    Ok(())
}

/// Runs the program for each of these rows anew: what is sent, and what is answered. Each session comes to its end.
pub(crate) fn expect_rows<R: Abort + Threads + Wait + Sync>(
    rt: &R,
    alloc: Global,
    setting: Setting<'_>,
    rows: &[(&str, &str)],
) -> Result<(), AllocError> {
    for (input, output) in rows {
        expect(rt, alloc, setting, input, output, Status::Done)?;
    }
    Ok(())
}

/// Runs one session in which these commands come one behind another, each with its answers.
pub(crate) fn converse<R: Abort + Threads + Wait + Sync>(
    rt: &R,
    alloc: Global,
    setting: Setting<'_>,
    commands: &[(&str, &str)],
) -> Result<(), AllocError> {
    let mut input = String::new(alloc);
    let mut output = String::new(alloc);
    for (typed, answer) in commands {
        input.push_str(typed)?;
        output.push_str(answer)?;
    }
    expect(rt, alloc, setting, &input, &output, Status::Done)
}

/// Asks that the row with this input had the wanted output.
pub(crate) fn expect_bytes(rt: &impl Abort, input: &str, output: &[u8], wanted: &[u8]) {
    if output != wanted {
        let front = &output[..output.len().min(500)];
        let text = str::from_utf8(front).unwrap_or("no text");
        panic!(rt; "{input} gives {text}");
    }
}

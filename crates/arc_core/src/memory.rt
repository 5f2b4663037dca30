//! Sources and sinks over memory, which tell all that they hold: for tests, and for scripts.
ghost use Rattle.std.specs.Prelude.{◌≡◌, ◌<◌, ◌≤◌, List, [], ℕ, Some, drop, vec_len};

use crate::{Pull, Push, Sink, Source};
use std::alloc::Global;

/// Bytes in memory, of which each pull gives at most so many, and which never fails.
#[derive(Drop)]
pub struct SteadySource {
    bytes: Vec<u8>,
    at: usize,
    most: usize,
    ghost in_range: { at ≤ vec_len bytes },
    ghost some: { 0 < most },
}

impl SteadySource {
    /// A source of these bytes, of which a pull gives at most `most` at once. Takes no memory.
    pub fn new(bytes: Vec<u8>, most: usize) -> SteadySource
        requires { 0 < most }
        ensures { ⟦<SteadySource as Source>⟧.left result ≡ Some bytes.items }
    {
        SteadySource { bytes, at: 0, most }
    }
}

impl Source for SteadySource {
    ghost left = { λ source. Some (drop source.at source.bytes.items) };

    ghost read_faults = { λ _. 0 };

    fn pull(&mut self, buf: &mut [u8]) -> Pull {
        let left = self.bytes.len() - self.at;
        if left == 0 {
            return Pull::End;
        }
        let count = left.min(self.most).min(buf.len());
        let end = self.at + count;
        buf[..count].copy_from_slice(&self.bytes[self.at..end]);
        self.at = end;
        Pull::Got(count)
    }
}

/// Bytes in memory as `SteadySource`, but the listed calls of `pull`, counted from 0, fail.
#[derive(Drop)]
pub struct MemorySource {
    steady: SteadySource,
    failing: Vec<u64>,
    calls: u64,
    faults: u64,
}

impl MemorySource {
    /// A source of these bytes, of which a pull gives at most `most` at once; the calls in `failing` fail.
    /// Takes no memory.
    pub fn new(bytes: Vec<u8>, most: usize, failing: Vec<u64>) -> MemorySource
        requires { 0 < most }
        ensures left { ⟦<MemorySource as Source>⟧.left result ≡ Some bytes.items }
        ensures no_fault { ⟦<MemorySource as Source>⟧.read_faults result ≡ 0 }
    {
        MemorySource {
            steady: SteadySource::new(bytes, most),
            failing,
            calls: 0,
            faults: 0,
        }
    }
}

impl Source for MemorySource {
    ghost left = { λ source. ⟦<SteadySource as Source>⟧.left source.steady };

    ghost read_faults = { λ source. source.faults };

    fn pull(&mut self, buf: &mut [u8]) -> Pull {
        let call = self.calls;
        self.calls = call.saturating_add(1);
        if self.failing.contains(&call) {
            self.faults = self.faults.saturating_add(1);
            return Pull::Failed;
        }
        self.steady.pull(buf)
    }
}

/// Bytes that were sent, in memory, of which each push takes at most so many; it never fails, but it may be refused
/// memory.
#[derive(Drop)]
pub struct SteadySink {
    bytes: Vec<u8>,
    most: usize,
    refused: u64,
    ghost some: { 0 < most },
}

impl SteadySink {
    /// A sink to which nothing was sent, and of which a push takes at most `most` bytes at once. Takes no memory.
    pub fn new(alloc: Global, most: usize) -> SteadySink
        requires { 0 < most }
        ensures sent { ⟦<SteadySink as Sink>⟧.sent result ≡ Some [] }
        ensures no_refusal { ⟦<SteadySink as Sink>⟧.refusals result ≡ 0 }
    {
        SteadySink {
            bytes: Vec::new(alloc),
            most,
            refused: 0,
        }
    }

    /// The bytes that were sent.
    pub fn bytes(&self) -> &[u8]
        ensures { ⟦<SteadySink as Sink>⟧.sent self.now ≡ Some result.now }
    {
        &self.bytes
    }
}

impl Sink for SteadySink {
    ghost sent = { λ sink. Some sink.bytes.items };

    ghost write_faults = { λ _. 0 };

    ghost refusals = { λ sink. sink.refused };

    fn push(&mut self, piece: &[u8]) -> Push {
        let count = piece.len().min(self.most);
        match self.bytes.extend_from_slice(&piece[..count]) {
            Ok(()) => Push::Took(count),
            Err(_) => {
                self.refused = self.refused.saturating_add(1);
                Push::NoMemory
            }
        }
    }
}

/// Bytes that were sent, as in `SteadySink`, but the listed calls of `push`, counted from 0, fail.
#[derive(Drop)]
pub struct MemorySink {
    steady: SteadySink,
    failing: Vec<u64>,
    calls: u64,
    faults: u64,
}

impl MemorySink {
    /// A sink to which nothing was sent, and of which a push takes at most `most` bytes at once; the calls in `failing`
    /// fail. Takes no memory.
    pub fn new(alloc: Global, most: usize, failing: Vec<u64>) -> MemorySink
        requires { 0 < most }
        ensures sent { ⟦<MemorySink as Sink>⟧.sent result ≡ Some [] }
        ensures no_fault { ⟦<MemorySink as Sink>⟧.write_faults result ≡ 0 }
        ensures no_refusal { ⟦<MemorySink as Sink>⟧.refusals result ≡ 0 }
    {
        MemorySink {
            steady: SteadySink::new(alloc, most),
            failing,
            calls: 0,
            faults: 0,
        }
    }

    /// The bytes that were sent.
    pub fn bytes(&self) -> &[u8]
        ensures { ⟦<MemorySink as Sink>⟧.sent self.now ≡ Some result.now }
    {
        self.steady.bytes()
    }
}

impl Sink for MemorySink {
    ghost sent = { λ sink. ⟦<SteadySink as Sink>⟧.sent sink.steady };

    ghost write_faults = { λ sink. sink.faults };

    ghost refusals = { λ sink. ⟦<SteadySink as Sink>⟧.refusals sink.steady };

    fn push(&mut self, piece: &[u8]) -> Push {
        let call = self.calls;
        self.calls = call.saturating_add(1);
        if self.failing.contains(&call) {
            self.faults = self.faults.saturating_add(1);
            return Push::Failed;
        }
        self.steady.push(piece)
    }
}

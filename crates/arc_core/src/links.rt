//! Links over memory, which tell all that they hold: for tests, and for scripts of sessions.
ghost use Rattle.std.specs.Prelude.{◌≡◌, ◌<◌, ◌≤◌, List, [], ℕ, Some, drop, vec_len};

use crate::{Link, Pull, Push};
use std::alloc::Global;

// Lengths of pieces, one after another, of which the first may have come in part. Behind the last a piece has no end.
#[derive(Drop)]
struct Pieces {
    lengths: Vec<usize>,
    place: usize,
    came: usize,
}

impl Pieces {
    // The most bytes that come at once: the rest of the piece, or one byte of a piece without any.
    fn most(&self) -> usize
        ensures { 0 < result }
    {
        match self.lengths.get(self.place) {
            Some(length) => length.saturating_sub(self.came).max(1),
            None => usize::MAX,
        }
    }

    // So many bytes came.
    fn pass(&mut self, count: usize) {
        self.came = self.came.saturating_add(count);
        if let Some(length) = self.lengths.get(self.place)
            && self.came >= *length
        {
            self.place = self.place.saturating_add(1);
            self.came = 0;
        }
    }
}

/// A link in memory, which never fails and never has to be asked again. It may be refused memory for what is sent.
///
/// The bytes come in pieces of the given lengths, where each pull gives at most the rest of one piece; what is behind the
/// last piece comes as the buffers ask for it.
#[derive(Drop)]
pub struct SteadyLink {
    bytes: Vec<u8>,
    at: usize,
    pieces: Pieces,
    sent: Vec<u8>,
    refused: u64,
    ghost in_range: { at ≤ vec_len bytes },
}

impl SteadyLink {
    /// A link from which these bytes come, in pieces of these lengths, and to which nothing was sent. Takes no memory.
    pub fn new(alloc: Global, bytes: Vec<u8>, lengths: Vec<usize>) -> SteadyLink
        ensures left { ⟦<SteadyLink as Link>⟧.left result ≡ Some bytes.items }
        ensures sent { ⟦<SteadyLink as Link>⟧.sent result ≡ Some [] }
        ensures no_refusal { ⟦<SteadyLink as Link>⟧.refusals result ≡ 0 }
    {
        SteadyLink {
            bytes,
            at: 0,
            pieces: Pieces {
                lengths,
                place: 0,
                came: 0,
            },
            sent: Vec::new(alloc),
            refused: 0,
        }
    }

    /// The bytes that were sent.
    pub fn sent(&self) -> &[u8]
        ensures { ⟦<SteadyLink as Link>⟧.sent self.now ≡ Some result.now }
    {
        &self.sent
    }
}

impl Link for SteadyLink {
    ghost left = { λ link. Some (drop link.at link.bytes.items) };

    ghost read_faults = { λ _. 0 };

    ghost sent = { λ link. Some link.sent.items };

    ghost write_faults = { λ _. 0 };

    ghost refusals = { λ link. link.refused };

    ghost agains = { λ _. 0 };

    fn pull(&mut self, buf: &mut [u8]) -> Pull {
        let left = self.bytes.len() - self.at;
        if left == 0 {
            return Pull::End;
        }
        let count = left.min(self.pieces.most()).min(buf.len());
        let end = self.at + count;
        buf[..count].copy_from_slice(&self.bytes[self.at..end]);
        self.at = end;
        self.pieces.pass(count);
        Pull::Got(count)
    }

    fn push(&mut self, piece: &[u8]) -> Push {
        match self.sent.extend_from_slice(piece) {
            Ok(()) => Push::Took(piece.len()),
            Err(_) => {
                self.refused = self.refused.saturating_add(1);
                Push::NoMemory
            }
        }
    }
}

/// Which calls of a `MemoryLink` are answered otherwise, each a list of numbers of calls, counted from 0. Pulls and pushes
/// are counted apart.
#[derive(Drop)]
pub struct LinkCalls {
    /// Pulls that fail.
    pub failing_pulls: Vec<u64>,
    /// Pulls that answer `Again`, where they do not fail.
    pub again_pulls: Vec<u64>,
    /// Pushes that fail.
    pub failing_pushes: Vec<u64>,
    /// Pushes that answer `Again`, where they do not fail.
    pub again_pushes: Vec<u64>,
    /// Pushes that take the first byte of their piece alone.
    pub partial_pushes: Vec<u64>,
}

/// A link in memory as `SteadyLink`, but the listed calls fail, answer `Again` or take a part.
#[derive(Drop)]
pub struct MemoryLink {
    steady: SteadyLink,
    calls: LinkCalls,
    pulls: u64,
    pushes: u64,
    read_faults: u64,
    write_faults: u64,
    agains: u64,
}

impl MemoryLink {
    /// A link from which these bytes come, in pieces of these lengths, and to which nothing was sent; the listed calls are
    /// answered otherwise. Takes no memory.
    pub fn new(alloc: Global, bytes: Vec<u8>, lengths: Vec<usize>, calls: LinkCalls) -> MemoryLink
        ensures left { ⟦<MemoryLink as Link>⟧.left result ≡ Some bytes.items }
        ensures sent { ⟦<MemoryLink as Link>⟧.sent result ≡ Some [] }
        ensures no_read_fault { ⟦<MemoryLink as Link>⟧.read_faults result ≡ 0 }
        ensures no_write_fault { ⟦<MemoryLink as Link>⟧.write_faults result ≡ 0 }
        ensures no_refusal { ⟦<MemoryLink as Link>⟧.refusals result ≡ 0 }
        ensures no_again { ⟦<MemoryLink as Link>⟧.agains result ≡ 0 }
    {
        MemoryLink {
            steady: SteadyLink::new(alloc, bytes, lengths),
            calls,
            pulls: 0,
            pushes: 0,
            read_faults: 0,
            write_faults: 0,
            agains: 0,
        }
    }

    /// The bytes that were sent.
    pub fn sent(&self) -> &[u8]
        ensures { ⟦<MemoryLink as Link>⟧.sent self.now ≡ Some result.now }
    {
        self.steady.sent()
    }
}

impl Link for MemoryLink {
    ghost left = { λ link. ⟦<SteadyLink as Link>⟧.left link.steady };

    ghost read_faults = { λ link. link.read_faults };

    ghost sent = { λ link. ⟦<SteadyLink as Link>⟧.sent link.steady };

    ghost write_faults = { λ link. link.write_faults };

    ghost refusals = { λ link. ⟦<SteadyLink as Link>⟧.refusals link.steady };

    ghost agains = { λ link. link.agains };

    fn pull(&mut self, buf: &mut [u8]) -> Pull {
        let call = self.pulls;
        self.pulls = call.saturating_add(1);
        if self.calls.failing_pulls.contains(&call) {
            self.read_faults = self.read_faults.saturating_add(1);
            return Pull::Failed;
        }
        if self.calls.again_pulls.contains(&call) {
            self.agains = self.agains.saturating_add(1);
            return Pull::Again;
        }
        self.steady.pull(buf)
    }

    fn push(&mut self, piece: &[u8]) -> Push {
        let call = self.pushes;
        self.pushes = call.saturating_add(1);
        if self.calls.failing_pushes.contains(&call) {
            self.write_faults = self.write_faults.saturating_add(1);
            return Push::Failed;
        }
        if self.calls.again_pushes.contains(&call) {
            self.agains = self.agains.saturating_add(1);
            return Push::Again;
        }
        if self.calls.partial_pushes.contains(&call) {
            return self.steady.push(&piece[..1]);
        }
        self.steady.push(piece)
    }
}

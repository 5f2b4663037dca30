//! What a session has pulled and not read yet.
ghost use Rattle.std.specs.Prelude.{◌≡◌, ◌<◌, ◌≤◌, [], length, take, drop, IfOk, vec_len};
ghost use Rattle.arc_core.specs.Outside.{incoming, outgoing, LinkPulled};
ghost use Rattle.pipe_session.specs.Pulling.{Fills};

use arc_core::{Link, NoMemory, Pull};
use std::alloc::Global;
use std::marker::Model;

/// The most bytes that one pull asks for.
pub const PIECE_BYTES: usize = 16_384;

// The most bytes that a pull asks for until one fills them. A session whose client sends short lines touches no more memory.
const FIRST_BYTES: usize = 2_048;

/// What the last pull brought and was not read yet, 16,384 bytes at most. Contracts see the list of them.
#[derive(Drop)]
pub struct Piece {
    // It has memory for 16,384 bytes, and gets so many once a pull has filled it.
    buffer: Vec<u8>,
    // From the one place up to the other is still to be read.
    from: usize,
    upto: usize,
}

impl Model for Piece {
    ghost use Rattle.std.specs.Prelude.{List, ℕ, ◌<◌, ◌≤◌, ◌-◌, take, drop, vec_len};

    ghost Value = { List ℕ };

    ghost view = { λ piece. take (piece.upto - piece.from) (drop piece.from piece.buffer.items) };

    ghost invariant = { λ piece. (0 < vec_len piece.buffer) × (vec_len piece.buffer ≤ 16384) × (piece.from ≤ piece.upto) × (piece.upto ≤ vec_len piece.buffer) };
}

impl Piece {
    /// Nothing is to be read. Takes memory for 16,384 bytes, of which it touches 2,048 until a pull fills these. `NoMemory`
    /// comes for want of memory alone.
    pub fn new(alloc: Global) -> Result<Piece, NoMemory>
        ensures { IfOk result (λ piece. piece ≡ []) }
    {
        let mut buffer = Vec::with_capacity(alloc, PIECE_BYTES)?;
        buffer.resize(FIRST_BYTES, 0)?;
        Ok(Piece {
            buffer,
            from: 0,
            upto: 0,
        })
    }

    /// The bytes that are still to be read.
    pub fn ahead(&self) -> &[u8]
        ensures ahead { result.now ≡ self.now }
        ensures few { length result.now ≤ 16384 }
    {
        &self.buffer[self.from..self.upto]
    }

    /// So many of them were read.
    pub fn pass(&mut self, count: usize)
        requires { count ≤ length self.old }
        ensures { self.new ≡ drop count self.old }
    {
        self.from += count;
    }

    /// Nothing is to be read.
    pub fn clear(&mut self)
        ensures { self.new ≡ [] }
    {
        self.from = 0;
        self.upto = 0;
    }

    /// Pulls once from the link, at most so many bytes, which are to be read then. Where none came nothing is to be read. Until
    /// a pull has brought 2,048 bytes it asks for no more. Takes no memory.
    pub fn fill<L: Link>(&mut self, most: usize, link: &mut L) -> Pull
        requires some { 0 < most }
        requires few { most ≤ 16384 }
        ensures fills { Fills (incoming (L.left link.old) (L.read_faults link.old)) (incoming (L.left link.new) (L.read_faults link.new))
            (L.agains link.old) (L.agains link.new) most self.new result }
        ensures outgoing { outgoing (L.sent link.new) (L.write_faults link.new) (L.refusals link.new)
            ≡ outgoing (L.sent link.old) (L.write_faults link.old) (L.refusals link.old) }
    {
        if self.upto == self.buffer.len() {
            widen(&mut self.buffer);
        }
        self.from = 0;
        self.upto = 0;
        let asked = most.min(self.buffer.len());
        let pulled = pull_front(&mut self.buffer, asked, link);
        if let Pull::Got(count) = pulled {
            self.upto = count;
        }
        pulled
    }
}

// Pulls once into the first bytes of the buffer, so many of them.
fn pull_front<L: Link>(buffer: &mut [u8], most: usize, link: &mut L) -> Pull
    requires some { 0 < most }
    requires within { most ≤ length buffer.old }
    ensures pulled { LinkPulled (incoming (L.left link.old) (L.read_faults link.old)) (incoming (L.left link.new) (L.read_faults link.new))
        (L.agains link.old) (L.agains link.new) (take most buffer.new) result }
    ensures outgoing { outgoing (L.sent link.new) (L.write_faults link.new) (L.refusals link.new)
        ≡ outgoing (L.sent link.old) (L.write_faults link.old) (L.refusals link.old) }
{
    link.pull(&mut buffer[..most])
}

// Has the buffer filled up to the most that a pull asks for. There is memory for it; where there were none it would stay.
fn widen(buffer: &mut Vec<u8>)
    requires some { 0 < vec_len buffer.old }
    requires few { vec_len buffer.old ≤ 16384 }
    ensures some { 0 < vec_len buffer.new }
    ensures few { vec_len buffer.new ≤ 16384 }
{
    let _ = buffer.resize(PIECE_BYTES, 0);
}

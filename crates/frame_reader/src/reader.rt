//! The reader of units.
ghost use Rattle.std.specs.Prelude.{◌≡◌, ◌≢◌, ℕ, ◌<◌, ◌≤◌, List, [], ◌++◌, length, take, IfOk, Some, None, IsSome, is_some, MatchOption};
ghost use Rattle.arc_core.specs.Framing.{IsRest, IsSpan, line_too_long};
ghost use Rattle.frame_reader.specs.Progress.{StandsFor, ready_unit};
ghost use Rattle.frame_reader.specs.Units.{whole_of};

use crate::phases::{Kind, Phase};
use crate::turns::{self, BLOCK_BYTES, LINE_BYTES};
use crate::units::Unit;
use arc_core::{Heads, NoMemory};
use std::alloc::Global;
use std::marker::Model;

/// Cuts a stream that comes in any pieces into units: lines, and lines with the blocks that they ask for.
///
/// `G` knows which line asks for a block, of how many bytes, and the limit there. A line ends at its LF, and has
/// 65,536 bytes with it at most. The block is as long as its line says, whatever its bytes are, and CR LF follows it.
/// (This server's own; memcached ends a line with CR LF alone.)
///
/// One unit is read at a time: `feed` takes bytes until it is ready, `unit` tells it, and `done` drops it. A block
/// above its limit is passed over and not kept.
///
/// A large block, of more than 131,072 bytes with its CR LF, has memory of its own, just as much as that, from the end
/// of its line until `done` or `fresh` gives it back. Where it is refused the block is passed over too. So a reader
/// never holds more than one large block, and a smaller one never lacks memory.
///
/// Contracts see how far the reader is with its unit. `StandsFor` says which bytes it has taken of it since the last
/// one was done.
#[derive(Drop)]
pub struct Frames<G: Heads> {
    heads: G,
    // The line's bytes before its LF.
    line: Vec<u8>,
    // The block's bytes; without its CR LF where the unit is ready.
    block: Vec<u8>,
    // A large block's, in the same way. It has no memory in a line.
    large: Vec<u8>,
    phase: Phase,
}

impl<G: Heads> Model for Frames<G> {
    ghost use Rattle.std.specs.Prelude.{◌≤◌, vec_len, vec_capacity};
    ghost use Rattle.frame_reader.specs.Progress.{Progress};

    ghost Value = { Progress };

    ghost use Rattle.frame_reader.specs.Buffers.{progress_of, LeavesRoom};

    ghost view = { λ f. progress_of f.line.items f.block.items f.large.items f.phase };

    // Neither the line's buffer nor the block's grows after `new`.
    ghost invariant = { λ f. (65536 ≤ vec_capacity f.line) × (131072 ≤ vec_capacity f.block)
        × LeavesRoom (vec_len f.line) (vec_len f.block) (vec_len f.large) (vec_capacity f.large) f.phase };
}

impl<G: Heads> Frames<G> {
    /// A reader that has taken no byte. It takes 65,536 bytes of memory for a line and 131,072 for a block. Of the
    /// other calls only `feed` takes any. `NoMemory` comes for want of memory alone.
    pub fn new(alloc: Global, heads: G) -> Result<Frames<G>, NoMemory>
    where
        G: Drop,
        ensures stands { IfOk result (λ frames. StandsFor G.needs frames []) }
        ensures waits { IfOk result (λ frames. ready_unit frames ≡ None) }
    {
        let line = Vec::with_capacity(alloc, LINE_BYTES)?;
        let block = Vec::with_capacity(alloc, BLOCK_BYTES)?;
        Ok(Frames {
            heads,
            line,
            block,
            large: Vec::new(alloc),
            phase: Phase::InLine,
        })
    }

    /// Takes bytes from the front of the piece until a unit is ready, and tells how many.
    ///
    /// It takes the whole piece where no unit gets ready before its end, and nothing where one was ready already.
    ///
    /// Behind a line that asks for a large block within its limit it takes memory for that block, once. Where it is
    /// refused the unit is `BlockNoMemory`, and the block and its CR LF are passed over whatever they are. Nothing else
    /// takes memory here.
    pub fn feed(&mut self, piece: &[u8]) -> usize
        ensures within { result ≤ length piece.now }
        ensures stands { (bytes : List ℕ) → StandsFor G.needs self.old bytes
            → StandsFor G.needs self.new (bytes ++ take result piece.now) }
        ensures whole { result < length piece.now → IsSome (ready_unit self.new) }
        ensures some { ready_unit self.old ≡ None → 0 < length piece.now → 0 < result }
        ensures ready { IsSome (ready_unit self.old) → (result ≡ 0) × (self.new ≡ self.old) }
    {
        let mut taken = 0;
        while taken < piece.len() && !self.is_ready() {
            taken += self.turn(&piece[taken..]);
        }
        taken
    }

    /// The unit that is ready, or `Wait` where none is.
    ///
    /// The bytes that were taken are the unit's span, or, where none is ready, an unfinished unit: they begin with no
    /// whole one (`rest_begins_with_no_unit`). `BlockNoMemory` is for large blocks alone (`small_blocks_are_kept`).
    pub fn unit(&self) -> Unit<'_>
        ensures unit { whole_of result ≡ ready_unit self.now }
        ensures span { (bytes : List ℕ) → StandsFor G.needs self.now bytes
            → MatchOption (whole_of result) (IsRest G.needs bytes) (λ unit. IsSpan G.needs bytes unit) }
    {
        let Phase::Ready(kind) = self.phase else {
            return Unit::Wait;
        };
        let line = turns::without_cr(&self.line);
        match kind {
            Kind::Line => Unit::Line(line),
            Kind::LineWithBlock => Unit::LineWithBlock {
                line,
                block: &self.block,
            },
            Kind::LineWithLargeBlock => Unit::LineWithBlock {
                line,
                block: &self.large,
            },
            Kind::BadChunk => Unit::BadChunk { line },
            Kind::TooLarge => Unit::TooLarge { line },
            Kind::BlockNoMemory => Unit::BlockNoMemory { line },
            Kind::LineTooLong => Unit::LineTooLong,
        }
    }

    /// Drops the unit that is ready, which may not be `LineTooLong`: nothing is read behind that. No byte of the next
    /// unit is taken then, and the memory of a large block is given back.
    pub fn done(&mut self)
        requires ready { IsSome (ready_unit self.old) }
        requires goes_on { ready_unit self.old ≢ Some line_too_long }
        ensures stands { StandsFor G.needs self.new [] }
        ensures waits { ready_unit self.new ≡ None }
    {
        self.fresh();
    }

    /// How many bytes were taken of the unfinished unit, at most 4,295,032,832. It is 0 where a unit is ready.
    pub fn held(&self) -> u64
        ensures bytes { (bytes : List ℕ) → ready_unit self.now ≡ None → StandsFor G.needs self.now bytes
            → result ≡ length bytes }
        ensures ready { IsSome (ready_unit self.now) → result ≡ 0 }
    {
        let line = self.line.len() as u64;
        match self.phase {
            Phase::InLine => line,
            Phase::InBlock { .. } => line + 1 + self.block.len() as u64,
            Phase::InLargeBlock { .. } => line + 1 + self.large.len() as u64,
            Phase::PassingOver { passed, .. } => line + 1 + passed,
            Phase::Ready(_) => 0,
        }
    }

    /// Goes back to a reader that has taken no byte, as `new` gives it. It keeps the memory that `new` took, and gives
    /// that of a large block back.
    pub fn fresh(&mut self)
        ensures stands { StandsFor G.needs self.new [] }
        ensures waits { ready_unit self.new ≡ None }
    {
        self.line.clear();
        self.block.clear();
        self.large.clear();
        self.large.shrink_to_fit();
        self.phase = Phase::InLine;
    }

    // Takes bytes from the front of a piece in the reader's phase, and goes on to the next one where that ends.
    fn turn(&mut self, piece: &[u8]) -> usize
        requires piece { 0 < length piece.now }
        requires unfinished { ready_unit self.old ≡ None }
        ensures within { result ≤ length piece.now }
        ensures some { 0 < result }
        ensures stands { (bytes : List ℕ) → StandsFor G.needs self.old bytes
            → StandsFor G.needs self.new (bytes ++ take result piece.now) }
    {
        let (taken, phase) = match self.phase {
            Phase::InLine => {
                turns::take_line(&self.heads, &mut self.line, &mut self.large, piece)
            }
            Phase::InBlock { len } => turns::take_block(&mut self.block, len, piece),
            Phase::InLargeBlock { len } => turns::take_large_block(&mut self.large, len, piece),
            Phase::PassingOver { passed, left, kind } => {
                turns::pass_over(passed, left, kind, piece)
            }
            Phase::Ready(kind) => (0, Phase::Ready(kind)),
        };
        self.phase = phase;
        taken
    }

    // Whether a unit is ready.
    fn is_ready(&self) -> bool
        ensures { result ≡ is_some (ready_unit self.now) }
    {
        matches!(self.phase, Phase::Ready(_))
    }
}

//! What a reader does with a piece in each phase: it takes bytes from the front, and goes on to a phase.
ghost use Rattle.std.specs.Prelude.{◌≡◌, ◌≢◌, ℕ, ◌+◌, ◌^◌, ◌<◌, ◌≤◌, List, [], ◌∷◌, ◌++◌, length, take, drop, MatchOption, MatchBool, max, vec_len, vec_capacity};
ghost use Rattle.arc_core.specs.declared.outside.Need.{Need};
ghost use Rattle.arc_core.specs.declared.outside.Need.TheVariants.{Block};
ghost use Rattle.arc_core.specs.Framing as Framing;
ghost use Rattle.arc_core.specs.Framing.{HasNoLf};
ghost use Rattle.frame_reader.specs.Progress.{StandsFor, IsLinePart, in_line, in_block, passing_over};
ghost use Rattle.frame_reader.specs.Buffers.{Keeps, LeavesRoom, memory_for, progress_in, progress_of, unit_of};
ghost use Rattle.frame_reader.specs.declared.phases.Chunk.TheVariants.{Unfinished};
ghost use Rattle.frame_reader.specs.declared.phases.Phase.TheVariants.{PassingOver};

use crate::phases::{Chunk, Kind, Phase};
use arc_core::{Heads, Need};
use memchr::memchr;

/// The most bytes of a line with its LF.
pub(crate) const LINE_BYTES: usize = 65_536;

/// The most bytes of a block with its CR LF that is no large one.
pub(crate) const BLOCK_BYTES: usize = 131_072;

// Takes bytes of a line up to its LF, which is taken and not kept. An LF past the longest line is not looked for.
pub(crate) fn take_line<G: Heads>(
    heads: &G,
    line: &mut Vec<u8>,
    large: &mut Vec<u8>,
    piece: &[u8],
) -> (usize, Phase)
    requires unfinished { vec_len line.old < 65536 }
    requires capacity { 65536 ≤ vec_capacity line.old }
    requires empty { large.old.items ≡ [] }
    requires no_memory { vec_capacity large.old ≡ 0 }
    ensures within { result.0 ≤ length piece.now }
    ensures some { 0 < length piece.now → 0 < result.0 }
    ensures capacity { vec_capacity line.old ≤ vec_capacity line.new }
    ensures empty { large.new.items ≡ [] }
    ensures room { LeavesRoom (vec_len line.new) 0 (vec_len large.new) (vec_capacity large.new) result.1 }
    ensures stands { (bytes : List ℕ) → StandsFor G.needs (in_line line.old.items) bytes
        → StandsFor G.needs (progress_of line.new.items [] [] result.1) (bytes ++ take result.0 piece.now) }
{
    let room = piece.len().min(LINE_BYTES - line.len());
    match place_of_lf(&piece[..room]) {
        Some(place) => {
            append(line, &piece[..place]);
            (place + 1, phase_behind(heads.need(without_cr(line)), large))
        }
        None => {
            append(line, &piece[..room]);
            let phase = if line.len() < LINE_BYTES {
                Phase::InLine
            } else {
                Phase::Ready(Kind::LineTooLong)
            };
            (room, phase)
        }
    }
}

// The place of the first LF.
pub(crate) fn place_of_lf(piece: &[u8]) -> Option<usize>
    ensures { MatchOption result (HasNoLf piece.now)
        (λ place. (place < length piece.now) × HasNoLf (take place piece.now)
        × (take (place + 1) piece.now ≡ take place piece.now ++ 10 ∷ [])) }
{
    memchr(b'\n', piece)
}

// The bytes less one CR at their end.
pub(crate) fn without_cr(line: &[u8]) -> &[u8]
    ensures { result.now ≡ Framing.without_cr line.now }
{
    line.strip_suffix(b"\r").unwrap_or(line)
}

// Puts bytes behind those that are kept. There is room for them, so no memory is taken and none is refused.
fn append(kept: &mut Vec<u8>, bytes: &[u8])
    requires { vec_len kept.old + length bytes.now ≤ vec_capacity kept.old }
    ensures items { kept.new.items ≡ kept.old.items ++ bytes.now }
    ensures capacity { vec_capacity kept.old ≤ vec_capacity kept.new }
{
    let _ = kept.extend_from_slice(bytes);
}

// The phase behind a line that has this need. A large block within its limit takes memory for its bytes and its CR LF,
// and is not kept where that is refused.
fn phase_behind(need: Need, large: &mut Vec<u8>) -> Phase
    requires empty { large.old.items ≡ [] }
    requires no_memory { vec_capacity large.old ≡ 0 }
    ensures empty { large.new.items ≡ [] }
    ensures room { (line : ℕ) → line < 65536
        → LeavesRoom line 0 (vec_len large.new) (vec_capacity large.new) result }
    ensures kept { (len limit : ℕ) → need ≡ Block len limit → len ≤ limit
        → len + 2 ≤ max 131072 (vec_capacity large.new) → Keeps len result }
    ensures memory { vec_capacity large.new ≤ memory_for need }
    ensures stands { (needs : List ℕ → Need) (bytes body : List ℕ)
        → needs (Framing.without_cr body) ≡ need → bytes ≡ body ++ 10 ∷ [] → IsLinePart body
        → StandsFor needs (progress_of body [] [] result) bytes }
{
    let Need::Block { len, limit } = need else {
        return Phase::Ready(Kind::Line);
    };
    if len > limit {
        return passed_over(len, Kind::TooLarge);
    }
    let len_kept = len as usize;
    if len_kept + 2 <= BLOCK_BYTES {
        return Phase::InBlock { len: len_kept };
    }
    if large.reserve_exact(len_kept + 2).is_err() {
        return passed_over(len, Kind::BlockNoMemory);
    }
    Phase::InLargeBlock { len: len_kept }
}

// The phase at the front of a block of `len` bytes that is not kept.
fn passed_over(len: u32, kind: Kind) -> Phase
    ensures { result ≡ PassingOver 0 (len + 2) kind }
{
    Phase::PassingOver {
        passed: 0,
        left: u64::from(len) + 2,
        kind,
    }
}

// Takes bytes of a block of `len` bytes and the two bytes behind it.
pub(crate) fn take_block(block: &mut Vec<u8>, len: usize, piece: &[u8]) -> (usize, Phase)
    requires unfinished { vec_len block.old < len + 2 }
    requires short { len + 2 ≤ 131072 }
    requires capacity { 131072 ≤ vec_capacity block.old }
    ensures within { result.0 ≤ length piece.now }
    ensures some { 0 < length piece.now → 0 < result.0 }
    ensures capacity { vec_capacity block.old ≤ vec_capacity block.new }
    ensures room { (line large memory : ℕ) → line < 65536
        → LeavesRoom line (vec_len block.new) large memory result.1 }
    ensures stands { (needs : List ℕ → Need) (bytes body large : List ℕ)
        → StandsFor needs (in_block body len block.old.items) bytes
        → StandsFor needs (progress_of body block.new.items large result.1) (bytes ++ take result.0 piece.now) }
{
    let (taken, chunk) = take_chunk(block, len, piece);
    let phase = match chunk {
        Chunk::Unfinished => Phase::InBlock { len },
        Chunk::Whole => Phase::Ready(Kind::LineWithBlock),
        Chunk::Bad => Phase::Ready(Kind::BadChunk),
    };
    (taken, phase)
}

// Takes bytes of a large block of `len` bytes and the two bytes behind it.
pub(crate) fn take_large_block(large: &mut Vec<u8>, len: usize, piece: &[u8]) -> (usize, Phase)
    requires unfinished { vec_len large.old < len + 2 }
    requires short { len + 2 < 2 ^ 33 }
    requires capacity { len + 2 ≤ vec_capacity large.old }
    ensures within { result.0 ≤ length piece.now }
    ensures some { 0 < length piece.now → 0 < result.0 }
    ensures room { (line block : ℕ) → line < 65536
        → LeavesRoom line block (vec_len large.new) (vec_capacity large.new) result.1 }
    ensures stands { (needs : List ℕ → Need) (bytes body block : List ℕ)
        → StandsFor needs (in_block body len large.old.items) bytes
        → StandsFor needs (progress_of body block large.new.items result.1) (bytes ++ take result.0 piece.now) }
{
    let (taken, chunk) = take_chunk(large, len, piece);
    let phase = match chunk {
        Chunk::Unfinished => Phase::InLargeBlock { len },
        Chunk::Whole => Phase::Ready(Kind::LineWithLargeBlock),
        Chunk::Bad => Phase::Ready(Kind::BadChunk),
    };
    (taken, phase)
}

// Puts bytes of a block of `len` bytes, and the two bytes behind it, to those that are kept. CR LF is dropped there.
fn take_chunk(kept: &mut Vec<u8>, len: usize, piece: &[u8]) -> (usize, Chunk)
    requires unfinished { vec_len kept.old < len + 2 }
    requires short { len + 2 < 2 ^ 33 }
    requires capacity { len + 2 ≤ vec_capacity kept.old }
    ensures within { result.0 ≤ length piece.now }
    ensures some { 0 < length piece.now → 0 < result.0 }
    ensures capacity { vec_capacity kept.old ≤ vec_capacity kept.new }
    ensures unfinished { result.1 ≡ Unfinished → vec_len kept.new < len + 2 }
    ensures stands { (needs : List ℕ → Need) (bytes body : List ℕ)
        → StandsFor needs (in_block body len kept.old.items) bytes
        → StandsFor needs (progress_in body len kept.new.items result.1) (bytes ++ take result.0 piece.now) }
{
    let taken = piece.len().min(len + 2 - kept.len());
    append(kept, &piece[..taken]);
    if kept.len() < len + 2 {
        return (taken, Chunk::Unfinished);
    }
    if !ends_in_cr_lf(kept, len) {
        return (taken, Chunk::Bad);
    }
    kept.truncate(len);
    (taken, Chunk::Whole)
}

// Whether CR LF stands behind the block's bytes.
pub(crate) fn ends_in_cr_lf(chunk: &[u8], len: usize) -> bool
    requires { len ≤ length chunk.now }
    ensures { MatchBool result (drop len chunk.now ≡ 13 ∷ 10 ∷ []) (drop len chunk.now ≢ 13 ∷ 10 ∷ []) }
{
    &chunk[len..] == b"\r\n".as_slice()
}

// Takes bytes of a block that is not kept.
pub(crate) fn pass_over(passed: u64, left: u64, kind: Kind, piece: &[u8]) -> (usize, Phase)
    requires unfinished { 0 < left }
    requires short { passed + left < 2 ^ 33 }
    ensures within { result.0 ≤ length piece.now }
    ensures some { 0 < length piece.now → 0 < result.0 }
    ensures room { (line block large memory : ℕ) → line < 65536 → LeavesRoom line block large memory result.1 }
    ensures stands { (needs : List ℕ → Need) (bytes body block large : List ℕ)
        → StandsFor needs (passing_over body passed left (unit_of body block large kind)) bytes
        → StandsFor needs (progress_of body block large result.1) (bytes ++ take result.0 piece.now) }
{
    let taken = (piece.len() as u64).min(left);
    let phase = if taken < left {
        Phase::PassingOver {
            passed: passed + taken,
            left: left - taken,
            kind,
        }
    } else {
        Phase::Ready(kind)
    };
    (taken as usize, phase)
}

//! Whole units at the front of a piece, read where they lie.
ghost use Rattle.std.specs.Prelude.{◌≡◌, ◌≤◌, ℕ, List, length, take, IfSome};
ghost use Rattle.arc_core.specs.declared.outside.Need.{Need};
ghost use Rattle.arc_core.specs.declared.outside.Need.TheVariants.{Nothing, Block};
ghost use Rattle.arc_core.specs.Framing.{IsSpan};
ghost use Rattle.arc_core.specs.Framing as whole;
ghost use Rattle.frame_reader.specs.Fronts.{IsFrontLine, IsFrontBlock};

use crate::turns::{LINE_BYTES, ends_in_cr_lf, place_of_lf, without_cr};

/// The line at the front of a piece, without its LF and less one CR before it, and how many bytes of the piece it
/// takes with them. It lies in the piece, and nothing is copied.
///
/// `None` comes where the piece has no LF among its first 65,536 bytes: `Frames::feed` goes on with such a piece.
///
/// A reader that holds no byte (`Frames::held` is 0) need not be fed with a line that is read here: what stands behind
/// it is the next unit (`fronts_are_units`).
pub fn front_line(piece: &[u8]) -> Option<(&[u8], usize)>
    ensures { IfSome result (λ front. IsFrontLine piece.now front.0.now front.1) }
{
    let room = piece.len().min(LINE_BYTES);
    let place = place_of_lf(&piece[..room])?;
    Some((without_cr(&piece[..place]), place + 1))
}

/// The block of `len` bytes behind the first bytes of a piece, `at` of them, and how many bytes of the piece end with
/// its CR LF. It lies in the piece, and nothing is copied.
///
/// `None` comes where the piece ends before the block and its CR LF, or CR LF does not stand behind it:
/// `Frames::feed` goes on with the line and what the piece has of the block.
pub fn front_block(piece: &[u8], at: usize, len: u32) -> Option<(&[u8], usize)>
    requires { at ≤ length piece.now }
    ensures { IfSome result (λ front. IsFrontBlock piece.now at len front.0.now front.1) }
{
    let len = len as usize;
    if piece.len() - at < len + 2 {
        return None;
    }
    let end = at + len + 2;
    let (span, _) = piece.split_at(end);
    let (_, chunk) = span.split_at(at);
    if !ends_in_cr_lf(chunk, len) {
        return None;
    }
    let (block, _) = chunk.split_at(len);
    Some((block, end))
}

/// A law: a line at the front of a piece that asks for no block is a unit's span, and so is one with the block that it
/// asks for, within its limit.
pub fn fronts_are_units()
    ensures line { (needs : List ℕ → Need) (piece text : List ℕ) (count : ℕ)
        → IsFrontLine piece text count → needs text ≡ Nothing
        → IsSpan needs (take count piece) (whole.line text) }
    ensures block { (needs : List ℕ → Need) (piece text block : List ℕ) (count len limit end : ℕ)
        → IsFrontLine piece text count → needs text ≡ Block len limit → len ≤ limit
        → IsFrontBlock piece count len block end
        → IsSpan needs (take end piece) (whole.line_with_block text block) }
{}

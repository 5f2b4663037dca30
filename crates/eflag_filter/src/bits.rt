//! Bytes combined bit by bit.
ghost use Rattle.std.specs.Prelude.{◌≡◌};
ghost use Rattle.arc_core.specs.ShortBytes.{IsShort};
ghost use Rattle.arc_core.specs.Filter.{combination, combined_byte};

use arc_core::{BitOp, Eflag};

/// The most bytes of a flag.
pub const MAX_FLAG_BYTES: usize = 31;

// A part of a flag combined with an operand byte by byte, up to the end of the shorter.
pub fn combined(op: BitOp, part: &[u8], operand: &[u8]) -> Eflag
    requires part { IsShort part.now }
    requires operand { IsShort operand.now }
    ensures { result ≡ combination op part.now operand.now }
{
    let len = part.len().min(operand.len());
    let mut bytes = [0; MAX_FLAG_BYTES];
    for i in 0..len {
        bytes[i] = combine(op, part[i], operand[i]);
    }
    Eflag::of(&bytes[..len])
}

// Two bytes combined.
fn combine(op: BitOp, a: u8, b: u8) -> u8
    ensures { result ≡ combined_byte op a b }
{
    match op {
        BitOp::And => a & b,
        BitOp::Or => a | b,
        BitOp::Xor => a ^ b,
    }
}

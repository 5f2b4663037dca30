//! Which element flags pass a filter.
ghost use Rattle.std.specs.Prelude.{◌≡◌, ◌≤◌, ◌<◌, length, bytes_eq, IfSome};
ghost use Rattle.std.specs.List.{list_any};
ghost use Rattle.std.specs.Option.{option_copied};
ghost use Rattle.std.specs.Ordering.{nat_cmp};
ghost use Rattle.std.specs.Cmp.Lexicographic.{slice_cmp};
ghost use Rattle.arc_core.specs.HexText.{first_of};
ghost use Rattle.arc_core.specs.Filter.{flag_part};
ghost use Rattle.arc_core.specs.Filter as meaning;

use crate::bits::combined;
use arc_core::{CompOp, Eflag, Filter, FlagWords};
use std::cmp::Ordering;

/// Whether an element with this flag, or without one, passes a filter.
///
/// What is compared is the part of the flag from byte `fwhere` on, as long as a value, combined with the filter's
/// operand where there is one. EQ passes where it equals one of the values, NE where it equals none, and the others
/// compare it with the first value by the first byte in which they differ. Where the flag is missing or too short for
/// the part, NE alone passes.
pub fn passes(filter: &Filter<'_>, flag: &Option<Eflag>) -> bool
    ensures { result ≡ meaning.passes filter.now flag.now }
{
    let first = filter.values.first();
    let Some(part) = part_of(flag, filter.fwhere, first.bytes().len()) else {
        return filter.comp == CompOp::Ne;
    };
    match filter.bits {
        Some((op, operand)) => {
            let combined = combined(op, part, operand.bytes());
            compares(filter.comp, &filter.values, combined.bytes())
        }
        None => compares(filter.comp, &filter.values, part),
    }
}

// So many of a flag's bytes from a place on; none where the flag is missing or too short.
fn part_of(flag: &Option<Eflag>, place: u8, len: usize) -> Option<&[u8]>
    requires { len ≤ 31 }
    ensures part { option_copied result ≡ flag_part place len flag.now }
    ensures len { IfSome result (λ part. length part.now ≡ len) }
{
    let bytes = flag.as_ref()?.bytes();
    let start = usize::from(place);
    if start + len > bytes.len() {
        return None;
    }
    Some(&bytes[start..start + len])
}

// Whether bytes compare so with the values.
fn compares(comp: CompOp, values: &FlagWords<'_>, bytes: &[u8]) -> bool
    ensures { result ≡ meaning.compares comp values.now bytes.now }
{
    match comp {
        CompOp::Eq => is_among(bytes, values),
        CompOp::Ne => !is_among(bytes, values),
        CompOp::Lt => order(bytes, values).is_lt(),
        CompOp::Le => order(bytes, values).is_le(),
        CompOp::Gt => order(bytes, values).is_gt(),
        CompOp::Ge => order(bytes, values).is_ge(),
    }
}

// Whether bytes equal one of the values.
fn is_among(bytes: &[u8], values: &FlagWords<'_>) -> bool
    ensures { result ≡ list_any (λ value. bytes_eq bytes.now value) values.now }
{
    for value in values.iter() {
        if bytes == value.bytes() {
            return true;
        }
    }
    false
}

// How bytes compare with the first value.
fn order(bytes: &[u8], values: &FlagWords<'_>) -> Ordering
    ensures { result ≡ slice_cmp nat_cmp bytes.now (first_of values.now) }
{
    bytes.cmp(values.first().bytes())
}

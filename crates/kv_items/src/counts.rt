//! Values that spell numbers.
ghost use Rattle.std.specs.Prelude.{◌≡◌, ◌^◌};
ghost use Rattle.std.specs.Option.{option_map};
ghost use Rattle.arc_core.specs.Step.{counted};
ghost use Rattle.arc_core.specs.Words.{number_below};
ghost use Rattle.kv_items.specs.Counting.{or_not_numeric};

use arc_core::read_number;

/// The value spells no number of 64 bits.
#[derive(Clone, Copy, Debug, PartialEq, Eq)]
pub struct NotNumeric;

/// The number that the value spells, after a count by `delta`: up, where it begins again at 0 after 2^64 - 1, or down,
/// where it ends at 0.
///
/// The fault comes exactly where the value is not 1 to 20 decimal digits of a number below 2^64. Takes no memory.
/// (memcached's `incr` and `decr`; the number of digits is this server's own rule.)
pub fn counted(value: &[u8], up: bool, delta: u64) -> Result<u64, NotNumeric>
    ensures { result ≡ or_not_numeric (option_map (counted up delta) (number_below (2 ^ 64) value.now)) }
{
    let number = read_number(value, u64::MAX).ok_or(NotNumeric)?;
    Ok(if up {
        number.wrapping_add(delta)
    } else {
        number.saturating_sub(delta)
    })
}

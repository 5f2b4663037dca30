//! Printing bkeys and element flags.
ghost use Rattle.std.specs.Prelude.{◌≡◌, ◌++◌, ◌≤◌, length, take, drop, decimal, Some};
ghost use Rattle.hex.specs.Hex.{encode_lower};
ghost use Rattle.arc_core.specs.ShortBytes.{IsShort};
ghost use Rattle.arc_core.specs.HexText.{eflag_word, short_bytes};
ghost use Rattle.arc_core.specs.BkeyText.{bkey_word, bkey_text, eflag_text, hex_text};

use arc_core::{Bkey, Eflag};
use itoa::Buffer;

/// What stands before hexadecimal digits.
const PREFIX: &[u8] = b"0x";

/// Writes a bkey at the front of `out`, and answers how many bytes it takes; what stands behind them stays.
///
/// A number has no leading zeros, and bytes are written as `0x` and two digits in lower case for each. The text is
/// read back as the same bkey.
pub fn print_bkey(bkey: &Bkey, out: &mut [u8; 64]) -> usize
    ensures text { out.new ≡ bkey_text bkey.now ++ drop result out.old }
    ensures len { result ≡ length (bkey_text bkey.now) }
    ensures read_back { bkey_word (take result out.new) ≡ Some bkey.now }
{
    match bkey {
        Bkey::Number(number) => print_number(*number, out),
        Bkey::Bytes(bytes) => print_bytes(bytes.bytes(), out),
    }
}

/// Writes an element flag at the front of `out`, and answers how many bytes it takes; what stands behind them stays.
///
/// It is written as `0x` and two digits in lower case for each byte. The text is read back as the same flag.
pub fn print_eflag(eflag: &Eflag, out: &mut [u8; 64]) -> usize
    ensures text { out.new ≡ eflag_text eflag.now ++ drop result out.old }
    ensures len { result ≡ length (eflag_text eflag.now) }
    ensures read_back { eflag_word (take result out.new) ≡ Some eflag.now }
{
    print_bytes(eflag.bytes(), out)
}

// Writes a number at the front of `out`.
fn print_number(number: u64, out: &mut [u8; 64]) -> usize
    ensures text { out.new ≡ decimal number ++ drop result out.old }
    ensures len { result ≡ length (decimal number) }
    ensures read_back { bkey_word (decimal number) ≡ Some (Bkey.Number number) }
{
    let mut buffer = Buffer::new();
    let digits = buffer.format(number).as_bytes();
    out[..digits.len()].copy_from_slice(digits);
    digits.len()
}

// Writes `0x` and the digits of 1 to 31 bytes at the front of `out`.
fn print_bytes(bytes: &[u8], out: &mut [u8; 64]) -> usize
    requires { IsShort bytes.now }
    ensures text { out.new ≡ hex_text bytes.now ++ drop result out.old }
    ensures len { result ≡ length (hex_text bytes.now) }
    ensures read_back { short_bytes (encode_lower bytes.now) ≡ Some bytes.now }
{
    let len = PREFIX.len() + 2 * bytes.len();
    out[..PREFIX.len()].copy_from_slice(PREFIX);
    hex::encode_to_slice(bytes, &mut out[PREFIX.len()..len]).unwrap();
    len
}

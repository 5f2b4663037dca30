//! Reading bkeys and element flags.
ghost use Rattle.std.specs.Prelude.{◌≡◌, ◌+◌, ◌^◌, ◌<◌, ◌≤◌, length, not, position, Some, None};
ghost use Rattle.std.specs.Char.{is_ascii_digit, is_ascii_hexdigit};
ghost use Rattle.std.specs.Result.{result_ok, result_err};
ghost use Rattle.arc_core.specs.Words.{number_below};
ghost use Rattle.arc_core.specs.HexText.{short_bytes, eflag_word};
ghost use Rattle.arc_core.specs.BkeyText.{bkey_word};
ghost use Rattle.bkey_order.specs.BkeyFaults.{hex_fault, number_fault, bkey_fault, eflag_fault};

use crate::BkeyFault;
use arc_core::{Bkey, Eflag, MAX_DIGITS, ShortBytes, hex_digits, read_number};

/// Reads a word as a bkey: a number of 64 bits, or `0x` and the hexadecimal digits of 1 to 31 bytes.
///
/// Leading zeros of a number count for nothing, and hexadecimal digits may have either case. The fault is the first
/// that there is of `Empty` (no byte, or none behind `0x`), `BadDigit` with the first bad place, `OddDigits`,
/// `TooLong` and `TooBig`.
#[tactic(auto, unfolding(arc_core::specs::BkeyText::bkey_word, crate::specs::BkeyFaults::bkey_fault))]
pub fn read_bkey(word: &[u8]) -> Result<Bkey, BkeyFault>
    ensures value { result_ok result ≡ bkey_word word.now }
    ensures fault { result_err result ≡ bkey_fault word.now }
{
    match hex_digits(word) {
        Some(digits) => Ok(Bkey::Bytes(read_bytes(digits)?)),
        None => Ok(Bkey::Number(number_of_word(word)?)),
    }
}

/// Reads a word as an element flag: `0x` and the hexadecimal digits of 1 to 31 bytes, in either case.
///
/// The fault is the first that there is of `Empty` (no byte, or none behind `0x`), `BadDigit` with the first bad
/// place, which is 0 where the word does not begin with `0x`, `OddDigits` and `TooLong`.
#[tactic(auto, unfolding(arc_core::specs::HexText::eflag_word, crate::specs::BkeyFaults::eflag_fault))]
pub fn read_eflag(word: &[u8]) -> Result<Eflag, BkeyFault>
    ensures value { result_ok result ≡ eflag_word word.now }
    ensures fault { result_err result ≡ eflag_fault word.now }
{
    match hex_digits(word) {
        Some(digits) => Ok(Eflag::of(read_bytes(digits)?.bytes())),
        None if word.is_empty() => Err(BkeyFault::Empty),
        None => Err(BkeyFault::BadDigit(0)),
    }
}

// Reads what stands behind the `0x` of a word.
fn read_bytes(digits: &[u8]) -> Result<ShortBytes, BkeyFault>
    requires { length digits.now + 2 < 2 ^ 64 }
    ensures value { result_ok result ≡ short_bytes digits.now }
    ensures fault { result_err result ≡ hex_fault digits.now }
{
    if digits.is_empty() {
        return Err(BkeyFault::Empty);
    }
    if let Some(place) = first_bad_hex_digit(digits) {
        return Err(BkeyFault::BadDigit(place + 2));
    }
    if digits.len() % 2 == 1 {
        return Err(BkeyFault::OddDigits);
    }
    ShortBytes::from_hex(digits).ok_or(BkeyFault::TooLong)
}

// Reads a word as a number of 64 bits.
#[tactic(auto, unfolding(arc_core::specs::Words::number_below))]
fn number_of_word(word: &[u8]) -> Result<u64, BkeyFault>
    ensures value { result_ok result ≡ number_below (2 ^ 64) word.now }
    ensures fault { result_err result ≡ number_fault word.now }
{
    match read_number(word, u64::MAX) {
        Some(number) => Ok(number),
        None => Err(fault_of_number(word)),
    }
}

// What is wrong with a word that is no number of 64 bits.
#[tactic(auto, unfolding(arc_core::specs::Words::number_below))]
fn fault_of_number(word: &[u8]) -> BkeyFault
    requires { number_below (2 ^ 64) word.now ≡ None }
    ensures { Some result ≡ number_fault word.now }
{
    if word.is_empty() {
        return BkeyFault::Empty;
    }
    if let Some(place) = first_bad_digit(word) {
        return BkeyFault::BadDigit(place);
    }
    if word.len() > MAX_DIGITS {
        BkeyFault::TooLong
    } else {
        BkeyFault::TooBig
    }
}

// The place of the first byte that is no hexadecimal digit.
fn first_bad_hex_digit(word: &[u8]) -> Option<usize>
    ensures { result ≡ position (λ b. not (is_ascii_hexdigit b)) word.now }
{
    word.iter().position(|byte| !byte.is_ascii_hexdigit())
}

// The place of the first byte that is no decimal digit.
fn first_bad_digit(word: &[u8]) -> Option<usize>
    ensures { result ≡ position (λ b. not (is_ascii_digit b)) word.now }
{
    word.iter().position(|byte| !byte.is_ascii_digit())
}

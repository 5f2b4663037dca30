//! Numbers as words.
ghost use Rattle.std.specs.Prelude.{◌≡◌, ◌≤◌, ◌+◌, IfSome, length, take, true};
ghost use Rattle.std.specs.Char.{is_ascii_digit};
ghost use Rattle.std.specs.List.{list_all};
ghost use Rattle.arc_core.specs.Words.{number_below, number_of};

/// The most digits of a number.
pub const MAX_DIGITS: usize = 20;

// So many digits spell a number of 64 bits, whatever they are.
const SHORT_DIGITS: usize = 18;

/// Reads a word as a number of at most `most`: 1 to 20 decimal digits, of which leading zeros count for nothing.
///
/// `None` comes exactly for any other word. Takes no memory. (This server's own rule; memcached reads numbers as the C
/// library does.)
#[tactic(auto, unfolding(crate::specs::Words::number_below))]
pub fn read_number(word: &[u8], most: u64) -> Option<u64>
    ensures value { result ≡ number_below (most + 1) word.now }
    ensures fits { IfSome result (λ n. n ≤ most) }
{
    if word.is_empty() || word.len() > MAX_DIGITS {
        return None;
    }
    let (number, len) = front_number(word);
    if len < word.len() {
        return read_long(word, most);
    }
    if number <= most { Some(number) } else { None }
}

/// The number that the digits in front of a text spell, and how many they are. At most 18 digits are read.
///
/// (A short loop of its own is tighter than one that is folded into its callers.)
#[inline(never)]
pub(crate) fn front_number(text: &[u8]) -> (u64, usize)
    ensures within { result.1 ≤ length text.now }
    ensures few { result.1 ≤ 18 }
    ensures digits { list_all is_ascii_digit (take result.1 text.now) ≡ true }
    ensures value { result.0 ≡ number_of (take result.1 text.now) }
{
    let mut number: u64 = 0;
    let mut len = 0;
    for byte in text {
        if len == SHORT_DIGITS || !byte.is_ascii_digit() {
            return (number, len);
        }
        number = 10 * number + u64::from(*byte - b'0');
        len += 1;
    }
    (number, len)
}

// Reads a word of 1 to 20 bytes, in wider numbers.
#[tactic(auto, unfolding(crate::specs::Words::number_below))]
fn read_long(word: &[u8], most: u64) -> Option<u64>
    requires some { 1 ≤ length word.now }
    requires few { length word.now ≤ 20 }
    ensures value { result ≡ number_below (most + 1) word.now }
    ensures fits { IfSome result (λ n. n ≤ most) }
{
    let mut number: u128 = 0;
    for digit in word {
        if !digit.is_ascii_digit() {
            return None;
        }
        number = 10 * number + u128::from(*digit - b'0');
    }
    if number <= u128::from(most) {
        Some(number as u64)
    } else {
        None
    }
}

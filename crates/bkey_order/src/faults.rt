//! What is wrong with words that are no bkeys and no element flags.

/// What is wrong with a word. Where several things are, it is the first of them in the order of the variants.
#[derive(Clone, Copy, Debug, PartialEq, Eq)]
pub enum BkeyFault {
    /// There is no word, or nothing behind its `0x`.
    Empty,
    /// The byte at this place of the word, counted from 0, is no digit; it is the first such byte.
    BadDigit(usize),
    /// The number of hexadecimal digits is odd.
    OddDigits,
    /// There are more than 62 hexadecimal digits, which are 31 bytes, or more than 20 decimal digits.
    TooLong,
    /// The number needs more than 64 bits.
    TooBig,
}

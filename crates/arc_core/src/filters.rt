//! Element flags, the filters that they pass, and what an update makes of them.
ghost use Rattle.std.specs.Prelude.{◌≡◌, ◌∷◌, position};
ghost use Rattle.std.specs.Iterator.{YieldsFirst, YieldsFirstRef, item_count};
ghost use Rattle.arc_core.specs.ShortBytes.{IsShort};
ghost use Rattle.arc_core.specs.HexText.{is_comma, comma_parts, parts_left, first_of, eflag_word, flag_words, are_filter_values};

use crate::ShortBytes;
use crate::short_bytes::hex_digits;
use std::marker::Model;

/// The most values of a filter.
const MAX_FILTER_VALUES: usize = 100;

/// The flag of an element: 1 to 31 bytes, kept in place. Contracts see the list of its bytes. (ARCUS's eflag.)
#[derive(Clone, Copy, Debug, PartialEq, Eq)]
pub struct Eflag {
    bytes: ShortBytes,
}

impl Model for Eflag {
    ghost use Rattle.std.specs.Prelude.{List, ℕ};
    ghost use Rattle.arc_core.specs.ShortBytes.{IsShort};

    ghost Value = { List ℕ };

    ghost view = { λ flag. flag.bytes };

    ghost invariant = { λ flag. IsShort flag.bytes };

    ghost inverse = { λ list. record { bytes = list } };
}

impl Eflag {
    /// The flag of 1 to 31 bytes.
    pub fn of(bytes: &[u8]) -> Eflag
        requires { IsShort bytes.now }
        ensures { result ≡ bytes.now }
    {
        Eflag {
            bytes: ShortBytes::of(bytes),
        }
    }

    /// The flag's bytes.
    pub fn bytes(&self) -> &[u8]
        ensures bytes { result.now ≡ self.now }
        ensures short { IsShort result.now }
    {
        self.bytes.bytes()
    }
}

/// How a flag's bytes are combined with an operand, bit by bit. (`&`, `|` and `^` of the ARCUS protocol.)
#[derive(Clone, Copy, Debug, PartialEq, Eq)]
pub enum BitOp {
    And,
    Or,
    Xor,
}

/// How a part of a flag is compared with a filter's values.
#[derive(Clone, Copy, Debug, PartialEq, Eq)]
pub enum CompOp {
    /// It equals one of the values.
    Eq,
    /// It equals none of the values.
    Ne,
    /// It is below the first value, by the first byte in which they differ.
    Lt,
    /// It is at or below the first value.
    Le,
    /// It is above the first value.
    Gt,
    /// It is at or above the first value.
    Ge,
}

/// Which element flags a read selects.
///
/// The part of the flag from byte `fwhere` (0 to 30) on, as long as a value, is combined with the operand of `bits`
/// where there is one, and compared with the values. (A filter of the ARCUS protocol.)
#[derive(Drop)]
pub struct Filter<'a> {
    pub fwhere: u8,
    pub bits: Option<(BitOp, Eflag)>,
    pub comp: CompOp,
    pub values: FlagWords<'a>,
}

/// What an update makes of an element's flag.
#[derive(Clone, Copy, Debug, PartialEq, Eq)]
pub enum EflagChange {
    /// It stays as it is.
    Keep,
    /// The element has no flag afterwards.
    Remove,
    /// This flag takes its place.
    Put(Eflag),
    /// Its bytes from this place (0 to 30) on are combined with the operand.
    Combine(u8, BitOp, Eflag),
}

/// The values of a filter: 1 to 100 flags of one length, which stand in one word with commas between them.
///
/// Contracts see the list of the flags, in order.
#[derive(Drop)]
pub struct FlagWords<'a> {
    word: &'a [u8],
}

impl<'a> Model for FlagWords<'a> {
    ghost use Rattle.std.specs.Prelude.{◌≡◌, List, ℕ, true};
    ghost use Rattle.arc_core.specs.HexText.{comma_parts, flags_of, are_filter_values};

    ghost Value = { List (List ℕ) };

    ghost view = { λ values. flags_of (comma_parts values.word.now) };

    ghost invariant = { λ values. are_filter_values (comma_parts values.word.now) ≡ true };
}

impl<'a> FlagWords<'a> {
    /// Reads a word as filter values.
    ///
    /// `None` comes exactly where it is no list of 1 to 100 flags of one length. Takes no memory.
    #[tactic(auto, unfolding(crate::specs::HexText::flag_words))]
    pub fn read(word: &'a [u8]) -> Option<FlagWords<'a>>
        ensures { result ≡ flag_words word.now }
    {
        if are_values(word) {
            Some(FlagWords { word })
        } else {
            None
        }
    }

    /// The first value.
    pub fn first(&self) -> Eflag
        ensures { result ≡ first_of self.now }
    {
        let (value, _) = first_part(self.word);
        read_flag(value).unwrap()
    }

    /// The values in order.
    pub fn iter(&self) -> FlagIter<'_>
        ensures { result ≡ self.now }
    {
        FlagIter {
            parts: PartIter::of(self.word),
        }
    }
}

/// Flags, one after another. Contracts see the list of those that are left.
#[derive(Drop)]
pub struct FlagIter<'a> {
    parts: PartIter<'a>,
}

impl<'a> Model for FlagIter<'a> {
    ghost use Rattle.std.specs.Prelude.{List, ℕ};
    ghost use Rattle.arc_core.specs.HexText.{flags_of, AreFlags};

    ghost Value = { List (List ℕ) };

    ghost view = { λ flags. flags_of flags.parts };

    ghost invariant = { λ flags. AreFlags flags.parts };
}

impl<'a> Iterator for FlagIter<'a> {
    type Item = Eflag;

    ghost next_gives = { YieldsFirst (λ left. left) };

    ghost remaining = { item_count (λ left. left) };

    fn next(&mut self) -> Option<Eflag> {
        read_flag(self.parts.next()?)
    }
}

// Reads a word as a flag.
#[tactic(auto, unfolding(crate::specs::HexText::eflag_word))]
fn read_flag(word: &[u8]) -> Option<Eflag>
    ensures { result ≡ eflag_word word.now }
{
    let digits = hex_digits(word)?;
    let bytes = ShortBytes::from_hex(digits)?;
    Some(Eflag { bytes })
}

// Whether the parts of a word between its commas are 1 to 100 flags of one length.
fn are_values(word: &[u8]) -> bool
    ensures { result ≡ are_filter_values (comma_parts word.now) }
{
    let (first, _) = first_part(word);
    let mut count = 0;
    for part in PartIter::of(word) {
        if count == MAX_FILTER_VALUES || part.len() != first.len() || read_flag(part).is_none() {
            return false;
        }
        count += 1;
    }
    true
}

// A text up to its first comma, and what stands behind the comma, if there is one.
fn first_part(text: &[u8]) -> (&[u8], Option<&[u8]>)
    ensures { comma_parts text.now ≡ result.0.now ∷ parts_left result.1 }
{
    match first_comma(text) {
        Some(place) => (&text[..place], Some(&text[place + 1..])),
        None => (text, None),
    }
}

// The place of the first comma.
fn first_comma(text: &[u8]) -> Option<usize>
    ensures { result ≡ position is_comma text.now }
{
    text.iter().position(|byte| *byte == b',')
}

// The parts of a text between its commas, one after another. Contracts see the list of those that are left.
#[derive(Drop)]
struct PartIter<'a> {
    left: Option<&'a [u8]>,
}

impl<'a> Model for PartIter<'a> {
    ghost use Rattle.std.specs.Prelude.{List, ℕ};
    ghost use Rattle.arc_core.specs.HexText.{parts_left};

    ghost Value = { List (List ℕ) };

    ghost view = { λ parts. parts_left parts.left };
}

impl<'a> PartIter<'a> {
    // The parts of the text.
    fn of(text: &'a [u8]) -> PartIter<'a>
        ensures { result ≡ comma_parts text.now }
    {
        PartIter { left: Some(text) }
    }
}

impl<'a> Iterator for PartIter<'a> {
    type Item = &'a [u8];

    ghost next_gives = { YieldsFirstRef (λ left. left) };

    ghost remaining = { item_count (λ left. left) };

    fn next(&mut self) -> Option<&'a [u8]> {
        let (part, left) = first_part(self.left?);
        self.left = left;
        Some(part)
    }
}

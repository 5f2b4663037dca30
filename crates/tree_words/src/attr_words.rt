//! Names of attributes, and pairs of a name and a value, that stand in a line.
ghost use Rattle.std.specs.Prelude.{◌≡◌, ◌≤◌, length, nat_le, option_map, position, true};
ghost use Rattle.arc_core.specs.Words.{words};
ghost use Rattle.tree_words.specs.AttrTexts.{are_pairs, is_equals, pair_word, pairs_up_to, words_up_to};

use arc_core::{MAX_ATTRIBUTES, WordIter};
use std::marker::Model;

/// Up to 16 words of a line. Contracts see the list of them.
#[derive(Drop)]
pub struct AttrWords<'a> {
    text: &'a [u8],
}

impl<'a> Model for AttrWords<'a> {
    ghost use Rattle.std.specs.Prelude.{◌≤◌, List, ℕ, length};
    ghost use Rattle.arc_core.specs.Words.{words};

    ghost Value = { List (List ℕ) };

    ghost view = { λ list. words list.text.now };

    ghost invariant = { λ list. length (words list.text.now) ≤ 16 };
}

impl<'a> AttrWords<'a> {
    /// The words of a text; `None` exactly where there are more than 16. Takes no memory.
    pub fn read(text: &'a [u8]) -> Option<AttrWords<'a>>
        ensures { result ≡ words_up_to 16 (words text.now) }
    {
        if has_few_words(text) {
            Some(AttrWords { text })
        } else {
            None
        }
    }

    /// The words in order.
    pub fn iter(&self) -> WordIter<'a>
        ensures words { result ≡ self.now }
        ensures few { length self.now ≤ 16 }
    {
        WordIter::of(self.text)
    }
}

// Whether a text has at most 16 words.
fn has_few_words(text: &[u8]) -> bool
    ensures { result ≡ nat_le (length (words text.now)) 16 }
{
    let mut count = 0;
    for _word in WordIter::of(text) {
        if count == MAX_ATTRIBUTES {
            return false;
        }
        count += 1;
    }
    true
}

/// 1 to 16 words of a line, each of them a name and a value with `=` between them. Contracts see the list of the words.
#[derive(Drop)]
pub struct AttrPairs<'a> {
    text: &'a [u8],
}

impl<'a> Model for AttrPairs<'a> {
    ghost use Rattle.std.specs.Prelude.{◌≡◌, List, ℕ, true};
    ghost use Rattle.arc_core.specs.Words.{words};
    ghost use Rattle.tree_words.specs.AttrTexts.{are_pairs};

    ghost Value = { List (List ℕ) };

    ghost view = { λ list. words list.text.now };

    ghost invariant = { λ list. are_pairs 16 (words list.text.now) ≡ true };
}

impl<'a> AttrPairs<'a> {
    /// The words of a text; `None` exactly where there is none, or more than 16, or one without `=`. Takes no memory.
    pub fn read(text: &'a [u8]) -> Option<AttrPairs<'a>>
        ensures { result ≡ pairs_up_to 16 (words text.now) }
    {
        if are_pairs(text) {
            Some(AttrPairs { text })
        } else {
            None
        }
    }

    /// The words in order, each of which `pair` splits.
    pub fn iter(&self) -> WordIter<'a>
        ensures words { result ≡ self.now }
        ensures pairs { are_pairs 16 self.now ≡ true }
    {
        WordIter::of(self.text)
    }
}

// Whether the words of a text are 1 to 16, each with `=` in it.
fn are_pairs(text: &[u8]) -> bool
    ensures { result ≡ are_pairs 16 (words text.now) }
{
    let mut count = 0;
    for word in WordIter::of(text) {
        if count == MAX_ATTRIBUTES || first_equals(word).is_none() {
            return false;
        }
        count += 1;
    }
    count > 0
}

/// The name and the value of a pair: what stands before the first `=` of the word, and what stands behind it. `None` where
/// it has none.
pub fn pair(word: &[u8]) -> Option<(&[u8], &[u8])>
    ensures { option_map (λ pair. (pair.0.now, pair.1.now)) result ≡ pair_word word.now }
{
    let place = first_equals(word)?;
    let (name, _) = word.split_at(place);
    let (_, value) = word.split_at(place + 1);
    Some((name, value))
}

// The place of the first `=`.
fn first_equals(word: &[u8]) -> Option<usize>
    ensures { result ≡ position is_equals word.now }
{
    word.iter().position(|byte| *byte == b'=')
}

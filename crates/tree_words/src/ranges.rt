//! Bkeys, ranges of bkeys, and element flags as words of a line. (The ARCUS protocol.)
ghost use Rattle.std.specs.Prelude.{◌≡◌, ◌<◌, None, Some, length, position, option_map};
ghost use Rattle.arc_core.specs.BkeyOrder.{are_of_one_kind};
ghost use Rattle.arc_core.specs.BkeyText.{bkey_word};
ghost use Rattle.arc_core.specs.CollectionGrammar.{is_dot};
ghost use Rattle.arc_core.specs.HexText.{eflag_word};
ghost use Rattle.arc_core.specs.Rows.{one, part_read, or_left_out};
ghost use Rattle.tree_words.specs.TreeGrammar.{bkey_range_word, bkey_range_at, bkeys_between};

use arc_core::{Bkey, BkeyRange, Eflag, WordIter};
use bkey_order::{read_bkey, read_eflag};

/// Takes the next word if it is a bkey: a number of 64 bits, or `0x` and the hexadecimal digits of 1 to 31 bytes.
pub fn next_bkey(words: &mut WordIter<'_>) -> Option<Bkey>
    ensures { part_read (one bkey_word) words.old ≡ option_map (λ bkey. (bkey, words.new)) result }
{
    read_bkey(words.next()?).ok()
}

/// Takes the next word if it is a bkey, or two of one kind with `..` between them.
pub fn next_bkey_range(words: &mut WordIter<'_>) -> Option<BkeyRange>
    ensures { part_read (one bkey_range_word) words.old ≡ option_map (λ range. (range, words.new)) result }
{
    bkey_range(words.next()?)
}

/// Takes the next word if it is an element flag: `0x` and the hexadecimal digits of 1 to 31 bytes.
pub fn next_eflag(words: &mut WordIter<'_>) -> Option<Eflag>
    ensures { part_read (one eflag_word) words.old ≡ option_map (λ eflag. (eflag, words.new)) result }
{
    read_eflag(words.next()?).ok()
}

/// Reads `[<eflag>]`: the flag, where the line has one, and the words behind it.
pub fn optional_eflag(words: WordIter<'_>) -> (Option<Eflag>, WordIter<'_>)
    ensures { result ≡ or_left_out words.entry (part_read (one eflag_word) words.entry) }
{
    let mut ahead = WordIter::of(words.text());
    match next_eflag(&mut ahead) {
        Some(eflag) => (Some(eflag), ahead),
        None => (None, words),
    }
}

// Reads a word as one bkey, or as two behind whose first the dots stand.
#[tactic(auto, unfolding(crate::specs::TreeGrammar::bkey_range_word))]
fn bkey_range(word: &[u8]) -> Option<BkeyRange>
    ensures { result ≡ bkey_range_word word.now }
{
    match first_dot(word) {
        Some(place) => range_at(word, place),
        None => single_bkey(word),
    }
}

// The place of a word's first dot.
fn first_dot(word: &[u8]) -> Option<usize>
    ensures { result ≡ position is_dot word.now }
{
    word.iter().position(|byte| *byte == b'.')
}

// Reads a word as one bkey.
fn single_bkey(word: &[u8]) -> Option<BkeyRange>
    ensures { result ≡ bkey_range_at word.now None }
{
    let first = read_bkey(word).ok()?;
    let last = first;
    Some(BkeyRange { first, last })
}

// Reads a word as two bkeys, the first of which ends at this place, where a dot stands.
fn range_at(word: &[u8], place: usize) -> Option<BkeyRange>
    requires { place < length word.now }
    ensures { result ≡ bkey_range_at word.now (Some place) }
{
    if place + 1 >= word.len() || word[place + 1] != b'.' {
        return None;
    }
    let (first, _) = word.split_at(place);
    let (_, last) = word.split_at(place + 2);
    bkeys_between(read_bkey(first).ok(), read_bkey(last).ok())
}

// The range from one bkey to another, where both are there and of one kind.
fn bkeys_between(first: Option<Bkey>, last: Option<Bkey>) -> Option<BkeyRange>
    ensures { result ≡ bkeys_between first last }
{
    let first = first?;
    let last = last?;
    if are_of_one_kind(&first, &last) {
        Some(BkeyRange { first, last })
    } else {
        None
    }
}

// Whether both are numbers, or both are bytes.
fn are_of_one_kind(first: &Bkey, last: &Bkey) -> bool
    ensures { result ≡ are_of_one_kind first.now last.now }
{
    match (first, last) {
        (Bkey::Number(_), Bkey::Number(_)) => true,
        (Bkey::Bytes(_), Bkey::Bytes(_)) => true,
        _ => false,
    }
}

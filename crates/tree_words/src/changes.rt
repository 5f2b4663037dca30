//! What `bop update` makes of an element's flag and value, as words of a line. (The ARCUS protocol.)
ghost use Rattle.std.specs.Prelude.{◌≡◌, option_map};
ghost use Rattle.arc_core.specs.CollectionGrammar.{len_word};
ghost use Rattle.arc_core.specs.Rows.{one, part_read};
ghost use Rattle.tree_words.specs.Reading.{changed_read, combining_read, keeping_read};
ghost use Rattle.tree_words.specs.TreeGrammar.{new_flag_word, putting_part, value_len_word};

use crate::counts::MAX_LEN;
use crate::filters::{bits, next_fwhere};
use arc_core::{EflagChange, WordIter, read_number};
use bkey_order::read_eflag;

/// Reads `[[<fwhere> <bitwop>] <fvalue>] <bytes>`: the change of the flag and the length of the new value, which is none
/// where the value stays; and hands out the words behind.
pub fn change(words: WordIter<'_>) -> Option<((EflagChange, Option<u32>), WordIter<'_>)>
    ensures { result ≡ changed_read words.entry }
{
    if let Some(read) = combining(WordIter::of(words.text())) {
        return Some(read);
    }
    if let Some(read) = putting(WordIter::of(words.text())) {
        return Some(read);
    }
    keeping(words)
}

// Reads `<fwhere> <bitwop> <fvalue> <bytes>`.
fn combining(mut words: WordIter<'_>) -> Option<((EflagChange, Option<u32>), WordIter<'_>)>
    ensures { result ≡ combining_read words.entry }
{
    let place = next_fwhere(&mut words)?;
    let ((op, operand), mut words) = bits(words)?;
    let len = next_value_len(&mut words)?;
    Some(((EflagChange::Combine(place, op, operand), len), words))
}

// Reads `<fvalue> <bytes>`.
fn putting(mut words: WordIter<'_>) -> Option<((EflagChange, Option<u32>), WordIter<'_>)>
    ensures { result ≡ part_read putting_part words.entry }
{
    let change = new_flag(words.next()?)?;
    let len = next_value_len(&mut words)?;
    Some(((change, len), words))
}

// Reads `<bytes>`.
fn keeping(mut words: WordIter<'_>) -> Option<((EflagChange, Option<u32>), WordIter<'_>)>
    ensures { result ≡ keeping_read words.entry }
{
    let len = next_value_len(&mut words)?;
    Some(((EflagChange::Keep, len), words))
}

// Takes the next word if it is the length of a new value, or says that the value stays.
fn next_value_len(words: &mut WordIter<'_>) -> Option<Option<u32>>
    ensures { part_read (one value_len_word) words.old ≡ option_map (λ len. (len, words.new)) result }
{
    value_len(words.next()?)
}

// Reads a word as the length of a new value, or as `-1`.
#[tactic(auto, unfolding(crate::specs::TreeGrammar::value_len_word))]
fn value_len(word: &[u8]) -> Option<Option<u32>>
    ensures { result ≡ value_len_word word.now }
{
    if word == b"-1".as_slice() {
        return Some(None);
    }
    let len = read_number(word, MAX_LEN)?;
    Some(Some(len as u32))
}

// Reads a word as a new flag, or as `0`, which removes the flag.
#[tactic(auto, unfolding(crate::specs::TreeGrammar::new_flag_word))]
fn new_flag(word: &[u8]) -> Option<EflagChange>
    ensures { result ≡ new_flag_word word.now }
{
    if word == b"0".as_slice() {
        return Some(EflagChange::Remove);
    }
    let eflag = read_eflag(word).ok()?;
    Some(EflagChange::Put(eflag))
}

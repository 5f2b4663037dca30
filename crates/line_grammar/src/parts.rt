//! Parts of a line that are no keys and no plain numbers, one word each, and parts that may be left out.
ghost use Rattle.std.specs.Prelude.{◌≡◌, ◌≤◌, ◌+◌, ◌<◌, ◌^◌, IfSome, option_map};
ghost use Rattle.arc_core.specs.KeyValueGrammar.{noreply_word};
ghost use Rattle.arc_core.specs.Rows.{one, part_read, or_left_out};
ghost use Rattle.arc_core.specs.Words.{number_below, number_from_1, exptime_word, zero_word};
ghost use Rattle.line_grammar.specs.Parts.{initial_part, nested};

use arc_core::{Answer, WordIter, read_number};

/// The greatest exptime below 0, less its sign.
const MAX_NEGATIVE: u64 = 2_147_483_648;

/// Takes the next word if it is a number from 1 to `most`, which is below 2^32.
#[tactic(auto, unfolding(arc_core::specs::Words::number_below, arc_core::specs::Words::number_from_1))]
pub fn next_from_1(words: &mut WordIter<'_>, most: u64) -> Option<u32>
    requires { most < 2 ^ 32 }
    ensures { part_read (one (number_from_1 (most + 1))) words.old ≡ option_map (λ n. (n, words.new)) result }
{
    let number = words.next_number(most)?;
    if number == 0 {
        return None;
    }
    Some(number as u32)
}

/// Takes the next word if it is an exptime: a number of 32 bits, or a minus sign and a number of at most 2,147,483,648.
#[tactic(auto, unfolding(arc_core::specs::Words::exptime_word))]
pub fn next_exptime(words: &mut WordIter<'_>) -> Option<i64>
    ensures { part_read (one exptime_word) words.old ≡ option_map (λ e. (e, words.new)) result }
{
    exptime(words.next()?)
}

// Reads a word as an exptime.
#[tactic(auto, unfolding(arc_core::specs::Words::exptime_word))]
fn exptime(word: &[u8]) -> Option<i64>
    ensures { result ≡ exptime_word word.now }
{
    if let [b'-', digits @ ..] = word {
        let number = read_number(digits, MAX_NEGATIVE)?;
        return Some(-(number as i64));
    }
    let number = read_number(word, u64::from(u32::MAX))?;
    Some(number as i64)
}

// Reads a word as `0`, and no other spelling of the number.
#[tactic(auto, unfolding(arc_core::specs::Words::zero_word))]
fn zero(word: &[u8]) -> Option<u32>
    ensures { result ≡ zero_word word.now }
{
    if word == b"0".as_slice() {
        Some(0)
    } else {
        None
    }
}

/// Reads a word as `noreply`.
#[tactic(auto, unfolding(arc_core::specs::KeyValueGrammar::noreply_word))]
pub fn no_reply(word: &[u8]) -> Option<Answer>
    ensures { result ≡ noreply_word word.now }
{
    if word == b"noreply".as_slice() {
        Some(Answer::NoReply)
    } else {
        None
    }
}

/// Reads `[0]`: the words behind it, which are the same words where it is left out.
pub fn skip_zero(words: WordIter<'_>) -> WordIter<'_>
    ensures { result ≡ (or_left_out words.entry (part_read (one zero_word) words.entry)).1 }
{
    let mut ahead = WordIter::of(words.text());
    match ahead.next().and_then(zero) {
        Some(_) => ahead,
        None => words,
    }
}

/// Reads `[<flags> <exptime> <initial>]`, all or none, and hands out the words behind them.
pub fn initial(words: WordIter<'_>) -> (Option<(u32, i64, u64)>, WordIter<'_>)
    ensures { (option_map nested result.0, result.1) ≡ or_left_out words.entry (part_read initial_part words.entry) }
{
    match three_words(WordIter::of(words.text())) {
        Some((initial, behind)) => (Some(initial), behind),
        None => (None, words),
    }
}

// Reads `<flags> <exptime> <initial>`, and hands out the words behind them.
fn three_words(mut words: WordIter<'_>) -> Option<((u32, i64, u64), WordIter<'_>)>
    ensures { option_map (λ read. (nested read.0, read.1)) result ≡ part_read initial_part words.entry }
{
    let flags = words.next_number(u64::from(u32::MAX))? as u32;
    let exptime = next_exptime(&mut words)?;
    let initial = words.next_number(u64::MAX)?;
    Some(((flags, exptime, initial), words))
}

//! Numbers of a line on a tree: offset and count of a read, an initial number, the length of a block. (The ARCUS protocol;
//! the limits are this server's own.)
ghost use Rattle.std.specs.Prelude.{◌≡◌, ◌^◌, option_map};
ghost use Rattle.arc_core.specs.CollectionGrammar.{len_word};
ghost use Rattle.arc_core.specs.Rows.{one, part_read, or_left_out};
ghost use Rattle.arc_core.specs.Words.{number_below};
ghost use Rattle.tree_words.specs.Reading.{counted_read, count_read};
ghost use Rattle.tree_words.specs.TreeGrammar.{flag_of, initial_of, initial_part, offset_and_count};

use crate::ranges::optional_eflag;
use arc_core::{Eflag, WordIter};

/// The most bytes that a line may name for its block.
pub const MAX_LEN: u64 = 2_147_483_647;

/// Takes the next word if it is the length of a block.
#[tactic(auto, unfolding(arc_core::specs::Words::number_below))]
pub fn next_len(words: &mut WordIter<'_>) -> Option<u32>
    ensures { part_read (one len_word) words.old ≡ option_map (λ len. (len, words.new)) result }
{
    let len = words.next_number(MAX_LEN)?;
    Some(len as u32)
}

// Reads `[<number>]` of 32 bits: the number, where it is there, and the words behind.
fn optional_number(words: WordIter<'_>) -> (Option<u32>, WordIter<'_>)
    ensures { result ≡ or_left_out words.entry (part_read (one (number_below (2 ^ 32))) words.entry) }
{
    let mut ahead = WordIter::of(words.text());
    match ahead.next_number(u64::from(u32::MAX)) {
        Some(number) => (Some(number as u32), ahead),
        None => (None, words),
    }
}

/// Reads `[<count>]`: the count, 0 where it is left out, and the words behind.
pub fn count_of(words: WordIter<'_>) -> (u32, WordIter<'_>)
    ensures { result ≡ count_read words.entry }
{
    let (count, words) = optional_number(words);
    (count.unwrap_or(0), words)
}

/// Reads `[[<offset>] <count>]`: offset and count, 0 where they are left out, and the words behind.
pub fn offset_and_count(words: WordIter<'_>) -> ((u32, u32), WordIter<'_>)
    ensures { result ≡ counted_read words.entry }
{
    let (first, words) = optional_number(words);
    let Some(first) = first else {
        return ((0, 0), words);
    };
    let (second, words) = optional_number(words);
    (in_order(first, second), words)
}

// The offset and the count that one or two numbers are.
fn in_order(first: u32, second: Option<u32>) -> (u32, u32)
    ensures { result ≡ offset_and_count first second }
{
    match second {
        Some(second) => (first, second),
        None => (0, first),
    }
}

/// Reads `[<initial> [<eflag>]]`: the number and the flag, where they are there, and the words behind.
pub fn initial(words: WordIter<'_>) -> (Option<(u64, Option<Eflag>)>, WordIter<'_>)
    ensures { result ≡ or_left_out words.entry (part_read initial_part words.entry) }
{
    let mut ahead = WordIter::of(words.text());
    match ahead.next_number(u64::MAX) {
        Some(number) => {
            let (eflag, behind) = optional_eflag(ahead);
            (Some((number, eflag)), behind)
        }
        None => (None, words),
    }
}

/// The initial number, and the flag that goes with it.
pub fn initial_and_flag(said: Option<(u64, Option<Eflag>)>) -> (Option<u64>, Option<Eflag>)
    ensures { result ≡ (initial_of said, flag_of said) }
{
    match said {
        Some((number, eflag)) => (Some(number), eflag),
        None => (None, None),
    }
}

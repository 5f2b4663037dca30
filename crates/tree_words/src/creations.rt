//! Attributes of a tree that is made, as words of a line; and single words that may be left out. (The ARCUS protocol.)
ghost use Rattle.std.specs.Prelude.{◌≡◌};
ghost use Rattle.arc_core.specs.CollectionGrammar.{create_word, drop_word, take_word, unreadable_word};
ghost use Rattle.arc_core.specs.Rows.{one, part_read, or_left_out};
ghost use Rattle.item_attrs.specs.Attributes.{tree_action_word};
ghost use Rattle.tree_words.specs.Reading.{fixed, said, taking_read, tree_attributes_read, tree_creation_read};

use arc_core::{Action, CreateArgs, Take, WordIter};
use line_grammar::next_exptime;

/// Reads `[create <flags> <exptime> <maxcount> [<action>] [unreadable]]`, and hands out the words behind.
///
/// `None` comes where the word `create` stands there, and no attributes behind it.
pub fn creation(words: WordIter<'_>) -> Option<(Option<CreateArgs>, WordIter<'_>)>
    ensures { result ≡ tree_creation_read words.entry }
{
    let (create, words) = skip_create(words);
    if !create {
        return Some((None, words));
    }
    let (args, words) = attributes(words)?;
    Some((Some(args), words))
}

/// Reads `<flags> <exptime> <maxcount> [<action>] [unreadable]`, and hands out the words behind.
pub fn attributes(mut words: WordIter<'_>) -> Option<(CreateArgs, WordIter<'_>)>
    ensures { result ≡ tree_attributes_read words.entry }
{
    let flags = words.next_number(u64::from(u32::MAX))? as u32;
    let exptime = next_exptime(&mut words)?;
    let maxcount = words.next_number(u64::from(u32::MAX))? as u32;
    let (action, words) = optional_action(words);
    let (unreadable, words) = skip_unreadable(words);
    let args = CreateArgs {
        flags,
        exptime,
        maxcount,
        action: action.unwrap_or(Action::SmallestTrim),
        readable: !unreadable,
    };
    Some((args, words))
}

// Reads `[<action>]`: the action, where the line names one, and the words behind it.
fn optional_action(words: WordIter<'_>) -> (Option<Action>, WordIter<'_>)
    ensures { result ≡ or_left_out words.entry (part_read (one tree_action_word) words.entry) }
{
    let mut ahead = WordIter::of(words.text());
    match ahead.next().and_then(action) {
        Some(action) => (Some(action), ahead),
        None => (None, words),
    }
}

// Reads a word as an action of trees.
fn action(word: &[u8]) -> Option<Action>
    ensures { result ≡ tree_action_word word.now }
{
    if word == b"error".as_slice() {
        return Some(Action::Error);
    }
    if word == b"smallest_trim".as_slice() {
        return Some(Action::SmallestTrim);
    }
    if word == b"largest_trim".as_slice() {
        return Some(Action::LargestTrim);
    }
    if word == b"smallest_silent_trim".as_slice() {
        return Some(Action::SmallestSilentTrim);
    }
    if word == b"largest_silent_trim".as_slice() {
        return Some(Action::LargestSilentTrim);
    }
    None
}

/// Reads `[delete|drop]`: what a read does with its elements, and the words behind.
pub fn taking(words: WordIter<'_>) -> (Take, WordIter<'_>)
    ensures { result ≡ taking_read words.entry }
{
    let mut ahead = WordIter::of(words.text());
    match ahead.next().and_then(take) {
        Some(take) => (take, ahead),
        None => (Take::Keep, words),
    }
}

// Reads a word as what a read does with its elements.
#[tactic(auto, unfolding(arc_core::specs::CollectionGrammar::take_word))]
fn take(word: &[u8]) -> Option<Take>
    ensures { result ≡ take_word word.now }
{
    if word == b"delete".as_slice() {
        return Some(Take::Delete);
    }
    if word == b"drop".as_slice() {
        return Some(Take::Drop);
    }
    None
}

/// Reads `[drop]`: whether it is there, and the words behind.
#[tactic(auto, unfolding(arc_core::specs::CollectionGrammar::drop_word))]
pub fn skip_drop(words: WordIter<'_>) -> (bool, WordIter<'_>)
    ensures { result ≡ said drop_word words.entry }
{
    skip_word(b"drop", words)
}

// Reads `[unreadable]`: whether it is there, and the words behind.
#[tactic(auto, unfolding(arc_core::specs::CollectionGrammar::unreadable_word))]
fn skip_unreadable(words: WordIter<'_>) -> (bool, WordIter<'_>)
    ensures { result ≡ said unreadable_word words.entry }
{
    skip_word(b"unreadable", words)
}

// Reads `[create]`: whether it is there, and the words behind.
#[tactic(auto, unfolding(arc_core::specs::CollectionGrammar::create_word))]
fn skip_create(words: WordIter<'_>) -> (bool, WordIter<'_>)
    ensures { result ≡ said create_word words.entry }
{
    skip_word(b"create", words)
}

// Whether this word is in front, and the words behind it, which are all where it is not.
fn skip_word<'a>(name: &[u8], words: WordIter<'a>) -> (bool, WordIter<'a>)
    ensures { result ≡ said (fixed name.now) words.entry }
{
    let mut ahead = WordIter::of(words.text());
    match ahead.next() {
        Some(word) if word == name => (true, ahead),
        _ => (false, words),
    }
}

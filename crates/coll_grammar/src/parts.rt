//! What the rows of the commands on collections have in common: single words, attributes, and the end of a line. (The
//! ARCUS protocol; the limits are this server's own.)
ghost use Rattle.std.specs.Prelude.{◌≡◌, ◌≤◌, ◌+◌, ◌<◌, ◌^◌, None, Some, length, position, option_map};
ghost use Rattle.arc_core.specs.CollectionGrammar.{field_word, index_word, index_range_word, index_range_at, range_between, is_dot, action_word, list_action_word, plain_action_word, default_action, unreadable_word, create_word, drop_word, take_word, taking_of, len_word, number_of_fields, head, ends, ends_or_pipes, pipe_word, sent_word};
ghost use Rattle.arc_core.specs.Rows.{one, perhaps, followed_by, gives, part_read, or_left_out, row_read};
ghost use Rattle.coll_grammar.specs.Parts.{fixed, said, taking_read, attributes_read, creation_read};

use arc_core::{
    Action, Answer, CollCommand, CollHead, CreateArgs, IndexRange, KeyRef, Kind, MAX_FIELD_BYTES,
    Take, WordIter, read_number,
};
use line_grammar::{next_exptime, next_from_1, no_reply};

/// The greatest index.
const MAX_INDEX: u64 = 2_147_483_647;

/// The greatest index below 0, less its sign.
const MAX_NEGATIVE: u64 = 2_147_483_648;

/// The most bytes that a line may name for its block.
const MAX_LEN: u64 = 2_147_483_647;

/// The most fields that a line may name.
const MAX_FIELDS: u64 = 50_000;

/// Takes the next word if it is the length of a block.
#[tactic(auto, unfolding(arc_core::specs::Words::number_below))]
pub fn next_len(words: &mut WordIter<'_>) -> Option<u32>
    ensures { part_read (one len_word) words.old ≡ option_map (λ len. (len, words.new)) result }
{
    let len = words.next_number(MAX_LEN)?;
    Some(len as u32)
}

/// Takes the next word if it is a field: a key of at most 250 bytes.
#[tactic(auto, unfolding(arc_core::specs::CollectionGrammar::field_word, arc_core::specs::Words::key_word))]
pub fn next_field<'a>(words: &mut WordIter<'a>) -> Option<KeyRef<'a>>
    ensures { part_read (one field_word) words.old ≡ option_map (λ field. (field, words.new)) result }
{
    let field = words.next_key()?;
    if field.bytes().len() > MAX_FIELD_BYTES {
        return None;
    }
    Some(field)
}

/// Takes the next word if it is a number of fields: 1 to 50,000, or 0 where their block has no bytes.
#[tactic(auto, unfolding(arc_core::specs::CollectionGrammar::number_of_fields))]
pub fn next_number_of_fields(words: &mut WordIter<'_>, len: u32) -> Option<u32>
    ensures { part_read (one (number_of_fields len)) words.old ≡ option_map (λ n. (n, words.new)) result }
{
    if len == 0 {
        let number = words.next_number(0)?;
        return Some(number as u32);
    }
    next_from_1(words, MAX_FIELDS)
}

/// Takes the next word if it is an index: a number below 2^31, or a minus sign and a number of at most 2^31.
pub fn next_index(words: &mut WordIter<'_>) -> Option<i32>
    ensures { part_read (one index_word) words.old ≡ option_map (λ index. (index, words.new)) result }
{
    index(words.next()?)
}

/// Takes the next word if it is an index, or two with `..` between them.
pub fn next_range(words: &mut WordIter<'_>) -> Option<IndexRange>
    ensures { part_read (one index_range_word) words.old ≡ option_map (λ range. (range, words.new)) result }
{
    index_range(words.next()?)
}

// Reads a word as an index.
#[tactic(auto, unfolding(arc_core::specs::CollectionGrammar::index_word))]
fn index(word: &[u8]) -> Option<i32>
    ensures { result ≡ index_word word.now }
{
    if let [b'-', digits @ ..] = word {
        let number = read_number(digits, MAX_NEGATIVE)?;
        let below = -(number as i64);
        return Some(below as i32);
    }
    let number = read_number(word, MAX_INDEX)?;
    Some(number as i32)
}

// Reads a word as one index, or as two behind whose first the dots stand.
#[tactic(auto, unfolding(arc_core::specs::CollectionGrammar::index_range_word))]
fn index_range(word: &[u8]) -> Option<IndexRange>
    ensures { result ≡ index_range_word word.now }
{
    match first_dot(word) {
        Some(place) => range_at(word, place),
        None => single_index(word),
    }
}

// The place of a word's first dot.
fn first_dot(word: &[u8]) -> Option<usize>
    ensures { result ≡ position is_dot word.now }
{
    word.iter().position(|byte| *byte == b'.')
}

// Reads a word as one index.
fn single_index(word: &[u8]) -> Option<IndexRange>
    ensures { result ≡ index_range_at word.now None }
{
    let index = index(word)?;
    Some(IndexRange {
        first: index,
        last: index,
        single: true,
    })
}

// Reads a word as two indices, the first of which ends at this place, where a dot stands.
fn range_at(word: &[u8], place: usize) -> Option<IndexRange>
    requires { place < length word.now }
    ensures { result ≡ index_range_at word.now (Some place) }
{
    if place + 1 >= word.len() || word[place + 1] != b'.' {
        return None;
    }
    let (first, _) = word.split_at(place);
    let (_, last) = word.split_at(place + 2);
    range_between(index(first), index(last))
}

// The range from one index to another, where both are there.
fn range_between(first: Option<i32>, last: Option<i32>) -> Option<IndexRange>
    ensures { result ≡ range_between first last }
{
    Some(IndexRange {
        first: first?,
        last: last?,
        single: false,
    })
}

// Reads a word as an action that a collection of this kind may have.
#[tactic(auto, unfolding(arc_core::specs::CollectionGrammar::action_word))]
fn action(kind: Kind, word: &[u8]) -> Option<Action>
    ensures { result ≡ action_word kind word.now }
{
    match kind {
        Kind::List => list_action(word),
        Kind::Set | Kind::Map => plain_action(word),
        Kind::Kv | Kind::Tree => None,
    }
}

// The action of a list.
fn list_action(word: &[u8]) -> Option<Action>
    ensures { result ≡ list_action_word word.now }
{
    if word == b"error".as_slice() {
        return Some(Action::Error);
    }
    if word == b"head_trim".as_slice() {
        return Some(Action::HeadTrim);
    }
    if word == b"tail_trim".as_slice() {
        return Some(Action::TailTrim);
    }
    None
}

// The one action of sets and maps.
fn plain_action(word: &[u8]) -> Option<Action>
    ensures { result ≡ plain_action_word word.now }
{
    if word == b"error".as_slice() {
        Some(Action::Error)
    } else {
        None
    }
}

// The action of a collection whose line names none.
fn default_action(kind: Kind) -> Action
    ensures { result ≡ default_action kind }
{
    match kind {
        Kind::List => Action::TailTrim,
        _ => Action::Error,
    }
}

// Reads a word as what a read does with its elements.
#[tactic(auto, unfolding(arc_core::specs::CollectionGrammar::take_word))]
fn take(word: &[u8]) -> Option<Take>
    ensures { result ≡ take_word word.now }
{
    if word == b"delete".as_slice() {
        return Some(Take::Delete);
    }
    if word == b"drop".as_slice() {
        return Some(Take::Drop);
    }
    None
}

// Reads `[<action>]`: the action, where the line names one, and the words behind it.
fn optional_action(kind: Kind, words: WordIter<'_>) -> (Option<Action>, WordIter<'_>)
    ensures { result ≡ or_left_out words.entry (part_read (one (action_word kind)) words.entry) }
{
    let mut ahead = WordIter::of(words.text());
    match ahead.next().and_then(|word| action(kind, word)) {
        Some(action) => (Some(action), ahead),
        None => (None, words),
    }
}

/// Reads `[delete|drop]`: what a read does with its elements, and the words behind.
pub fn taking(words: WordIter<'_>) -> (Take, WordIter<'_>)
    ensures { result ≡ taking_read words.entry }
{
    let mut ahead = WordIter::of(words.text());
    match ahead.next().and_then(take) {
        Some(take) => (take, ahead),
        None => (Take::Keep, words),
    }
}

/// Reads `[drop]`: whether it is there, and the words behind.
#[tactic(auto, unfolding(arc_core::specs::CollectionGrammar::drop_word))]
pub fn skip_drop(words: WordIter<'_>) -> (bool, WordIter<'_>)
    ensures { result ≡ said drop_word words.entry }
{
    skip_word(b"drop", words)
}

// Reads `[unreadable]`: whether it is there, and the words behind.
#[tactic(auto, unfolding(arc_core::specs::CollectionGrammar::unreadable_word))]
fn skip_unreadable(words: WordIter<'_>) -> (bool, WordIter<'_>)
    ensures { result ≡ said unreadable_word words.entry }
{
    skip_word(b"unreadable", words)
}

// Reads `[create]`: whether it is there, and the words behind.
#[tactic(auto, unfolding(arc_core::specs::CollectionGrammar::create_word))]
fn skip_create(words: WordIter<'_>) -> (bool, WordIter<'_>)
    ensures { result ≡ said create_word words.entry }
{
    skip_word(b"create", words)
}

// Whether this word is in front, and the words behind it, which are all where it is not.
fn skip_word<'a>(name: &[u8], words: WordIter<'a>) -> (bool, WordIter<'a>)
    ensures { result ≡ said (fixed name.now) words.entry }
{
    let mut ahead = WordIter::of(words.text());
    match ahead.next() {
        Some(word) if word == name => (true, ahead),
        _ => (false, words),
    }
}

/// Reads `<flags> <exptime> <maxcount> [<action>] [unreadable]`, and hands out the words behind.
pub fn attributes(kind: Kind, mut words: WordIter<'_>) -> Option<(CreateArgs, WordIter<'_>)>
    ensures { result ≡ attributes_read kind words.entry }
{
    let flags = words.next_number(u64::from(u32::MAX))? as u32;
    let exptime = next_exptime(&mut words)?;
    let maxcount = words.next_number(u64::from(u32::MAX))? as u32;
    let (action, words) = optional_action(kind, words);
    let (unreadable, words) = skip_unreadable(words);
    let args = CreateArgs {
        flags,
        exptime,
        maxcount,
        action: action.unwrap_or(default_action(kind)),
        readable: !unreadable,
    };
    Some((args, words))
}

/// Reads `[create <flags> <exptime> <maxcount> [<action>] [unreadable]]`, and hands out the words behind.
///
/// `None` comes where the word `create` stands there, and no attributes behind it.
pub fn creation(kind: Kind, words: WordIter<'_>) -> Option<(Option<CreateArgs>, WordIter<'_>)>
    ensures { result ≡ creation_read kind words.entry }
{
    let (create, words) = skip_create(words);
    if !create {
        return Some((None, words));
    }
    let (args, words) = attributes(kind, words)?;
    Some((Some(args), words))
}

/// The head of a command whose line goes on with `[noreply]`, and ends.
pub fn answered<'a>(command: CollCommand<'a>, mut words: WordIter<'a>) -> Option<CollHead<'a>>
    ensures { result ≡ row_read (ends command.entry) words.entry }
{
    let answer = match words.next() {
        Some(word) => no_reply(word)?,
        None => Answer::Plain,
    };
    if words.next().is_some() {
        return None;
    }
    Some(CollHead::Collection { command, answer })
}

// Reads a word as `pipe`.
#[tactic(auto, unfolding(arc_core::specs::CollectionGrammar::pipe_word))]
fn pipe(word: &[u8]) -> Option<Answer>
    ensures { result ≡ pipe_word word.now }
{
    if word == b"pipe".as_slice() {
        Some(Answer::Pipe)
    } else {
        None
    }
}

// Reads a word as `noreply` or `pipe`.
#[tactic(auto, unfolding(arc_core::specs::CollectionGrammar::sent_word))]
fn no_reply_or_pipe(word: &[u8]) -> Option<Answer>
    ensures { result ≡ sent_word word.now }
{
    if word == b"noreply".as_slice() {
        return Some(Answer::NoReply);
    }
    pipe(word)
}

/// The head of a command whose line goes on with `[noreply|pipe]`, and ends.
pub fn answered_or_piped<'a>(
    command: CollCommand<'a>,
    mut words: WordIter<'a>,
) -> Option<CollHead<'a>>
    ensures { result ≡ row_read (ends_or_pipes command.entry) words.entry }
{
    let answer = match words.next() {
        Some(word) => no_reply_or_pipe(word)?,
        None => Answer::Plain,
    };
    if words.next().is_some() {
        return None;
    }
    Some(CollHead::Collection { command, answer })
}

/// The head of a command whose line goes on with `[pipe]`, and ends.
pub fn alone_or_piped<'a>(command: CollCommand<'a>, mut words: WordIter<'a>) -> Option<CollHead<'a>>
    ensures { result ≡ row_read (followed_by (perhaps (one pipe_word)) (λ sent. gives (head command.entry sent))) words.entry }
{
    let answer = match words.next() {
        Some(word) => pipe(word)?,
        None => Answer::Plain,
    };
    if words.next().is_some() {
        return None;
    }
    Some(CollHead::Collection { command, answer })
}

/// The head of a command whose line ends.
pub fn alone<'a>(command: CollCommand<'a>, mut words: WordIter<'a>) -> Option<CollHead<'a>>
    ensures { result ≡ row_read (gives (head command.entry None)) words.entry }
{
    if words.next().is_some() {
        return None;
    }
    Some(CollHead::Collection {
        command,
        answer: Answer::Plain,
    })
}

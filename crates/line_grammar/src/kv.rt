//! The rows of the key-value commands: how the words behind a command's name go on. (memcached's text protocol,
//! "Storage commands" to "Touch", and ARCUS's key-value commands; the limits are this server's own.)
ghost use Rattle.std.specs.Prelude.{◌≡◌, None};
ghost use Rattle.arc_core.specs.KeyValueGrammar.{noreply, head, store_row, cas_row, get_row, mget_row, count_row, delete_row, touch_row, flush_all_row, version_row, quit_row};
ghost use Rattle.arc_core.specs.Rows.{followed_by, gives, row_read};

use crate::parts::{initial, next_exptime, next_from_1, no_reply, skip_zero};
use arc_core::{Answer, Command, Head, KeyWords, StoreVerb, WordIter};

/// The most keys of a retrieval.
const MAX_KEYS: u32 = 1_000;

/// The most bytes that a line may name for its block.
const MAX_LEN: u64 = 2_147_483_647;

/// Reads what follows `set`, `add`, `replace`, `append` or `prepend`: `<key> <flags> <exptime> <bytes> [noreply]`.
#[tactic(auto, unfolding(arc_core::specs::KeyValueGrammar::store_row))]
pub fn store(verb: StoreVerb, mut words: WordIter<'_>) -> Option<Head<'_>>
    ensures { result ≡ row_read (store_row verb) words.entry }
{
    let key = words.next_key()?;
    let flags = words.next_number(u64::from(u32::MAX))? as u32;
    let exptime = next_exptime(&mut words)?;
    let len = words.next_number(MAX_LEN)? as u32;
    answered(
        Command::Store {
            verb,
            key,
            flags,
            exptime,
            len,
        },
        words,
    )
}

/// Reads what follows `cas`: `<key> <flags> <exptime> <bytes> <unique> [noreply]`.
#[tactic(auto, unfolding(arc_core::specs::KeyValueGrammar::cas_row))]
pub fn cas(mut words: WordIter<'_>) -> Option<Head<'_>>
    ensures { result ≡ row_read cas_row words.entry }
{
    let key = words.next_key()?;
    let flags = words.next_number(u64::from(u32::MAX))? as u32;
    let exptime = next_exptime(&mut words)?;
    let len = words.next_number(MAX_LEN)? as u32;
    let unique = words.next_number(u64::MAX)?;
    answered(
        Command::Store {
            verb: StoreVerb::Cas(unique),
            key,
            flags,
            exptime,
            len,
        },
        words,
    )
}

/// Reads what follows `get` or `gets`: `<key> [<key> ..]`, with 1,000 keys at most.
#[tactic(auto, unfolding(arc_core::specs::KeyValueGrammar::get_row))]
pub fn get(unique: bool, words: WordIter<'_>) -> Option<Head<'_>>
    ensures { result ≡ row_read (get_row unique) words.entry }
{
    let keys = KeyWords::up_to(words.text(), MAX_KEYS)?;
    Some(Head {
        command: Command::Get { keys, unique },
        answer: Answer::Plain,
    })
}

/// Reads what follows `mget`: `<lenkeys> <numkeys>`, with 1 to 1,000 keys.
#[tactic(auto, unfolding(arc_core::specs::KeyValueGrammar::mget_row))]
pub fn mget(mut words: WordIter<'_>) -> Option<Head<'_>>
    ensures { result ≡ row_read mget_row words.entry }
{
    let len = next_from_1(&mut words, MAX_LEN)?;
    let number = next_from_1(&mut words, u64::from(MAX_KEYS))?;
    alone(Command::GetBlock { len, number }, words)
}

/// Reads what follows `incr` or `decr`: `<key> <delta> [<flags> <exptime> <initial>] [noreply]`.
#[tactic(auto, unfolding(arc_core::specs::KeyValueGrammar::count_row))]
pub fn count(up: bool, mut words: WordIter<'_>) -> Option<Head<'_>>
    ensures { result ≡ row_read (count_row up) words.entry }
{
    let key = words.next_key()?;
    let delta = words.next_number(u64::MAX)?;
    let (initial, words) = initial(words);
    answered(
        Command::Count {
            up,
            key,
            delta,
            initial,
        },
        words,
    )
}

/// Reads what follows `delete`: `<key> [0] [noreply]`.
#[tactic(auto, unfolding(arc_core::specs::KeyValueGrammar::delete_row))]
pub fn delete(mut words: WordIter<'_>) -> Option<Head<'_>>
    ensures { result ≡ row_read delete_row words.entry }
{
    let key = words.next_key()?;
    answered(Command::Delete { key }, skip_zero(words))
}

/// Reads what follows `touch`: `<key> <exptime> [noreply]`.
#[tactic(auto, unfolding(arc_core::specs::KeyValueGrammar::touch_row))]
pub fn touch(mut words: WordIter<'_>) -> Option<Head<'_>>
    ensures { result ≡ row_read touch_row words.entry }
{
    let key = words.next_key()?;
    let exptime = next_exptime(&mut words)?;
    answered(Command::Touch { key, exptime }, words)
}

/// Reads what follows `flush_all`: `[noreply]`.
#[tactic(auto, unfolding(arc_core::specs::KeyValueGrammar::flush_all_row))]
pub fn flush_all(words: WordIter<'_>) -> Option<Head<'_>>
    ensures { result ≡ row_read flush_all_row words.entry }
{
    answered(Command::FlushAll, words)
}

/// Reads what follows `version`: nothing.
pub fn version(words: WordIter<'_>) -> Option<Head<'_>>
    ensures { result ≡ row_read version_row words.entry }
{
    alone(Command::Version, words)
}

/// Reads what follows `quit`: nothing.
pub fn quit(words: WordIter<'_>) -> Option<Head<'_>>
    ensures { result ≡ row_read quit_row words.entry }
{
    alone(Command::Quit, words)
}

// The head of a command whose line goes on with `[noreply]`, and ends.
fn answered<'a>(command: Command<'a>, mut words: WordIter<'a>) -> Option<Head<'a>>
    ensures { result ≡ row_read (followed_by noreply (λ silent. gives (head command.entry silent))) words.entry }
{
    let answer = match words.next() {
        Some(word) => no_reply(word)?,
        None => Answer::Plain,
    };
    if words.next().is_some() {
        return None;
    }
    Some(Head { command, answer })
}

// The head of a command whose line ends.
fn alone<'a>(command: Command<'a>, mut words: WordIter<'a>) -> Option<Head<'a>>
    ensures { result ≡ row_read (gives (head command.entry None)) words.entry }
{
    if words.next().is_some() {
        return None;
    }
    Some(Head {
        command,
        answer: Answer::Plain,
    })
}

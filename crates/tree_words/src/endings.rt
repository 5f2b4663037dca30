//! How the lines of commands on trees end. (The ARCUS protocol.)
ghost use Rattle.std.specs.Prelude.{◌≡◌, None};
ghost use Rattle.arc_core.specs.CollectionGrammar.{ends, sent_word, pipe_word};
ghost use Rattle.arc_core.specs.KeyValueGrammar.{noreply_word};
ghost use Rattle.arc_core.specs.Rows.{gives, row_read};
ghost use Rattle.tree_words.specs.TreeGrammar.{sent_or_getrim_word};
ghost use Rattle.tree_words.specs.Reading.{insert_end_read};
ghost use Rattle.tree_words.specs.TreeLines.{tree_ends_or_pipes, tree_head};

use crate::{TreeCommand, TreeHead};
use arc_core::{Answer, CollCommand, CollHead, WordIter};
use line_grammar::no_reply;

/// The head of a command whose line ends.
pub fn alone<'a>(command: TreeCommand<'a>, mut words: WordIter<'a>) -> Option<TreeHead<'a>>
    ensures { result ≡ row_read (gives (tree_head command.entry None)) words.entry }
{
    if words.next().is_some() {
        return None;
    }
    Some(TreeHead {
        command,
        answer: Answer::Plain,
    })
}

/// The head of a command on a collection whose line goes on with `[noreply]`, and ends.
pub fn answered<'a>(command: CollCommand<'a>, mut words: WordIter<'a>) -> Option<CollHead<'a>>
    ensures { result ≡ row_read (ends command.entry) words.entry }
{
    let answer = match words.next() {
        Some(word) => no_reply(word)?,
        None => Answer::Plain,
    };
    if words.next().is_some() {
        return None;
    }
    Some(CollHead::Collection { command, answer })
}

/// The head of a command whose line goes on with `[noreply|pipe]`, and ends.
pub fn answered_or_piped<'a>(
    command: TreeCommand<'a>,
    mut words: WordIter<'a>,
) -> Option<TreeHead<'a>>
    ensures { result ≡ row_read (tree_ends_or_pipes command.entry) words.entry }
{
    let answer = match words.next() {
        Some(word) => sent(word)?,
        None => Answer::Plain,
    };
    if words.next().is_some() {
        return None;
    }
    Some(TreeHead { command, answer })
}

/// Reads `[noreply|pipe|getrim]` and the end of the line: how the answer is sent, and whether trimmed elements are answered.
pub fn sent_or_getrim(mut words: WordIter<'_>) -> Option<(Answer, bool)>
    ensures { result ≡ insert_end_read words.entry }
{
    let said = match words.next() {
        Some(word) => sent_or_getrim_word(word)?,
        None => (Answer::Plain, false),
    };
    if words.next().is_some() {
        return None;
    }
    Some(said)
}

// Reads a word as `noreply`, `pipe` or `getrim`.
#[tactic(auto, unfolding(crate::specs::TreeGrammar::sent_or_getrim_word))]
fn sent_or_getrim_word(word: &[u8]) -> Option<(Answer, bool)>
    ensures { result ≡ sent_or_getrim_word word.now }
{
    if word == b"getrim".as_slice() {
        return Some((Answer::Plain, true));
    }
    let answer = sent(word)?;
    Some((answer, false))
}

// Reads a word as `noreply` or `pipe`.
#[tactic(auto, unfolding(arc_core::specs::CollectionGrammar::sent_word))]
fn sent(word: &[u8]) -> Option<Answer>
    ensures { result ≡ sent_word word.now }
{
    if word == b"noreply".as_slice() {
        return Some(Answer::NoReply);
    }
    pipe(word)
}

// Reads a word as `pipe`.
#[tactic(auto, unfolding(arc_core::specs::CollectionGrammar::pipe_word))]
fn pipe(word: &[u8]) -> Option<Answer>
    ensures { result ≡ pipe_word word.now }
{
    if word == b"pipe".as_slice() {
        Some(Answer::Pipe)
    } else {
        None
    }
}

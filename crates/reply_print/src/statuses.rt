//! Which replies are statuses of a run of piped commands, and which of them fail it.
ghost use Rattle.std.specs.Prelude.{◌≡◌, IfSome};
ghost use Rattle.arc_core.specs.ReplyText.{reply_text, word_line};
ghost use Rattle.reply_print.specs.PipeText.{status_text, status_of, fails_run};

use arc_core::{PipeStatus, Reply, Word};

/// The status that a reply is in a run of piped commands, where it is a word or a number: a line with the reply's text.
/// `None` where the reply is anything else.
pub fn status_of(reply: &Reply) -> Option<PipeStatus>
    ensures is { result ≡ status_of reply.now }
    ensures text { IfSome result (λ status. status_text status ≡ reply_text reply.now) }
{
    match reply {
        Reply::Word(word) => Some(PipeStatus::Word(*word)),
        Reply::Number(number) => Some(PipeStatus::Number(*number)),
        Reply::Values(_) | Reply::Rows { .. } => None,
    }
}

/// Whether a status fails its run: its line begins with `ERROR`, `CLIENT_ERROR` or `SERVER_ERROR`.
pub fn status_fails(status: PipeStatus) -> bool
    ensures { result ≡ fails_run (status_text status) }
{
    match status {
        PipeStatus::Word(word) => is_error(word),
        PipeStatus::Number(_) => false,
    }
}

// Whether the line of the word begins as that of an error does.
fn is_error(word: Word) -> bool
    ensures { result ≡ fails_run (word_line word) }
{
    match word {
        Word::NotNumeric
        | Word::TooLarge
        | Word::OutOfMemory
        | Word::NoMemory
        | Word::Unknown
        | Word::BadFormat
        | Word::BadChunk
        | Word::LineTooLong => true,
        Word::Stored
        | Word::NotStored
        | Word::Exists
        | Word::NotFound
        | Word::Deleted
        | Word::Touched
        | Word::Ok
        | Word::Version
        | Word::Created
        | Word::CreatedStored
        | Word::TypeMismatch
        | Word::Unreadable
        | Word::Overflowed
        | Word::OutOfRange
        | Word::NotFoundElement
        | Word::ElementExists
        | Word::Exist
        | Word::NotExist
        | Word::Updated
        | Word::Replaced
        | Word::DeletedDropped => false,
    }
}

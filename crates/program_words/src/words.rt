//! The program's words, read one after another.
ghost use Rattle.std.specs.Prelude.{◌≡◌, ◌↔◌, ◌==◌, ◌+◌, ℕ, List, map, string_bytes, Ok, IfOk, IfSome};
ghost use Rattle.program_words.specs.Asking.{AsksFor};
ghost use Rattle.program_words.specs.Reading.{plain_answer, job_or, IsJob, AreGiven, IsReading};
ghost use Rattle.program_words.specs.Words.{job_of, job_behind, job_with, job_at_end, none_given, command_named, knows, may_come, word_read, option_read, whole_option_read};

use crate::job::{Job, ServeJob};
use crate::options::{Given, OptionName, begun, named, value};

/// The limit of the cache where the words name none, in mebibytes.
const DEFAULT_LIMIT_MIB: u32 = 64;

/// The share of the sticky items where the words name none, in percent of the limit.
const DEFAULT_SHARE_PERCENT: u32 = 100;

/// The first bad word stands at this place, counted from 0, or one is missing there.
#[derive(Clone, Copy, Debug, PartialEq, Eq)]
pub struct BadWords(pub usize);

/// What the first word names.
#[derive(Clone, Copy, Debug, PartialEq, Eq)]
enum Command {
    Session,
    Many,
    Serve,
}

/// How far the words behind the command are read.
#[derive(Clone, Copy, Debug, PartialEq, Eq)]
enum Reading {
    /// An option may follow.
    Options(Given),
    /// The value of this option has to follow.
    Value(OptionName, Given),
}

/// Reads the program's words: `session`, `many --workers <n>`, or `serve --port <p> --workers <n> [--sessions <k>] [--events]`,
/// each with `[--limit <MiB>] [--sticky <percent>]`, where the options stand in any order, and each that has a value may also be
/// written as one word, as `--limit=<MiB>`.
///
/// The limit is 1 to 4,096, and without the option 64; the share is 0 to 100, and without the option 100; there are 1 to 4,096
/// workers; a port is 1 to 65,535; sessions are 1 to 2^32 - 1. All are decimal digits without a leading zero. `BadWords` names the
/// first bad word: the first word is another, a further word is no option of this command, an option is given again, or its
/// value is bad; or the number of words, where a value is missing or an option that the command needs. Always returns, and
/// takes no memory.
pub fn read_words(words: &[String]) -> Result<Job, BadWords>
    ensures answer { plain_answer result ≡ job_of (map string_bytes words.now) }
    ensures job { IfOk result IsJob }
{
    let [word, options @ ..] = words else {
        return Err(BadWords(0));
    };
    match command_named(word.as_bytes()) {
        Some(command) => command.read_options(options),
        None => Err(BadWords(0)),
    }
}

/// The program's words are read as a job exactly where they ask for it: the word of its command, and then options that the
/// command knows in any order, each at most once, with a value that it may have, and all that it needs.
///
/// The function does nothing: this law is its contract.
pub fn words_ask_for_a_job()
    ensures { (words : List (List ℕ)) (job : Job) → (job_of words ≡ Ok job) ↔ AsksFor words job }
{}

// Which command a word names.
fn command_named(word: &[u8]) -> Option<Command>
    ensures { result ≡ command_named word.now }
{
    if word == b"session".as_slice() {
        return Some(Command::Session);
    }
    if word == b"many".as_slice() {
        return Some(Command::Many);
    }
    if word == b"serve".as_slice() {
        return Some(Command::Serve);
    }
    None
}

impl Command {
    // Reads the words behind the command, of which the first has place 1.
    fn read_options(self, words: &[String]) -> Result<Job, BadWords>
        ensures answer { plain_answer result
            ≡ job_behind self 1 (Reading.Options none_given) (map string_bytes words.now) }
        ensures job { IfOk result IsJob }
    {
        let mut place = 1;
        let mut reading = Reading::Options(Given::NONE);
        for word in words {
            reading = reading.with(self, word.as_bytes()).ok_or(BadWords(place))?;
            place += 1;
        }
        reading.job(self).ok_or(BadWords(place))
    }

    // Whether the command has this option.
    fn knows(self, name: OptionName) -> bool
        ensures { result ≡ knows self name }
    {
        match (self, name) {
            (_, OptionName::Limit | OptionName::Sticky) | (Command::Serve, _) => true,
            (Command::Many, OptionName::Workers) => true,
            _ => false,
        }
    }
}

impl Reading {
    // How far the words behind the command are read with one more, or none where that word is bad.
    fn with(self, command: Command, word: &[u8]) -> Option<Reading>
        requires { IsReading self }
        ensures reading { result ≡ word_read command self word.now }
        ensures limit { IfSome result IsReading }
    {
        match self {
            Reading::Options(given) => match named(word) {
                Some(name) => given.with_name(command, name),
                None => given.with_option(command, word),
            },
            Reading::Value(name, given) => {
                let value = value(name, word)?;
                Some(Reading::Options(given.with_value(name, value)))
            }
        }
    }

    // The command's job where no word is left, or none where a value is missing, or an option that it needs.
    fn job(self, command: Command) -> Option<Job>
        requires { IsReading self }
        ensures job { (place : ℕ) → job_or place result ≡ job_at_end command place self }
        ensures limit { IfSome result IsJob }
    {
        match self {
            Reading::Options(given) => given.job(command),
            Reading::Value(..) => None,
        }
    }
}

impl Given {
    // What the command does with these options, or none where one is missing that it needs.
    fn job(self, command: Command) -> Option<Job>
        requires { AreGiven self }
        ensures job { result ≡ job_with command self }
        ensures limit { IfSome result IsJob }
    {
        let limit = self.limit.unwrap_or(DEFAULT_LIMIT_MIB);
        let share = self.share.unwrap_or(DEFAULT_SHARE_PERCENT);
        match command {
            Command::Session => Some(Job::Session { limit, share }),
            Command::Many => {
                let workers = self.workers?;
                Some(Job::Many {
                    workers,
                    limit,
                    share,
                })
            }
            Command::Serve => {
                let port = self.port?;
                let workers = self.workers?;
                Some(Job::Serve(ServeJob {
                    port: port as u16,
                    workers,
                    limit,
                    share,
                    sessions: self.sessions,
                    events: self.events,
                }))
            }
        }
    }

    // How far the words are read with the name of an option, whose value follows where it has one; none where it may not come.
    fn with_name(self, command: Command, name: OptionName) -> Option<Reading>
        requires { AreGiven self }
        ensures reading { result ≡ option_read command self name }
        ensures limit { IfSome result IsReading }
    {
        if !self.may_come(command, name) {
            return None;
        }
        match name {
            OptionName::Events => Some(Reading::Options(self.with_value(name, 1))),
            _ => Some(Reading::Value(name, self)),
        }
    }

    // How far the words are read with an option and its value in one word; none where it is none, or may not come.
    fn with_option(self, command: Command, word: &[u8]) -> Option<Reading>
        requires { AreGiven self }
        ensures reading { result ≡ whole_option_read command self word.now }
        ensures limit { IfSome result IsReading }
    {
        let (name, value) = begun(word)?;
        if !self.may_come(command, name) {
            return None;
        }
        let value = self::value(name, value)?;
        Some(Reading::Options(self.with_value(name, value)))
    }

    // Whether the option may stand behind this command: it knows it, and it was not given before.
    fn may_come(self, command: Command, name: OptionName) -> bool
        ensures { result ≡ may_come command self name }
    {
        command.knows(name) && !self.has(name)
    }
}

//! The options of the program: how they are written, and their values.
ghost use Rattle.std.specs.Prelude.{◌≡◌, ◌==◌, ◌<◌, ◌≤◌, position, ◌+◌, ◌^◌, option_map, is_some, IfSome};
ghost use Rattle.program_words.specs.Reading.{IsValue, AreGiven};
ghost use Rattle.program_words.specs.Words.{option_begun, option_named, option_value, at_least_one, plain_number, given_of, with_value};

use arc_core::read_number;

/// The largest limit of the cache, in mebibytes.
const MAX_LIMIT_MIB: u64 = 4096;

/// The largest number of a port.
const MAX_PORT: u64 = 65_535;

/// The most workers, which is how many a lock has seats for.
const MAX_WORKERS: u64 = 4096;

/// The largest limit of a worker's sessions that words can give.
const MAX_SESSIONS: u64 = 4_294_967_295;

/// An option of the program.
#[derive(Clone, Copy, Debug, PartialEq, Eq)]
pub(crate) enum OptionName {
    /// `--limit`, in mebibytes.
    Limit,
    /// `--sticky`, in percent.
    Sticky,
    /// `--port`, the number of a port.
    Port,
    /// `--workers`, their number.
    Workers,
    /// `--sessions`, how many a worker serves at most.
    Sessions,
    /// `--events`, which has no value.
    Events,
}

/// The options that were given, each with its value.
#[derive(Clone, Copy, Debug, PartialEq, Eq)]
pub(crate) struct Given {
    pub(crate) limit: Option<u32>,
    pub(crate) share: Option<u32>,
    pub(crate) port: Option<u32>,
    pub(crate) workers: Option<u32>,
    pub(crate) sessions: Option<u32>,
    pub(crate) events: bool,
}

impl Given {
    /// No option was given.
    pub(crate) const NONE: Given = Given {
        limit: None,
        share: None,
        port: None,
        workers: None,
        sessions: None,
        events: false,
    };

    // Whether the option was given.
    pub(crate) fn has(self, name: OptionName) -> bool
        ensures { result ≡ is_some (given_of name self) }
    {
        match name {
            OptionName::Limit => self.limit.is_some(),
            OptionName::Sticky => self.share.is_some(),
            OptionName::Port => self.port.is_some(),
            OptionName::Workers => self.workers.is_some(),
            OptionName::Sessions => self.sessions.is_some(),
            OptionName::Events => self.events,
        }
    }

    // What was given, with the value of one option more; that of one without a value is 1.
    pub(crate) fn with_value(self, name: OptionName, value: u32) -> Given
        requires given { AreGiven self }
        requires value { IsValue name value }
        ensures is { result ≡ with_value name value self }
        ensures given { AreGiven result }
    {
        let mut given = self;
        match name {
            OptionName::Limit => given.limit = Some(value),
            OptionName::Sticky => given.share = Some(value),
            OptionName::Port => given.port = Some(value),
            OptionName::Workers => given.workers = Some(value),
            OptionName::Sessions => given.sessions = Some(value),
            OptionName::Events => given.events = true,
        }
        given
    }
}

// The option that a word `--x=v` begins with, and what stands behind its `=`.
pub(crate) fn begun(word: &[u8]) -> Option<(OptionName, &[u8])>
    ensures { option_map (λ begun. (begun.0, begun.1.now)) result ≡ option_begun word.now }
{
    if let Some(value) = word.strip_prefix(b"--limit=".as_slice()) {
        return Some((OptionName::Limit, value));
    }
    if let Some(value) = word.strip_prefix(b"--sticky=".as_slice()) {
        return Some((OptionName::Sticky, value));
    }
    if let Some(value) = word.strip_prefix(b"--port=".as_slice()) {
        return Some((OptionName::Port, value));
    }
    if let Some(value) = word.strip_prefix(b"--workers=".as_slice()) {
        return Some((OptionName::Workers, value));
    }
    let value = word.strip_prefix(b"--sessions=".as_slice())?;
    Some((OptionName::Sessions, value))
}

// Which option the word names.
pub(crate) fn named(word: &[u8]) -> Option<OptionName>
    ensures { result ≡ option_named word.now }
{
    if word == b"--limit".as_slice() {
        return Some(OptionName::Limit);
    }
    if word == b"--sticky".as_slice() {
        return Some(OptionName::Sticky);
    }
    if word == b"--port".as_slice() {
        return Some(OptionName::Port);
    }
    if word == b"--workers".as_slice() {
        return Some(OptionName::Workers);
    }
    if word == b"--sessions".as_slice() {
        return Some(OptionName::Sessions);
    }
    if word == b"--events".as_slice() {
        return Some(OptionName::Events);
    }
    None
}

// The value of an option. One without a value has none.
pub(crate) fn value(name: OptionName, word: &[u8]) -> Option<u32>
    ensures value { result ≡ option_value name word.now }
    ensures within { IfSome result (IsValue name) }
{
    match name {
        OptionName::Limit => at_least_one(word, MAX_LIMIT_MIB),
        OptionName::Sticky => {
            let share = plain_number(word, 100)?;
            Some(share as u32)
        }
        OptionName::Port => at_least_one(word, MAX_PORT),
        OptionName::Workers => at_least_one(word, MAX_WORKERS),
        OptionName::Sessions => at_least_one(word, MAX_SESSIONS),
        OptionName::Events => None,
    }
}

// A number of 1 to `most`, in decimal digits without a leading zero.
fn at_least_one(word: &[u8], most: u64) -> Option<u32>
    requires { most < 2 ^ 32 }
    ensures number { result ≡ at_least_one (plain_number (most + 1) word.now) }
    ensures within { IfSome result (λ n. (1 ≤ n) × (n ≤ most)) }
{
    match plain_number(word, most)? {
        0 => None,
        number => Some(number as u32),
    }
}

// A number of at most `most`, in decimal digits without a leading zero.
#[tactic(auto, unfolding(arc_core::specs::Words::number_below))]
fn plain_number(word: &[u8], most: u64) -> Option<u64>
    ensures number { result ≡ plain_number (most + 1) word.now }
    ensures within { IfSome result (λ n. n ≤ most) }
{
    if word.len() > 1 && word[0] == b'0' {
        return None;
    }
    read_number(word, most)
}

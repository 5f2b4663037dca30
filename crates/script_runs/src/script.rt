//! Reads scripts.
ghost use Rattle.std.specs.Prelude.{◌≡◌, ◌≤◌, ◌<◌, ◌+◌, true, drop, length, position, IfSome};
ghost use Rattle.std.specs.Option.{option_map};
ghost use Rattle.arc_core.specs.Outside.{linked};
ghost use Rattle.script_runs.specs.Script.{is_feed, plain_number, number_behind, numbered_line, piece_record, session_record, pieces, is_at_end, sessions, most_sessions};
ghost use Rattle.script_runs.specs.Reading.{IsReadAs, IsSessionRead, AreSessionsRead, ok_as};

use arc_core::{Link, SteadyLink, read_number};
use std::alloc::Global;

/// The most sessions of a script.
const MOST_SESSIONS: usize = 1000;

/// The most pieces of a session.
const MOST_PIECES: u64 = 100_000;

/// The most bytes of a piece.
const MOST_PIECE_BYTES: u64 = 1 << 28;

/// Why a text was not read as a script.
#[derive(Clone, Copy, Debug, PartialEq, Eq)]
pub enum ScriptFault {
    /// It is none: its first bad part begins at this offset.
    Bad(usize),
    /// Memory was refused.
    NoMemory,
}

/// Why a session record was not read.
#[derive(Clone, Copy, Debug, PartialEq, Eq)]
pub(crate) enum Stop {
    /// From its first bad part on so many bytes are left.
    Bad(usize),
    /// Memory was refused.
    NoMemory,
}

/// A number of at most `most`, in decimal digits without a leading zero.
#[tactic(auto, unfolding(arc_core::specs::Words::number_below))]
pub fn plain_number(word: &[u8], most: u64) -> Option<u64>
    ensures number { result ≡ plain_number (most + 1) word.now }
    ensures within { IfSome result (λ n. n ≤ most) }
{
    if word.len() > 1 && word[0] == b'0' {
        return None;
    }
    read_number(word, most)
}

// The number in a line that is this front and a number of at most `most`.
fn number_behind(front: &[u8], most: u64, line: &[u8]) -> Option<u64>
    ensures number { result ≡ number_behind front.now (most + 1) line.now }
    ensures within { IfSome result (λ n. n ≤ most) }
{
    plain_number(line.strip_prefix(front)?, most)
}

// Where the first line of a text ends.
fn end_of_line(text: &[u8]) -> Option<usize>
    ensures place { result ≡ position is_feed text.now }
    ensures within { IfSome result (λ at. at < length text.now) }
{
    text.iter().position(|byte| *byte == b'\n')
}

// The number of such a line in front of a text, and what stands behind the line.
fn numbered_line<'a>(front: &[u8], most: u64, text: &'a [u8]) -> Option<(u64, &'a [u8])>
    ensures header { option_map (λ header. (header.0, header.1.now)) result ≡ numbered_line front.now (most + 1) text.now }
    ensures within { IfSome result (λ header. header.0 ≤ most) }
{
    let Some(at) = end_of_line(text) else {
        return None;
    };
    let Some(number) = number_behind(front, most, &text[..at]) else {
        return None;
    };
    Some((number, &text[at + 1..]))
}

// The piece record in front of a text: its bytes, and what stands behind it.
fn piece_record(text: &[u8]) -> Option<(&[u8], &[u8])>
    ensures { option_map (λ piece. (piece.0.now, piece.1.now)) result ≡ piece_record text.now }
{
    let (count, rest) = numbered_line(b"piece ".as_slice(), MOST_PIECE_BYTES, text)?;
    let count = count as usize;
    if count == 0 || count >= rest.len() || rest[count] != b'\n' {
        return None;
    }
    Some((&rest[..count], &rest[count + 1..]))
}

// The session record in front of a text, as a link, and what stands behind it.
fn session_record(alloc: Global, text: &[u8]) -> Result<(SteadyLink, &[u8]), Stop>
    ensures { IsSessionRead
        (λ link. linked (⟦<SteadyLink as Link>⟧.left link) (⟦<SteadyLink as Link>⟧.read_faults link) (⟦<SteadyLink as Link>⟧.sent link) (⟦<SteadyLink as Link>⟧.write_faults link) (⟦<SteadyLink as Link>⟧.refusals link) (⟦<SteadyLink as Link>⟧.agains link))
        (session_record text.now) (ok_as (λ read. (read.0, read.1.now)) result) }
{
    match numbered_line(b"session ".as_slice(), MOST_PIECES, text) {
        Some((number, rest)) => session_pieces(alloc, number, rest),
        None => Err(Stop::Bad(text.len())),
    }
}

// So many piece records in front of a text, as a link, and what stands behind them.
fn session_pieces(alloc: Global, number: u64, text: &[u8]) -> Result<(SteadyLink, &[u8]), Stop>
    ensures { IsSessionRead
        (λ link. linked (⟦<SteadyLink as Link>⟧.left link) (⟦<SteadyLink as Link>⟧.read_faults link) (⟦<SteadyLink as Link>⟧.sent link) (⟦<SteadyLink as Link>⟧.write_faults link) (⟦<SteadyLink as Link>⟧.refusals link) (⟦<SteadyLink as Link>⟧.agains link))
        (pieces number text.now) (ok_as (λ read. (read.0, read.1.now)) result) }
{
    let mut bytes = Vec::new(alloc);
    let mut lengths = Vec::new(alloc);
    let mut rest = text;
    let mut left = number;
    while left > 0 {
        let Some((piece, behind)) = piece_record(rest) else {
            return Err(Stop::Bad(rest.len()));
        };
        if bytes.extend_from_slice(piece).is_err() {
            return Err(Stop::NoMemory);
        }
        if lengths.push(piece.len()).is_err() {
            return Err(Stop::NoMemory);
        }
        rest = behind;
        left -= 1;
    }
    Ok((SteadyLink::new(alloc, bytes, lengths), rest))
}

// Whether a text begins with the line `end`.
fn is_at_end(text: &[u8]) -> bool
    ensures { result ≡ is_at_end text.now }
{
    text.starts_with(b"end\n".as_slice())
}

// What stands behind the line `end`, with which the text begins.
fn behind_end_line(text: &[u8]) -> &[u8]
    requires { is_at_end text.now ≡ true }
    ensures { result.now ≡ drop 4 text.now }
{
    &text[4..]
}

/// Reads a script: a link for each of its sessions, to which nothing was sent.
pub fn read_script(alloc: Global, text: &[u8]) -> Result<Vec<SteadyLink>, ScriptFault>
    ensures { IsReadAs
        (λ link. linked (⟦<SteadyLink as Link>⟧.left link) (⟦<SteadyLink as Link>⟧.read_faults link) (⟦<SteadyLink as Link>⟧.sent link) (⟦<SteadyLink as Link>⟧.write_faults link) (⟦<SteadyLink as Link>⟧.refusals link) (⟦<SteadyLink as Link>⟧.agains link))
        text.now (ok_as (λ links. links.items) result) }
{
    match read_sessions(alloc, text) {
        Ok(links) => Ok(links),
        // What is left is a part of the text.
        Err(Stop::Bad(left)) => Err(ScriptFault::Bad(text.len().saturating_sub(left))),
        Err(Stop::NoMemory) => Err(ScriptFault::NoMemory),
    }
}

// Reads the sessions of a script.
fn read_sessions(alloc: Global, text: &[u8]) -> Result<Vec<SteadyLink>, Stop>
    ensures { AreSessionsRead
        (λ link. linked (⟦<SteadyLink as Link>⟧.left link) (⟦<SteadyLink as Link>⟧.read_faults link) (⟦<SteadyLink as Link>⟧.sent link) (⟦<SteadyLink as Link>⟧.write_faults link) (⟦<SteadyLink as Link>⟧.refusals link) (⟦<SteadyLink as Link>⟧.agains link))
        (sessions most_sessions text.now) (ok_as (λ links. links.items) result) }
{
    let mut links = Vec::new(alloc);
    let mut rest = text;
    'records: while !is_at_end(rest) {
        if links.len() >= MOST_SESSIONS {
            return Err(Stop::Bad(rest.len()));
        }
        let (link, behind) = match session_record(alloc, rest) {
            Ok(read) => read,
            Err(stop) => return Err(stop),
        };
        if links.push(link).is_err() {
            return Err(Stop::NoMemory);
        }
        rest = behind;
    }
    let behind = behind_end_line(rest);
    if behind.is_empty() {
        Ok(links)
    } else {
        Err(Stop::Bad(behind.len()))
    }
}

//! Writes what came of sessions.
ghost use Rattle.std.specs.Prelude.{◌≡◌, IfOk, string_bytes};
ghost use Rattle.arc_core.specs.Outside.{outgoing};
ghost use Rattle.script_runs.specs.Output.{HasWord, word_of, header, outcome_record, outcome};
ghost use Rattle.sink_writes.specs.Writing.{Writes};

use arc_core::{End, Sink};
use sink_writes::{Unwritten, write_all};
use std::alloc::{AllocError, Global};

// The word of an end that a session of a script may have.
fn word_of(end: End) -> &'static str
    requires { HasWord end }
    ensures { result.now ≡ word_of end }
{
    match end {
        End::Ended => "ended",
        End::Quit => "quit",
        End::Cut(_) => "cut",
        End::LineTooLong => "line-too-long",
        End::NoMemory => "no-memory",
        End::LongInput | End::ReadFault | End::WriteFault | End::Crowded => unreachable!(),
    }
}

// The line before the bytes of a session.
fn header(alloc: Global, number: usize, end: End, sent: &[u8]) -> Result<String, AllocError>
    requires { HasWord end }
    ensures { IfOk result (λ line. string_bytes line ≡ header number (outcome end sent.now)) }
{
    let word = word_of(end);
    let count = sent.len();
    format!(in alloc; "session {number} {word} {count}\n")
}

/// Writes the record of a session with this number: how it ended, and what was sent to it.
pub fn write_outcome<K: Sink>(
    alloc: Global,
    number: usize,
    end: End,
    sent: &[u8],
    sink: &mut K,
) -> Result<(), Unwritten>
    requires { HasWord end }
    ensures { Writes (outgoing (K.sent sink.old) (K.write_faults sink.old) (K.refusals sink.old)) (outcome_record number (outcome end sent.now))
        (outgoing (K.sent sink.new) (K.write_faults sink.new) (K.refusals sink.new)) result }
{
    let Ok(line) = header(alloc, number, end, sent) else {
        return Err(Unwritten::NoMemory);
    };
    if let Err(fault) = write_all(line.as_bytes(), sink) {
        return Err(fault);
    }
    if let Err(fault) = write_all(sent, sink) {
        return Err(fault);
    }
    write_all(b"\n".as_slice(), sink)
}

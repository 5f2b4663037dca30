//! The parts of texts.
ghost use Rattle.std.specs.Prelude.{◌≡◌, ◌+◌, ◌≤◌, [], ◌++◌, length, codes, decimal};
ghost use Rattle.std.specs.Option.{option_map_or};
ghost use Rattle.arc_core.specs.ReplyText.{word_line, tail_text, line_end};
ghost use Rattle.reply_print.specs.Parts.{row_tail, elements_line, run_line};
ghost use Rattle.reply_print.specs.PipeText.{fault_text};

use crate::line_from_end::LineFromEnd;
use arc_core::{PipeFault, Tail, ValueRow, Word};

/// The most bytes of a line of numbers, and of what stands behind a key.
const LINE_BYTES: usize = 72;

/// Such a line.
pub(crate) type NumberLine = LineFromEnd<LINE_BYTES>;

/// What begins the line of a found item.
pub(crate) const ROW_START: &[u8] = b"VALUE ";

/// What begins the answer to a run of piped commands.
const RUN_START: &[u8] = b"RESPONSE ";

/// What ends a line.
pub(crate) const LINE_END: &[u8] = b"\r\n";

/// The line behind the found items, and behind the statuses of a run that was executed to its end.
pub(crate) const END: &[u8] = b"END\r\n";

/// The line of a word.
pub(crate) fn line_of(word: Word) -> &'static [u8]
    ensures line { result.now ≡ word_line word }
    ensures short { length result.now ≤ 128 }
{
    match word {
        Word::Stored => b"STORED\r\n",
        Word::NotStored => b"NOT_STORED\r\n",
        Word::Exists => b"EXISTS\r\n",
        Word::NotFound => b"NOT_FOUND\r\n",
        Word::Deleted => b"DELETED\r\n",
        Word::Touched => b"TOUCHED\r\n",
        Word::Ok => b"OK\r\n",
        Word::Version => b"VERSION arcus-profile-2\r\n",
        Word::NotNumeric => b"CLIENT_ERROR cannot increment or decrement non-numeric value\r\n",
        Word::TooLarge => b"CLIENT_ERROR too large value\r\n",
        Word::OutOfMemory => b"SERVER_ERROR out of memory\r\n",
        Word::NoMemory => b"SERVER_ERROR no memory from the system\r\n",
        Word::Unknown => b"ERROR unknown command\r\n",
        Word::BadFormat => b"CLIENT_ERROR bad command line format\r\n",
        Word::BadChunk => b"CLIENT_ERROR bad data chunk\r\n",
        Word::LineTooLong => b"CLIENT_ERROR line too long\r\n",
        Word::Created => b"CREATED\r\n",
        Word::CreatedStored => b"CREATED_STORED\r\n",
        Word::TypeMismatch => b"TYPE_MISMATCH\r\n",
        Word::Unreadable => b"UNREADABLE\r\n",
        Word::Overflowed => b"OVERFLOWED\r\n",
        Word::OutOfRange => b"OUT_OF_RANGE\r\n",
        Word::NotFoundElement => b"NOT_FOUND_ELEMENT\r\n",
        Word::ElementExists => b"ELEMENT_EXISTS\r\n",
        Word::Exist => b"EXIST\r\n",
        Word::NotExist => b"NOT_EXIST\r\n",
        Word::Updated => b"UPDATED\r\n",
        Word::Replaced => b"REPLACED\r\n",
        Word::DeletedDropped => b"DELETED_DROPPED\r\n",
    }
}

/// The line behind elements, which says how their answer ends.
pub(crate) fn tail_line(tail: Tail) -> &'static [u8]
    ensures line { result.now ≡ tail_text tail ++ line_end }
    ensures short { length result.now ≤ 128 }
{
    match tail {
        Tail::End => END,
        Tail::Trimmed => b"TRIMMED\r\n",
        Tail::Deleted => b"DELETED\r\n",
        Tail::DeletedDropped => b"DELETED_DROPPED\r\n",
    }
}

/// The line behind statuses, which says how their run ended.
pub(crate) fn fault_line(fault: PipeFault) -> &'static [u8]
    ensures line { result.now ≡ fault_text fault ++ line_end }
    ensures short { length result.now ≤ 128 }
{
    match fault {
        PipeFault::Nothing => END,
        PipeFault::BadError => b"PIPE_ERROR bad error\r\n",
        PipeFault::Overflow => b"PIPE_ERROR command overflow\r\n",
    }
}

/// The line of a number.
pub(crate) fn number_line(number: u64) -> NumberLine
    ensures { result ≡ decimal number ++ line_end }
{
    let mut line = LineFromEnd::new();
    line.put(LINE_END);
    line.put_number(number);
    line
}

/// The line before elements: the collection's client flags, and how many elements come.
pub(crate) fn elements_line_of(flags: u32, count: usize) -> NumberLine
    ensures { result ≡ elements_line flags count }
{
    let mut line = LineFromEnd::new();
    line.put(LINE_END);
    put_blank_number(&mut line, count as u64);
    line.put_number(u64::from(flags));
    line.put(ROW_START);
    line
}

/// The line before statuses: how many come.
pub(crate) fn run_line_of(count: usize) -> NumberLine
    ensures { result ≡ run_line count }
{
    let mut line = LineFromEnd::new();
    line.put(LINE_END);
    line.put_number(count as u64);
    line.put(RUN_START);
    line
}

/// What stands behind the key in the line of a found item.
pub(crate) fn tail_of(row: &ValueRow) -> NumberLine
    ensures { result ≡ row_tail row.now }
{
    let mut tail = LineFromEnd::new();
    tail.put(LINE_END);
    if let Some(unique) = row.unique {
        put_blank_number(&mut tail, unique);
    }
    put_blank_number(&mut tail, row.value.bytes().len() as u64);
    put_blank_number(&mut tail, u64::from(row.flags));
    tail
}

// Puts a blank and a number in front.
fn put_blank_number(line: &mut NumberLine, number: u64)
    requires { length line.old + 21 ≤ 72 }
    ensures line { line.new ≡ codes " " ++ decimal number ++ line.old }
    ensures len { length line.new ≤ length line.old + 21 }
{
    line.put_number(number);
    line.put(b" ");
}

//! The texts of replies.
ghost use Rattle.std.specs.Prelude.{◌≡◌, ◌<◌, ◌≤◌, ◌^◌, ◌-◌, ◌++◌, min, length, codes, OnOk, []};
ghost use Rattle.std.specs.List.{flat_map};
ghost use Rattle.arc_core.specs.ReplyText.{reply_text, row_text, word_line, line_end};
ghost use Rattle.arc_core.specs.Outside.{incoming, outgoing, linked};
ghost use Rattle.reply_print.specs.Writing.{Writes};
ghost use Rattle.reply_print.specs.Reaching.{PutsOut};

use crate::Wrote;
use crate::elements::{elements_len, put_elements};
use crate::gatherer::Gatherer;
use crate::lines::{END, LINE_END, ROW_START, line_of, number_line, tail_of};
use crate::sending::{Unsent, send};
use arc_core::{Link, Reply, ValueRow, Word};

/// How many bytes the text of the reply has. The text has fewer than 2^64 bytes.
pub fn reply_len(reply: &Reply) -> u64
    requires { length (reply_text reply.now) < 2 ^ 64 }
    ensures { result ≡ length (reply_text reply.now) }
{
    capped_len(reply)
}

// How many bytes the text of the reply has, or the largest number where they are more.
pub(crate) fn capped_len(reply: &Reply) -> u64
    ensures { result ≡ min (length (reply_text reply.now)) (2 ^ 64 - 1) }
{
    match reply {
        Reply::Word(word) => line_of(*word).len() as u64,
        Reply::Number(number) => number_line(*number).bytes().len() as u64,
        Reply::Values(rows) => rows_len(rows.as_slice()).saturating_add(END.len() as u64),
        Reply::Rows { flags, rows, tail } => elements_len(*flags, rows.as_slice(), *tail),
    }
}

// How many bytes the texts of the rows have, or the largest number where they are more.
fn rows_len(rows: &[ValueRow]) -> u64
    ensures { result ≡ min (length (flat_map row_text rows.now)) (2 ^ 64 - 1) }
{
    let mut len: u64 = 0;
    for row in rows {
        len = len.saturating_add(row_len(row));
    }
    len
}

// How many bytes the text of the row has, or the largest number where they are more.
fn row_len(row: &ValueRow) -> u64
    ensures { result ≡ min (length (row_text row.now)) (2 ^ 64 - 1) }
{
    let head = ROW_START.len() + row.key.bytes().len() + tail_of(row).bytes().len();
    (row.value.bytes().len() as u64).saturating_add((head + LINE_END.len()) as u64)
}

/// Sends the text of the reply from the offset `from` on, which is at most the text's length. The text has fewer than
/// 2^64 bytes. Takes no memory.
///
/// The text was sent whole, from there on, where `Done` is answered. Else it was sent up to the offset that is
/// answered: `Failed`, `NoMemory` and `Again` come only where the link has counted that.
///
/// Small pieces of the text go out together: a text of at most 1,024 bytes is given to the link as one piece.
pub fn write_reply<L: Link>(reply: &Reply, from: u64, link: &mut L) -> Wrote
    requires fits { length (reply_text reply.now) < 2 ^ 64 }
    requires within { from ≤ length (reply_text reply.now) }
    ensures writes { Writes (outgoing (L.sent link.old) (L.write_faults link.old) (L.refusals link.old))
        (outgoing (L.sent link.new) (L.write_faults link.new) (L.refusals link.new)) (L.agains link.old) (L.agains link.new) (reply_text reply.now) from result }
    // Nothing is taken from the link.
    ensures incoming { incoming (L.left link.new) (L.read_faults link.new) ≡ incoming (L.left link.old) (L.read_faults link.old) }
{
    match reply {
        Reply::Word(word) => write_word(*word, from, link),
        Reply::Number(number) => write_line(number_line(*number).bytes(), from, link),
        Reply::Values(_) | Reply::Rows { .. } => write_pieces(reply, from, link),
    }
}

/// Sends the line of the word from the offset `from` on, which is at most its length, as `write_reply` does. Takes no
/// memory.
pub fn write_word<L: Link>(word: Word, from: u64, link: &mut L) -> Wrote
    requires { from ≤ length (word_line word) }
    ensures writes { Writes (outgoing (L.sent link.old) (L.write_faults link.old) (L.refusals link.old))
        (outgoing (L.sent link.new) (L.write_faults link.new) (L.refusals link.new)) (L.agains link.old) (L.agains link.new) (word_line word) from result }
    // Nothing is taken from the link.
    ensures incoming { incoming (L.left link.new) (L.read_faults link.new) ≡ incoming (L.left link.old) (L.read_faults link.old) }
{
    write_line(line_of(word), from, link)
}

// Sends a text that lies in one piece, from the offset on.
fn write_line<L: Link>(line: &[u8], from: u64, link: &mut L) -> Wrote
    requires fits { length line.now < 2 ^ 64 }
    requires within { from ≤ length line.now }
    ensures writes { Writes (outgoing (L.sent link.old) (L.write_faults link.old) (L.refusals link.old))
        (outgoing (L.sent link.new) (L.write_faults link.new) (L.refusals link.new)) (L.agains link.old) (L.agains link.new) line.now from result }
    ensures incoming { incoming (L.left link.new) (L.read_faults link.new) ≡ incoming (L.left link.old) (L.read_faults link.old) }
{
    match send(&line[from as usize..], from, link) {
        Ok(_) => Wrote::Done,
        Err(unsent) => unsent.wrote(),
    }
}

// Sends a text that lies in many pieces, from the offset on.
fn write_pieces<L: Link>(reply: &Reply, from: u64, link: &mut L) -> Wrote
    requires fits { length (reply_text reply.now) < 2 ^ 64 }
    requires within { from ≤ length (reply_text reply.now) }
    ensures writes { Writes (outgoing (L.sent link.old) (L.write_faults link.old) (L.refusals link.old))
        (outgoing (L.sent link.new) (L.write_faults link.new) (L.refusals link.new)) (L.agains link.old) (L.agains link.new) (reply_text reply.now) from result }
    ensures incoming { incoming (L.left link.new) (L.read_faults link.new) ≡ incoming (L.left link.old) (L.read_faults link.old) }
{
    let mut gatherer = Gatherer::new(from);
    match put_answer(&mut gatherer, reply, link) {
        Ok(()) => Wrote::Done,
        Err(unsent) => unsent.wrote(),
    }
}

// Puts out the text of the reply, and nothing waits then.
fn put_answer<L: Link>(gatherer: &mut Gatherer, reply: &Reply, link: &mut L) -> Result<(), Unsent>
    ensures puts { PutsOut
        (linked (L.left link.old) (L.read_faults link.old) (L.sent link.old) (L.write_faults link.old)
        (L.refusals link.old) (L.agains link.old))
        (linked (L.left link.new) (L.read_faults link.new) (L.sent link.new) (L.write_faults link.new)
        (L.refusals link.new) (L.agains link.new))
        gatherer.old gatherer.new (reply_text reply.now) result }
    ensures empty { OnOk result (gatherer.new.waiting ≡ []) }
{
    put_text(gatherer, reply, link)?;
    gatherer.flush(link)
}

// Puts out the text of the reply.
fn put_text<L: Link>(gatherer: &mut Gatherer, reply: &Reply, link: &mut L) -> Result<(), Unsent>
    ensures { PutsOut
        (linked (L.left link.old) (L.read_faults link.old) (L.sent link.old) (L.write_faults link.old)
        (L.refusals link.old) (L.agains link.old))
        (linked (L.left link.new) (L.read_faults link.new) (L.sent link.new) (L.write_faults link.new)
        (L.refusals link.new) (L.agains link.new))
        gatherer.old gatherer.new (reply_text reply.now) result }
{
    match reply {
        Reply::Word(word) => gatherer.put(line_of(*word), link),
        Reply::Number(number) => gatherer.put(number_line(*number).bytes(), link),
        Reply::Values(rows) => put_found(gatherer, rows.as_slice(), link),
        Reply::Rows { flags, rows, tail } => {
            put_elements(gatherer, *flags, rows.as_slice(), *tail, link)
        }
    }
}

// Puts out the rows and the end of the answer.
fn put_found<L: Link>(
    gatherer: &mut Gatherer,
    rows: &[ValueRow],
    link: &mut L,
) -> Result<(), Unsent>
    ensures { PutsOut
        (linked (L.left link.old) (L.read_faults link.old) (L.sent link.old) (L.write_faults link.old)
        (L.refusals link.old) (L.agains link.old))
        (linked (L.left link.new) (L.read_faults link.new) (L.sent link.new) (L.write_faults link.new)
        (L.refusals link.new) (L.agains link.new))
        gatherer.old gatherer.new (flat_map row_text rows.now ++ codes "END" ++ line_end) result }
{
    put_rows(gatherer, rows, link)?;
    gatherer.put(END, link)
}

// Puts out the rows.
fn put_rows<L: Link>(gatherer: &mut Gatherer, rows: &[ValueRow], link: &mut L) -> Result<(), Unsent>
    ensures { PutsOut
        (linked (L.left link.old) (L.read_faults link.old) (L.sent link.old) (L.write_faults link.old)
        (L.refusals link.old) (L.agains link.old))
        (linked (L.left link.new) (L.read_faults link.new) (L.sent link.new) (L.write_faults link.new)
        (L.refusals link.new) (L.agains link.new))
        gatherer.old gatherer.new (flat_map row_text rows.now) result }
{
    for row in rows {
        put_row(gatherer, row, link)?;
    }
    Ok(())
}

// Puts out a row: its line, and its value as a line.
fn put_row<L: Link>(gatherer: &mut Gatherer, row: &ValueRow, link: &mut L) -> Result<(), Unsent>
    ensures { PutsOut
        (linked (L.left link.old) (L.read_faults link.old) (L.sent link.old) (L.write_faults link.old)
        (L.refusals link.old) (L.agains link.old))
        (linked (L.left link.new) (L.read_faults link.new) (L.sent link.new) (L.write_faults link.new)
        (L.refusals link.new) (L.agains link.new))
        gatherer.old gatherer.new (row_text row.now) result }
{
    gatherer.put(ROW_START, link)?;
    gatherer.put(row.key.bytes(), link)?;
    gatherer.put(tail_of(row).bytes(), link)?;
    gatherer.put(row.value.bytes(), link)?;
    gatherer.put(LINE_END, link)
}

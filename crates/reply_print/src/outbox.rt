//! Texts that wait, so that those of many units go out in one push.
ghost use Rattle.std.specs.Prelude.{◌≡◌, ◌+◌, ◌-◌, ◌<◌, ◌≤◌, [], ◌++◌, true, length, drop, nat_le, if◌then◌else◌, MatchBool, codes, IfOk, vec_len, vec_capacity};
ghost use Rattle.std.specs.List.{flat_map};
ghost use Rattle.arc_core.specs.ReplyText.{reply_text, row_text, elements_text, line_end};
ghost use Rattle.reply_print.specs.Parts.{element_pieces};
ghost use Rattle.reply_print.specs.PipeText.{pipe_text, status_text};
ghost use Rattle.reply_print.specs.Waiting.{IsPut, IsPutInPart};

use crate::elements::add_elements;
use crate::lines::{
    END, LINE_END, ROW_START, elements_line_of, fault_line, line_of, number_line, run_line_of,
    tail_line, tail_of,
};
use arc_core::{NoMemory, PipeFault, PipeStatus, Reply, Row, Tail, ValueRow};
use std::alloc::Global;
use std::marker::Model;

/// The most bytes that wait, but for the answer to a run of piped commands behind them.
pub const WAITING_BYTES: usize = 16_384;

/// The memory of an outbox, in bytes: room for the answer to a run of 500 commands behind all that waits.
const OUTBOX_BYTES: usize = 51_200;

/// The most bytes of a found item's text but its key and its value: `VALUE `, a line end, and a line's tail.
const ROW_FRAME_BYTES: usize = 80;

/// Bytes that wait to be sent: 16,384 at most, and the answer to a run of piped commands behind them. Contracts see the
/// list of them.
#[derive(Drop)]
pub struct Outbox {
    // Never more than its memory, which is taken once.
    bytes: Vec<u8>,
}

impl Model for Outbox {
    ghost use Rattle.std.specs.Prelude.{List, ℕ, ◌≤◌, vec_len, vec_capacity};

    ghost Value = { List ℕ };

    ghost view = { λ outbox. outbox.bytes.items };

    ghost invariant = { λ outbox. (vec_len outbox.bytes ≤ 51200) × (51200 ≤ vec_capacity outbox.bytes) };
}

impl Outbox {
    /// An outbox in which nothing waits. It takes memory for 51,200 bytes, and none later: it is room, of which nothing is
    /// touched before texts wait there. `NoMemory` comes for want of memory alone.
    pub fn new(alloc: Global) -> Result<Outbox, NoMemory>
        ensures { IfOk result (λ outbox. outbox ≡ []) }
    {
        let bytes = Vec::with_capacity(alloc, OUTBOX_BYTES)?;
        Ok(Outbox { bytes })
    }

    /// The bytes that wait.
    pub fn bytes(&self) -> &[u8]
        ensures bytes { result.now ≡ self.now }
        ensures fits { length result.now ≤ 51200 }
    {
        &self.bytes
    }

    /// Puts a piece behind all that waits, where it has room, and tells whether it has. Else nothing has changed.
    pub fn add(&mut self, piece: &[u8]) -> bool
        ensures room { result ≡ nat_le (length self.old + length piece.now) 16384 }
        ensures waits { self.new ≡ (if result then self.old ++ piece.now else self.old) }
    {
        let held = self.bytes.len();
        if held > WAITING_BYTES || piece.len() > WAITING_BYTES - held {
            return false;
        }
        append(&mut self.bytes, piece);
        true
    }

    /// Puts the whole text of a reply behind all that waits, where it has room with some bytes to spare, and tells
    /// whether it has. Else nothing has changed: the text has fewer than 80 bytes less than there is room for, or more.
    /// Takes no memory.
    pub fn put(&mut self, reply: &Reply) -> bool
        ensures put { IsPut self.old self.new (reply_text reply.now) result }
        ensures fits { result ≡ true → length self.new ≤ 16384 }
    {
        match reply {
            Reply::Word(word) => self.add(line_of(*word)),
            Reply::Number(number) => self.add(number_line(*number).bytes()),
            Reply::Values(rows) => self.put_rows(rows.as_slice()),
            Reply::Rows { flags, rows, tail } => self.put_elements(*flags, rows.as_slice(), *tail),
        }
    }

    /// Puts the whole answer to a run of piped commands behind all that waits. There are at most 500 statuses, and it has
    /// room wherever 16,384 bytes wait at most. Takes no memory.
    pub fn put_pipe(&mut self, statuses: &[PipeStatus], fault: PipeFault)
        requires few { length statuses.now ≤ 500 }
        requires room { length self.old ≤ 16384 }
        ensures { self.new ≡ self.old ++ pipe_text statuses.now fault }
    {
        append(&mut self.bytes, run_line_of(statuses.len()).bytes());
        append_statuses(&mut self.bytes, statuses);
        append(&mut self.bytes, fault_line(fault));
    }

    /// So many bytes at the front were sent. (All, but where a link takes a part.)
    pub fn took(&mut self, count: usize)
        requires { count ≤ length self.old }
        ensures { self.new ≡ drop count self.old }
    {
        if count == self.bytes.len() {
            self.bytes.clear();
        } else {
            let left = self.bytes.len() - count;
            self.bytes.copy_within(count.., 0);
            self.bytes.truncate(left);
        }
    }

    // How many bytes more may wait.
    fn room(&self) -> usize
        ensures { result ≡ 16384 - length self.now }
    {
        WAITING_BYTES.saturating_sub(self.bytes.len())
    }

    // Puts found items and the end of their answer last, all of it or nothing.
    fn put_rows(&mut self, rows: &[ValueRow]) -> bool
        ensures put { IsPut self.old self.new (flat_map row_text rows.now ++ codes "END" ++ line_end) result }
        ensures fits { result ≡ true → length self.new ≤ 16384 }
    {
        let before = self.bytes.len();
        if self.put_each(rows) && self.add(END) {
            return true;
        }
        self.bytes.truncate(before);
        false
    }

    // Puts found items last, up to the first that has no room.
    fn put_each(&mut self, rows: &[ValueRow]) -> bool
        ensures { IsPutInPart self.old self.new (flat_map row_text rows.now) result }
    {
        for row in rows {
            if !self.put_row(row) {
                return false;
            }
        }
        true
    }

    // Puts a found item last: its line, and its value as a line.
    fn put_row(&mut self, row: &ValueRow) -> bool
        ensures { IsPut self.old self.new (row_text row.now) result }
    {
        let key = row.key.bytes();
        let value = row.value.bytes();
        if self.room() < key.len() + value.len() + ROW_FRAME_BYTES {
            return false;
        }
        append(&mut self.bytes, ROW_START);
        append(&mut self.bytes, key);
        append(&mut self.bytes, tail_of(row).bytes());
        append(&mut self.bytes, value);
        append(&mut self.bytes, LINE_END);
        true
    }

    // Puts elements and the lines around them last, all of it or nothing.
    fn put_elements(&mut self, flags: u32, rows: &[Row], tail: Tail) -> bool
        ensures put { IsPut self.old self.new (elements_text flags rows.now tail) result }
        ensures fits { result ≡ true → length self.new ≤ 16384 }
    {
        let waited = self.bytes.len();
        if self.add(elements_line_of(flags, rows.len()).bytes())
            && add_elements(rows, self)
            && self.add(tail_line(tail))
        {
            return true;
        }
        self.bytes.truncate(waited);
        false
    }

    /// Puts the pieces of an element's line behind all that waits, where they have room, and tells whether they have.
    /// Else nothing has changed.
    pub(crate) fn add_line(&mut self, field: &[u8], front: &[u8], value: &[u8]) -> bool
        requires field { length field.now ≤ 16000 }
        requires front { length front.now ≤ 151 }
        ensures room { result ≡ nat_le (length self.old + length (element_pieces field.now front.now value.now)) 16384 }
        ensures waits { self.new ≡ (if result then self.old ++ element_pieces field.now front.now value.now else self.old) }
    {
        if self.room() < field.len() + front.len() + value.len() + LINE_END.len() {
            return false;
        }
        append_field(&mut self.bytes, field);
        append(&mut self.bytes, front);
        append(&mut self.bytes, value);
        append(&mut self.bytes, LINE_END);
        true
    }
}

// Puts a field last, for which there is memory. Most elements have none, and a copy of no bytes costs as much as one of a
// few.
fn append_field(kept: &mut Vec<u8>, field: &[u8])
    requires { vec_len kept.old + length field.now ≤ vec_capacity kept.old }
    ensures items { kept.new.items ≡ kept.old.items ++ field.now }
    ensures capacity { vec_capacity kept.old ≤ vec_capacity kept.new }
{
    if !field.is_empty() {
        append(kept, field);
    }
}

// Puts the lines of statuses last, for which there is memory.
fn append_statuses(kept: &mut Vec<u8>, statuses: &[PipeStatus])
    requires { vec_len kept.old + length (flat_map status_text statuses.now) ≤ vec_capacity kept.old }
    ensures items { kept.new.items ≡ kept.old.items ++ flat_map status_text statuses.now }
    ensures capacity { vec_capacity kept.old ≤ vec_capacity kept.new }
{
    for status in statuses {
        append_status(kept, *status);
    }
}

// Puts the line of a status last, for which there is memory.
fn append_status(kept: &mut Vec<u8>, status: PipeStatus)
    requires { vec_len kept.old + length (status_text status) ≤ vec_capacity kept.old }
    ensures items { kept.new.items ≡ kept.old.items ++ status_text status }
    ensures capacity { vec_capacity kept.old ≤ vec_capacity kept.new }
{
    match status {
        PipeStatus::Word(word) => append(kept, line_of(word)),
        PipeStatus::Number(number) => append(kept, number_line(number).bytes()),
    }
}

// Puts bytes last, for which there is memory.
fn append(kept: &mut Vec<u8>, bytes: &[u8])
    requires { vec_len kept.old + length bytes.now ≤ vec_capacity kept.old }
    ensures items { kept.new.items ≡ kept.old.items ++ bytes.now }
    ensures capacity { vec_capacity kept.old ≤ vec_capacity kept.new }
{
    let _ = kept.extend_from_slice(bytes);
}

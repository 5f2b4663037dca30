//! The texts of replies, worked by hand, from each offset, over a link that takes them in parts or stops at one push.
ghost use Rattle.std.specs.Prelude.{◌<◌, length, Some};
ghost use Rattle.arc_core.specs.Outside.{outgoing, LinkPushed};

use crate::texts::capped_len;
use crate::{Outbox, WAITING_BYTES, Wrote, write_reply, write_word};
use arc_core::{Key, KeyRef, Link, NoMemory, Pull, Push, Reply, Seq, Value, ValueRow, Word};
use std::alloc::{AllocError, Global};
use std::process::Abort;
use std::test::Fail;

// At which push, counted from 0, a link stops.
#[derive(Clone, Copy)]
pub(crate) enum Stop {
    Never,
    Fails(u64),
    Refuses(u64),
    Waits(u64),
    WaitsEachSecond,
}

// A link in memory from which nothing comes, and of whose pushes each takes at most so many bytes.
#[derive(Drop)]
pub(crate) struct TestLink {
    pub(crate) sent: Vec<u8>,
    most: usize,
    stop: Stop,
    pub(crate) pushes: u64,
    faults: u64,
    refusals: u64,
    agains: u64,
    ghost some: { 0 < most },
}

impl Link for TestLink {
    ghost use Rattle.std.specs.Prelude.{Some, []};

    ghost left = { λ _. Some [] };

    ghost read_faults = { λ _. 0 };

    ghost sent = { λ link. Some link.sent.items };

    ghost write_faults = { λ link. link.faults };

    ghost refusals = { λ link. link.refusals };

    ghost agains = { λ link. link.agains };

    fn pull(&mut self, _buf: &mut [u8]) -> Pull {
        Pull::End
    }

    fn push(&mut self, piece: &[u8]) -> Push {
        let push = self.pushes;
        self.pushes = push.saturating_add(1);
        match self.stop {
            Stop::Fails(place) if place == push => {
                self.faults = self.faults.saturating_add(1);
                Push::Failed
            }
            Stop::Refuses(place) if place == push => {
                self.refusals = self.refusals.saturating_add(1);
                Push::NoMemory
            }
            Stop::Waits(place) if place == push => {
                self.agains = self.agains.saturating_add(1);
                Push::Again
            }
            Stop::WaitsEachSecond if push % 2 == 1 => {
                self.agains = self.agains.saturating_add(1);
                Push::Again
            }
            _ => self.take(piece),
        }
    }
}

impl TestLink {
    // A link to which nothing was sent.
    pub(crate) fn new(alloc: Global, most: usize, stop: Stop) -> TestLink
        requires { 0 < most }
    {
        TestLink {
            sent: Vec::new(alloc),
            most,
            stop,
            pushes: 0,
            faults: 0,
            refusals: 0,
            agains: 0,
        }
    }

    // Takes the front of a piece.
    fn take(&mut self, piece: &[u8]) -> Push
        requires { 0 < length piece.now }
        ensures { LinkPushed (outgoing (Some self.old.sent.items) self.old.faults self.old.refusals)
            (outgoing (Some self.new.sent.items) self.new.faults self.new.refusals) self.old.agains self.new.agains piece.now result }
    {
        let count = piece.len().min(self.most);
        match self.sent.extend_from_slice(&piece[..count]) {
            Ok(()) => Push::Took(count),
            Err(_) => {
                self.refusals = self.refusals.saturating_add(1);
                Push::NoMemory
            }
        }
    }
}

// Sends the text of a reply from the offset on, to a link that takes so many bytes at most at each push.
pub(crate) fn sent(
    rt: &impl Abort,
    alloc: Global,
    reply: &Reply,
    from: usize,
    most: usize,
    stop: Stop,
) -> (Wrote, TestLink) {
    let len = capped_len(reply);
    assert!(rt; len < u64::MAX && from as u64 <= len && 0 < most);
    let mut link = TestLink::new(alloc, most, stop);
    let wrote = write_reply(reply, from as u64, &mut link);
    (wrote, link)
}

const WORDS: [(Word, &[u8]); 29] = [
    (Word::Stored, b"STORED\r\n"),
    (Word::NotStored, b"NOT_STORED\r\n"),
    (Word::Exists, b"EXISTS\r\n"),
    (Word::NotFound, b"NOT_FOUND\r\n"),
    (Word::Deleted, b"DELETED\r\n"),
    (Word::Touched, b"TOUCHED\r\n"),
    (Word::Ok, b"OK\r\n"),
    (Word::Version, b"VERSION arcus-profile-2\r\n"),
    (
        Word::NotNumeric,
        b"CLIENT_ERROR cannot increment or decrement non-numeric value\r\n",
    ),
    (Word::TooLarge, b"CLIENT_ERROR too large value\r\n"),
    (Word::OutOfMemory, b"SERVER_ERROR out of memory\r\n"),
    (
        Word::NoMemory,
        b"SERVER_ERROR no memory from the system\r\n",
    ),
    (Word::Unknown, b"ERROR unknown command\r\n"),
    (Word::BadFormat, b"CLIENT_ERROR bad command line format\r\n"),
    (Word::BadChunk, b"CLIENT_ERROR bad data chunk\r\n"),
    (Word::LineTooLong, b"CLIENT_ERROR line too long\r\n"),
    (Word::Created, b"CREATED\r\n"),
    (Word::CreatedStored, b"CREATED_STORED\r\n"),
    (Word::TypeMismatch, b"TYPE_MISMATCH\r\n"),
    (Word::Unreadable, b"UNREADABLE\r\n"),
    (Word::Overflowed, b"OVERFLOWED\r\n"),
    (Word::OutOfRange, b"OUT_OF_RANGE\r\n"),
    (Word::NotFoundElement, b"NOT_FOUND_ELEMENT\r\n"),
    (Word::ElementExists, b"ELEMENT_EXISTS\r\n"),
    (Word::Exist, b"EXIST\r\n"),
    (Word::NotExist, b"NOT_EXIST\r\n"),
    (Word::Updated, b"UPDATED\r\n"),
    (Word::Replaced, b"REPLACED\r\n"),
    (Word::DeletedDropped, b"DELETED_DROPPED\r\n"),
];

const NUMBERS: [(u64, &[u8]); 5] = [
    (0, b"0\r\n"),
    (7, b"7\r\n"),
    (10, b"10\r\n"),
    (4_294_967_296, b"4294967296\r\n"),
    (u64::MAX, b"18446744073709551615\r\n"),
];

#[test]
fn writes_each_word_and_numbers_in_one_push(rt: HostRuntime) {
    for (word, text) in WORDS {
        check_line(&rt, rt.alloc(), &Reply::Word(word), text);
        let mut link = TestLink::new(rt.alloc(), 2, Stop::Never);
        assert_eq!(rt; write_word(word, 0, &mut link), Wrote::Done);
        assert!(rt; link.sent.as_slice() == text);
    }
    for (number, text) in NUMBERS {
        check_line(&rt, rt.alloc(), &Reply::Number(number), text);
    }
}

// Checks that the reply has this text, and goes out in one push.
fn check_line(rt: &impl Abort, alloc: Global, reply: &Reply, text: &[u8]) {
    let (wrote, link) = sent(rt, alloc, reply, 0, usize::MAX, Stop::Never);
    assert!(rt; wrote == Wrote::Done && link.pushes == 1);
    assert!(rt; link.sent.as_slice() == text);
    assert!(rt; capped_len(reply) == text.len() as u64);
}

// Puts a row last.
fn add_row(
    rt: &impl Abort,
    alloc: Global,
    rows: &mut Seq<ValueRow>,
    key: &[u8],
    flags: u32,
    unique: Option<u64>,
    value: &[u8],
) -> Result<(), NoMemory> {
    let Ok(key) = KeyRef::read(key) else {
        panic!(rt; "no key");
    };
    let row = ValueRow {
        key: Key::copy(alloc, key)?,
        flags,
        unique,
        value: Value::copy(alloc, value)?,
    };
    match rows.push(row) {
        Ok(()) => Ok(()),
        Err((_, fault)) => Err(fault),
    }
}

// Three rows: without a unique; with one, and an empty value; with the largest numbers.
fn three_rows(rt: &impl Abort, alloc: Global) -> Result<Reply, NoMemory> {
    let mut rows = Seq::new(alloc);
    add_row(rt, alloc, &mut rows, b"k", 0, None, b"v\r\n")?;
    add_row(rt, alloc, &mut rows, b"long-key", 7, Some(0), b"")?;
    add_row(
        rt,
        alloc,
        &mut rows,
        b"z",
        u32::MAX,
        Some(u64::MAX),
        b"END\r\nEND\r\n",
    )?;
    Ok(Reply::Values(rows))
}

const THREE_ROWS: &[u8] =
    b"VALUE k 0 3\r\nv\r\n\r\nVALUE long-key 7 0 0\r\n\r\nVALUE z 4294967295 10 18446744073709551615\r\nEND\r\nEND\r\n\r\nEND\r\n";

#[test]
fn writes_rows_in_one_push(rt: HostRuntime) -> Result<(), Fail> {
    let none = Reply::Values(Seq::new(rt.alloc()));
    check_line(&rt, rt.alloc(), &none, b"END\r\n");
    let three = three_rows(&rt, rt.alloc())?;
    check_line(&rt, rt.alloc(), &three, THREE_ROWS);
    Ok(())
}

#[test]
fn writes_rows_from_each_offset(rt: HostRuntime) -> Result<(), Fail> {
    let reply = three_rows(&rt, rt.alloc())?;
    for from in 0..THREE_ROWS.len() + 1 {
        for most in [1, 3, usize::MAX] {
            let (wrote, link) = sent(&rt, rt.alloc(), &reply, from, most, Stop::Never);
            assert_eq!(rt; wrote, Wrote::Done);
            assert!(rt; link.sent.as_slice() == &THREE_ROWS[from..]);
        }
    }
    Ok(())
}

#[test]
fn tells_up_to_where_rows_were_sent(rt: HostRuntime) -> Result<(), Fail> {
    let reply = three_rows(&rt, rt.alloc())?;
    for from in [0, 5, 40] {
        for (most, pushes) in [(1, THREE_ROWS.len() - from), (3, 10), (usize::MAX, 1)] {
            for place in 0..pushes as u64 {
                check_stop(
                    &rt,
                    rt.alloc(),
                    &reply,
                    THREE_ROWS,
                    from,
                    most,
                    Stop::Fails(place),
                );
                check_stop(
                    &rt,
                    rt.alloc(),
                    &reply,
                    THREE_ROWS,
                    from,
                    most,
                    Stop::Refuses(place),
                );
                check_stop(
                    &rt,
                    rt.alloc(),
                    &reply,
                    THREE_ROWS,
                    from,
                    most,
                    Stop::Waits(place),
                );
            }
        }
    }
    Ok(())
}

// Checks what is answered where the link stops, and what was sent before.
pub(crate) fn check_stop(
    rt: &impl Abort,
    alloc: Global,
    reply: &Reply,
    text: &[u8],
    from: usize,
    most: usize,
    stop: Stop,
) {
    let (wrote, link) = sent(rt, alloc, reply, from, most, stop);
    check_sent_upto(rt, wrote, &link, text, from, most, stop);
}

// Checks what is answered where the link has stopped, and what was sent before.
pub(crate) fn check_sent_upto(
    rt: &impl Abort,
    wrote: Wrote,
    link: &TestLink,
    text: &[u8],
    from: usize,
    most: usize,
    stop: Stop,
) {
    let upto = from.saturating_add(link.sent.len());
    assert!(rt; from <= upto && upto < text.len());
    assert!(rt; link.sent.as_slice() == &text[from..upto]);
    let (place, answer, counts) = match stop {
        Stop::Never | Stop::WaitsEachSecond => panic!(rt; "no stop"),
        Stop::Fails(place) => (place, Wrote::Failed(upto as u64), (1, 0, 0)),
        Stop::Refuses(place) => (place, Wrote::NoMemory(upto as u64), (0, 1, 0)),
        Stop::Waits(place) => (place, Wrote::Again(upto as u64), (0, 0, 1)),
    };
    assert_eq!(rt; wrote, answer);
    assert!(rt; (link.faults, link.refusals, link.agains) == counts);
    assert!(rt; upto - from == (place as usize).saturating_mul(most));
}

#[test]
fn writes_long_keys_and_values(rt: HostRuntime) -> Result<(), Fail> {
    let alloc = rt.alloc();
    let key = vec![in alloc; b'k'; 16_000]?;
    let value = vec![in alloc; b'v'; 100_000]?;
    let mut rows = Seq::new(alloc);
    add_row(&rt, alloc, &mut rows, &key, 1, None, &value)?;
    add_row(&rt, alloc, &mut rows, b"k", 1, None, b"")?;
    let reply = Reply::Values(rows);
    let mut text = Vec::from_slice(alloc, b"VALUE ")?;
    text.extend_from_slice(&key)?;
    text.extend_from_slice(b" 1 100000\r\n")?;
    text.extend_from_slice(&value)?;
    text.extend_from_slice(b"\r\nVALUE k 1 0\r\n\r\nEND\r\n")?;
    // Each long piece goes out by itself, and what is gathered before, between and behind them in one push each.
    let (wrote, link) = sent(&rt, alloc, &reply, 0, usize::MAX, Stop::Never);
    assert!(rt; wrote == Wrote::Done && link.pushes == 5);
    assert!(rt; link.sent == text);
    for (from, most) in [
        (0, 4_096),
        (3, 1_000),
        (16_005, 99),
        (100_000, 7),
        (116_017, 3),
    ] {
        let (wrote, link) = sent(&rt, alloc, &reply, from, most, Stop::Never);
        assert_eq!(rt; wrote, Wrote::Done);
        assert!(rt; from <= text.len() && link.sent.as_slice() == &text[from..]);
    }
    Ok(())
}

#[test]
fn gathers_up_to_1024_bytes(rt: HostRuntime) -> Result<(), Fail> {
    // The row has 16 bytes before the value and 2 behind it, and 5 end the text. A piece without room goes out with
    // those behind it where it has at most 1,024 bytes, and else by itself.
    for (value, pushes) in [(1_001, 1), (1_002, 2), (1_017, 2), (1_018, 3), (1_025, 3)] {
        let alloc = rt.alloc();
        let value = filled(&rt, alloc, value)?;
        let mut rows = Seq::new(alloc);
        add_row(&rt, alloc, &mut rows, b"k", 1, None, &value)?;
        let reply = Reply::Values(rows);
        let (wrote, link) = sent(&rt, alloc, &reply, 0, usize::MAX, Stop::Never);
        assert!(rt; wrote == Wrote::Done && link.pushes == pushes);
    }
    Ok(())
}

#[test]
fn texts_wait_where_they_have_room(rt: HostRuntime) -> Result<(), Fail> {
    let alloc = rt.alloc();
    let three = three_rows(&rt, alloc)?;
    let mut outbox = Outbox::new(alloc)?;
    assert!(rt;
        outbox.put(&Reply::Word(Word::Stored))
            && outbox.put(&three)
            && outbox.put(&Reply::Number(7))
    );
    let waiting = outbox.bytes().len();
    assert!(rt; waiting == 8 + THREE_ROWS.len() + 3);
    assert!(rt; &outbox.bytes()[8..8 + THREE_ROWS.len()] == THREE_ROWS);
    // A word has room up to the last byte, and then none.
    let filler = vec![in alloc; b'x'; WAITING_BYTES - waiting - 8]?;
    assert!(rt;
        outbox.add(&filler) && !outbox.put(&three) && outbox.put(&Reply::Word(Word::Stored))
    );
    assert!(rt; outbox.bytes().len() == WAITING_BYTES && !outbox.put(&Reply::Number(7)));
    assert!(rt; outbox.bytes().len() == WAITING_BYTES && outbox.bytes().ends_with(b"xSTORED\r\n"));
    Ok(())
}

// So many equal bytes.
pub(crate) fn filled(rt: &impl Abort, alloc: Global, len: usize) -> Result<Vec<u8>, AllocError> {
    assert!(rt; len < 4_096);
    vec![in alloc; b'v'; len]
}

//! Answers of elements, worked by hand: from each offset, in the outbox, and over links that stop at one push.
use crate::tests::{Stop, check_stop, filled, sent};
use crate::texts::capped_len;
use crate::{Outbox, WAITING_BYTES, Wrote};
use arc_core::{
    Bkey, Eflag, Key, KeyRef, NoMemory, Reply, Row, RowName, Seq, ShortBytes, Tail, Value,
};
use std::alloc::Global;
use std::process::Abort;
use std::test::Fail;

// How an element of a table is named.
#[derive(Clone, Copy)]
enum Name {
    Plain,
    Field(&'static [u8]),
    Number(u64),
    Bytes(&'static [u8]),
}

// An element of a table: its name, its flag, and its value. It has no flag where the flag has no bytes.
type Element = (Name, &'static [u8], &'static [u8]);

const BYTES_31: &[u8] =
    b"\x00\x01\x02\x03\x04\x05\x06\x07\x08\x09\x0a\x0b\x0c\x0d\x0e\x0f\x10\x11\x12\x13\x14\x15\x16\x17\x18\x19\x1a\x1b\x1c\x1d\xff";

// The collection's flags, the elements, how their answer ends, and its text.
const ANSWERS: [(u32, &[Element], Tail, &[u8]); 13] = [
    (
        0,
        &[
            (Name::Plain, b"", b"e"),
            (Name::Plain, b"", b"d"),
            (Name::Plain, b"", b"c"),
        ],
        Tail::End,
        b"VALUE 0 3\r\n1 e\r\n1 d\r\n1 c\r\nEND\r\n",
    ),
    (
        0,
        &[(Name::Plain, b"", b"a")],
        Tail::Deleted,
        b"VALUE 0 1\r\n1 a\r\nDELETED\r\n",
    ),
    (
        0,
        &[(Name::Plain, b"", b"b")],
        Tail::DeletedDropped,
        b"VALUE 0 1\r\n1 b\r\nDELETED_DROPPED\r\n",
    ),
    (
        0,
        &[
            (Name::Field(b"f2"), b"", b"b"),
            (Name::Field(b"f1"), b"", b"cc"),
        ],
        Tail::End,
        b"VALUE 0 2\r\nf2 1 b\r\nf1 2 cc\r\nEND\r\n",
    ),
    (
        0,
        &[
            (Name::Number(2), b"", b"b"),
            (Name::Number(3), b"", b"c"),
            (Name::Number(4), b"", b"d"),
        ],
        Tail::Trimmed,
        b"VALUE 0 3\r\n2 1 b\r\n3 1 c\r\n4 1 d\r\nTRIMMED\r\n",
    ),
    (
        0,
        &[
            (Name::Bytes(b"\x00"), b"", b"b"),
            (Name::Bytes(b"\x00\x00"), b"", b"c"),
            (Name::Bytes(b"\x01"), b"", b"a"),
        ],
        Tail::End,
        b"VALUE 0 3\r\n0x00 1 b\r\n0x0000 1 c\r\n0x01 1 a\r\nEND\r\n",
    ),
    (
        0,
        &[
            (Name::Number(1), b"\x11", b"a"),
            (Name::Number(2), b"\x22", b"b"),
        ],
        Tail::End,
        b"VALUE 0 2\r\n1 0x11 1 a\r\n2 0x22 1 b\r\nEND\r\n",
    ),
    (
        0,
        &[
            (Name::Number(3), b"\x33", b"c"),
            (Name::Number(4), b"", b"d"),
        ],
        Tail::End,
        b"VALUE 0 2\r\n3 0x33 1 c\r\n4 1 d\r\nEND\r\n",
    ),
    // no elements
    (7, &[], Tail::End, b"VALUE 7 0\r\nEND\r\n"),
    // an empty value, and one that looks like an end
    (
        10,
        &[
            (Name::Plain, b"", b""),
            (Name::Field(b"long-field"), b"", b"END\r\nEND\r\n"),
        ],
        Tail::End,
        b"VALUE 10 2\r\n0 \r\nlong-field 10 END\r\nEND\r\n\r\nEND\r\n",
    ),
    // the largest numbers
    (
        4_294_967_295,
        &[(Name::Number(18_446_744_073_709_551_615), b"", b"v")],
        Tail::Trimmed,
        b"VALUE 4294967295 1\r\n18446744073709551615 1 v\r\nTRIMMED\r\n",
    ),
    // the longest bkey and the longest flag
    (
        0,
        &[(Name::Bytes(BYTES_31), BYTES_31, b"v")],
        Tail::End,
        b"VALUE 0 1\r\n0x000102030405060708090a0b0c0d0e0f101112131415161718191a1b1c1dff 0x000102030405060708090a0b0c0d0e0f101112131415161718191a1b1c1dff 1 v\r\nEND\r\n",
    ),
    // elements that are gone with a tree
    (
        1,
        &[
            (Name::Number(0), b"\xab\xcd", b""),
            (Name::Number(10), b"", b"x"),
        ],
        Tail::DeletedDropped,
        b"VALUE 1 2\r\n0 0xabcd 0 \r\n10 1 x\r\nDELETED_DROPPED\r\n",
    ),
];

// The bytes of a flag or a bkey.
fn short_bytes(rt: &impl Abort, bytes: &[u8]) -> ShortBytes {
    assert!(rt; !bytes.is_empty() && bytes.len() < 32);
    ShortBytes::of(bytes)
}

// The name of an element.
fn row_name(rt: &impl Abort, alloc: Global, name: Name) -> Result<RowName, NoMemory> {
    match name {
        Name::Plain => Ok(RowName::Plain),
        Name::Number(number) => Ok(RowName::At(Bkey::Number(number))),
        Name::Bytes(bytes) => Ok(RowName::At(Bkey::Bytes(short_bytes(rt, bytes)))),
        Name::Field(field) => {
            let Ok(field) = KeyRef::read(field) else {
                panic!(rt; "no field");
            };
            Ok(RowName::Field(Key::copy(alloc, field)?))
        }
    }
}

// Puts an element last.
fn add_row(
    rt: &impl Abort,
    alloc: Global,
    rows: &mut Seq<Row>,
    name: Name,
    flag: &[u8],
    value: &[u8],
) -> Result<(), NoMemory> {
    let eflag = if flag.is_empty() {
        None
    } else {
        Some(Eflag::of(short_bytes(rt, flag).bytes()))
    };
    let row = Row {
        name: row_name(rt, alloc, name)?,
        eflag,
        value: Value::copy(alloc, value)?,
    };
    match rows.push(row) {
        Ok(()) => Ok(()),
        Err((_, fault)) => Err(fault),
    }
}

// The answer of elements.
fn answer_of(
    rt: &impl Abort,
    alloc: Global,
    flags: u32,
    elements: &[Element],
    tail: Tail,
) -> Result<Reply, NoMemory> {
    let mut rows = Seq::new(alloc);
    for (name, flag, value) in elements {
        add_row(rt, alloc, &mut rows, *name, flag, value)?;
    }
    Ok(Reply::Rows { flags, rows, tail })
}

#[test]
fn elements_have_these_texts(rt: HostRuntime) -> Result<(), Fail> {
    for (flags, elements, tail, text) in ANSWERS {
        let reply = answer_of(&rt, rt.alloc(), flags, elements, tail)?;
        assert!(rt; capped_len(&reply) == text.len() as u64);
        for from in 0..text.len() + 1 {
            check_sent(&rt, rt.alloc(), &reply, text, from);
        }
        check_waits(&rt, rt.alloc(), &reply, text)?;
    }
    Ok(())
}

// Checks what is sent from the offset on, in one push where the link takes all.
fn check_sent(rt: &impl Abort, alloc: Global, reply: &Reply, text: &[u8], from: usize) {
    assert!(rt; from <= text.len());
    for most in [1, 3, usize::MAX] {
        let (wrote, link) = sent(rt, alloc, reply, from, most, Stop::Never);
        assert_eq!(rt; wrote, Wrote::Done);
        assert!(rt; link.sent.as_slice() == &text[from..]);
        assert!(rt; most < usize::MAX || link.pushes <= 1);
    }
}

// Checks that the text waits where it has room up to its last byte, and else nothing of it.
fn check_waits(rt: &impl Abort, alloc: Global, reply: &Reply, text: &[u8]) -> Result<(), Fail> {
    assert!(rt; !text.is_empty() && text.len() <= WAITING_BYTES);
    let room = WAITING_BYTES - text.len();
    for (used, fits) in [
        (0, true),
        (room, true),
        (room + 1, false),
        (WAITING_BYTES - 1, false),
    ] {
        let filler = vec![in alloc; b'x'; used]?;
        let mut outbox = Outbox::new(alloc)?;
        assert!(rt; outbox.add(&filler) && outbox.put(reply) == fits);
        let end = if fits { text } else { b"" };
        assert!(rt; outbox.bytes().len() == used.saturating_add(end.len()));
        assert!(rt; outbox.bytes().starts_with(&filler) && outbox.bytes().ends_with(end));
    }
    Ok(())
}

#[test]
fn tells_up_to_where_elements_were_sent(rt: HostRuntime) -> Result<(), Fail> {
    let alloc = rt.alloc();
    let mut rows = Seq::new(alloc);
    add_row(&rt, alloc, &mut rows, Name::Number(3), b"\x33", b"c")?;
    add_row(&rt, alloc, &mut rows, Name::Field(b"f"), b"", b"dd")?;
    let reply = Reply::Rows {
        flags: 0,
        rows,
        tail: Tail::Deleted,
    };
    let text = b"VALUE 0 2\r\n3 0x33 1 c\r\nf 2 dd\r\nDELETED\r\n";
    for from in [0, 5, 20] {
        for place in 0..(text.len() - from) as u64 {
            check_stop(&rt, alloc, &reply, text, from, 1, Stop::Fails(place));
            check_stop(&rt, alloc, &reply, text, from, 1, Stop::Refuses(place));
            check_stop(&rt, alloc, &reply, text, from, 1, Stop::Waits(place));
        }
    }
    Ok(())
}

#[test]
fn gathers_elements_up_to_1024_bytes(rt: HostRuntime) -> Result<(), Fail> {
    let alloc = rt.alloc();
    // 12 or 13 bytes before the elements, 55 for each, and 5 behind them: the first push has 18 elements and the front of
    // the next, each further one 18 more.
    for (count, pushes) in [(18, 1), (19, 2), (36, 2), (37, 3), (100, 6)] {
        let value = filled(&rt, alloc, 50)?;
        let mut rows = Seq::new(alloc);
        for _ in 0..count {
            add_row(&rt, alloc, &mut rows, Name::Plain, b"", &value)?;
        }
        let reply = Reply::Rows {
            flags: 0,
            rows,
            tail: Tail::End,
        };
        let (wrote, link) = sent(&rt, alloc, &reply, 0, usize::MAX, Stop::Never);
        assert!(rt; wrote == Wrote::Done && link.pushes == pushes);
    }
    // A value of more goes out by itself.
    let value = vec![in alloc; b'v'; 32_768]?;
    let mut rows = Seq::new(alloc);
    add_row(&rt, alloc, &mut rows, Name::Field(b"f"), b"", &value)?;
    let reply = Reply::Rows {
        flags: 0,
        rows,
        tail: Tail::End,
    };
    let (wrote, link) = sent(&rt, alloc, &reply, 0, usize::MAX, Stop::Never);
    assert!(rt; wrote == Wrote::Done && link.pushes == 3);
    assert!(rt; link.sent.starts_with(b"VALUE 0 1\r\nf 32768 vvv"));
    assert!(rt; link.sent.ends_with(b"vvv\r\nEND\r\n"));
    Ok(())
}

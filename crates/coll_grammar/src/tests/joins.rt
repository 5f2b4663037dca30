//! Lines with their blocks, and the requests that they are, worked by hand.
ghost use Rattle.std.specs.Prelude.{◌≡◌, true};
ghost use Rattle.arc_core.specs.CollectionLines.{coll_need_of};
ghost use Rattle.arc_core.specs.Grammar.{Meets};

use super::{Made, Places, args_of, is_key, is_made, range_of};
use crate::{BlockFault, CollHead, join, read_head};
use Action::{Error, HeadTrim, TailTrim};
use Answer::{NoReply, Plain};
use Asked::{
    Create, ListDelete, ListGet, ListInsert, MapDelete, MapGet, MapInsert, MapUpdate, MapUpsert,
    SetDelete, SetExist, SetGet, SetInsert,
};
use Made::{Readable, Unreadable};
use Places::{At, Span};
use Take::{Delete, Drop, Keep};
use arc_core::{Act, Action, Answer, KeyWords, Kind, Need, Request, Take};
use std::alloc::{AllocError, Global};
use std::process::Abort;
use std::test::Fail;

// What a line and its block ask for.
#[derive(Clone, Copy)]
enum Asked {
    Create(Kind, &'static [u8], Made),
    ListInsert(&'static [u8], i32, &'static [u8], Option<Made>),
    ListDelete(&'static [u8], Places, bool),
    ListGet(&'static [u8], Places, Take),
    SetInsert(&'static [u8], &'static [u8], Option<Made>),
    SetDelete(&'static [u8], &'static [u8], bool),
    SetExist(&'static [u8], &'static [u8]),
    SetGet(&'static [u8], u32, Take),
    MapInsert(&'static [u8], &'static [u8], &'static [u8], Option<Made>),
    MapUpdate(&'static [u8], &'static [u8], &'static [u8]),
    MapUpsert(&'static [u8], &'static [u8], &'static [u8], Option<Made>),
    // With one field, or for all pairs.
    MapDelete(&'static [u8], Option<&'static [u8]>, bool),
    MapGet(&'static [u8], Option<&'static [u8]>, Take),
}

// Lines that make a collection or ask something of a list or a set, their blocks, and what they ask for.
const ON_LISTS_AND_SETS: [(&[u8], &[u8], Asked, Answer); 16] = [
    (
        b"lop create l 1 2 3 head_trim",
        b"",
        Create(Kind::List, b"l", Readable(1, 2, 3, HeadTrim)),
        Plain,
    ),
    (
        b"sop create s 4 -1 5 unreadable noreply",
        b"",
        Create(Kind::Set, b"s", Unreadable(4, -1, 5, Error)),
        NoReply,
    ),
    (
        b"mop create m 0 0 0 error",
        b"",
        Create(Kind::Map, b"m", Readable(0, 0, 0, Error)),
        Plain,
    ),
    (
        b"lop insert l -1 5",
        b" a\r\n ",
        ListInsert(b"l", -1, b" a\r\n ", None),
        Plain,
    ),
    (
        b"lop insert l 7 0 create 1 2 3 noreply",
        b"",
        ListInsert(b"l", 7, b"", Some(Readable(1, 2, 3, TailTrim))),
        NoReply,
    ),
    (
        b"lop delete l 2",
        b"",
        ListDelete(b"l", At(2), false),
        Plain,
    ),
    (
        b"lop delete l 0..-1 drop noreply",
        b"",
        ListDelete(b"l", Span(0, -1), true),
        NoReply,
    ),
    (b"lop get l 0", b"", ListGet(b"l", At(0), Keep), Plain),
    (
        b"lop get l -3..-2 drop",
        b"",
        ListGet(b"l", Span(-3, -2), Drop),
        Plain,
    ),
    (
        b"sop insert s 4",
        b"a  b",
        SetInsert(b"s", b"a  b", None),
        Plain,
    ),
    (
        b"sop insert s 1 create 1 2 3 error unreadable noreply",
        b"\x00",
        SetInsert(b"s", b"\x00", Some(Unreadable(1, 2, 3, Error))),
        NoReply,
    ),
    (
        b"sop delete s 2",
        b"ab",
        SetDelete(b"s", b"ab", false),
        Plain,
    ),
    (
        b"sop delete s 1 drop noreply",
        b"a",
        SetDelete(b"s", b"a", true),
        NoReply,
    ),
    (
        b"sop exist s 2",
        b"\x7f\t",
        SetExist(b"s", b"\x7f\t"),
        Plain,
    ),
    (b"sop get s 0", b"", SetGet(b"s", 0, Keep), Plain),
    (b"sop get s 9 delete", b"", SetGet(b"s", 9, Delete), Plain),
];

// Lines that ask something of a map, their blocks, and what they ask for.
const ON_MAPS: [(&[u8], &[u8], Asked, Answer); 12] = [
    (
        b"mop insert m f 3",
        b"abc",
        MapInsert(b"m", b"f", b"abc", None),
        Plain,
    ),
    (
        b"mop insert m 1 2 create 1 2 3 noreply",
        b"  ",
        MapInsert(b"m", b"1", b"  ", Some(Readable(1, 2, 3, Error))),
        NoReply,
    ),
    (
        b"mop update m f 1",
        b"f",
        MapUpdate(b"m", b"f", b"f"),
        Plain,
    ),
    (
        b"mop update m noreply 0 noreply",
        b"",
        MapUpdate(b"m", b"noreply", b""),
        NoReply,
    ),
    (
        b"mop upsert m f 2",
        b"ab",
        MapUpsert(b"m", b"f", b"ab", None),
        Plain,
    ),
    (
        b"mop upsert m f 2 create 0 0 0 unreadable noreply",
        b"ab",
        MapUpsert(b"m", b"f", b"ab", Some(Unreadable(0, 0, 0, Error))),
        NoReply,
    ),
    (
        b"mop delete m 4 1",
        b"abcd",
        MapDelete(b"m", Some(b"abcd"), false),
        Plain,
    ),
    (
        b"mop delete m 3 1 drop noreply",
        b" f ",
        MapDelete(b"m", Some(b"f"), true),
        NoReply,
    ),
    (
        b"mop delete m 0 0",
        b"",
        MapDelete(b"m", None, false),
        Plain,
    ),
    (
        b"mop get m 2 1",
        b"\xff!",
        MapGet(b"m", Some(b"\xff!"), Keep),
        Plain,
    ),
    (
        b"mop get m 1 1 delete",
        b"0",
        MapGet(b"m", Some(b"0"), Delete),
        Plain,
    ),
    (b"mop get m 0 0 drop", b"", MapGet(b"m", None, Drop), Plain),
];

// Lines with blocks, and the fields or keys that these are.
const WORDS: [(&[u8], &[u8], &[&[u8]]); 7] = [
    (b"mop delete m 8 3", b" b a  c ", &[b"b", b"a", b"c"]),
    (b"mop delete m 3 2 drop", b"f f", &[b"f", b"f"]),
    (b"mop get m 5 2", b"ab cd", &[b"ab", b"cd"]),
    (b"mop get m 5 3 delete", b"b a b", &[b"b", b"a", b"b"]),
    (b"mop get m 0 0", b"", &[]),
    (b"mget 8 2", b"abc defg", &[b"abc", b"defg"]),
    (b"mget 8 2", b"  a  a  ", &[b"a", b"a"]),
];

// Lines with blocks of the right length, whose words are not so many keys or fields as the line names.
const FAULTS: [(&[u8], &[u8]); 14] = [
    (b"mop get m 5 2", b"abcde"),
    (b"mop get m 5 2", b"a b c"),
    (b"mop get m 5 2", b"     "),
    (b"mop get m 5 1", b"ab cd"),
    (b"mop get m 5 2 delete", b"ab \x7fd"),
    (b"mop get m 3 1", b"a\tb"),
    (b"mop get m 4 1 drop", b"ab\r\n"),
    (b"mop delete m 5 2", b"abcde"),
    (b"mop delete m 5 2 drop noreply", b"a b c"),
    (b"mop delete m 3 2 noreply", b"a \x00"),
    (b"mop delete m 1 1", b" "),
    (b"mget 5 2", b"abcde"),
    (b"mget 5 2", b"a b c"),
    (b"mget 5 2", b"ab \x7fd"),
];

// Whether the block is one that the head may have.
fn fits(head: &CollHead<'_>, block: &[u8]) -> bool
    ensures { result ≡ true → Meets (coll_need_of head.now) block.now }
{
    match head.need() {
        Need::Nothing => block.is_empty(),
        Need::Block { len, limit } => block.len() == len as usize && len <= limit,
    }
}

// What a line and its block are.
fn joined<'a>(line: &'a [u8], block: &'a [u8]) -> Result<Result<Request<'a>, BlockFault>, Fail> {
    let head = read_head(line).ok().ok_or("no head")?;
    if head.is_quit() || !fits(&head, block) {
        return Err(Fail::from("no block of this head"));
    }
    Ok(join(head, block))
}

fn are_words(keys: &KeyWords<'_>, list: &[&[u8]]) -> bool {
    keys.count() as usize == list.len()
        && keys
            .iter()
            .zip(list)
            .all(|(key, word)| key.bytes() == *word)
}

fn is_on_list(act: &Act<'_>, asked: Asked) -> bool {
    match (act, asked) {
        (Act::Create { kind, key, args }, Create(k, b, a)) => {
            *kind == k && is_key(key, b) && *args == args_of(a)
        }
        (
            Act::ListInsert {
                key,
                index,
                value,
                create,
            },
            ListInsert(k, i, v, c),
        ) => is_key(key, k) && *index == i && *value == v && is_made(create, c),
        (
            Act::ListDelete {
                key,
                range,
                drop_empty,
            },
            ListDelete(k, r, d),
        ) => is_key(key, k) && *range == range_of(r) && *drop_empty == d,
        (Act::ListGet { key, range, take }, ListGet(k, r, t)) => {
            is_key(key, k) && *range == range_of(r) && *take == t
        }
        _ => false,
    }
}

fn is_on_set(act: &Act<'_>, asked: Asked) -> bool {
    match (act, asked) {
        (Act::SetInsert { key, value, create }, SetInsert(k, v, c)) => {
            is_key(key, k) && *value == v && is_made(create, c)
        }
        (
            Act::SetDelete {
                key,
                value,
                drop_empty,
            },
            SetDelete(k, v, d),
        ) => is_key(key, k) && *value == v && *drop_empty == d,
        (Act::SetExist { key, value }, SetExist(k, v)) => is_key(key, k) && *value == v,
        (Act::SetGet { key, count, take }, SetGet(k, c, t)) => {
            is_key(key, k) && *count == c && *take == t
        }
        _ => false,
    }
}

fn is_on_pair(act: &Act<'_>, asked: Asked) -> bool {
    match (act, asked) {
        (
            Act::MapInsert {
                key,
                field,
                value,
                create,
            },
            MapInsert(k, f, v, c),
        )
        | (
            Act::MapUpsert {
                key,
                field,
                value,
                create,
            },
            MapUpsert(k, f, v, c),
        ) => is_key(key, k) && is_key(field, f) && *value == v && is_made(create, c),
        (Act::MapUpdate { key, field, value }, MapUpdate(k, f, v)) => {
            is_key(key, k) && is_key(field, f) && *value == v
        }
        _ => false,
    }
}

// Whether it is the one field, or none.
fn is_field(fields: &KeyWords<'_>, field: Option<&[u8]>) -> bool {
    match field {
        Some(field) => are_words(fields, &[field]),
        None => are_words(fields, &[]),
    }
}

fn is_on_fields(act: &Act<'_>, asked: Asked) -> bool {
    match (act, asked) {
        (
            Act::MapDelete {
                key,
                fields,
                drop_empty,
            },
            MapDelete(k, f, d),
        ) => is_key(key, k) && is_field(fields, f) && *drop_empty == d,
        (Act::MapGet { key, fields, take }, MapGet(k, f, t)) => {
            is_key(key, k) && is_field(fields, f) && *take == t
        }
        _ => false,
    }
}

fn is_request(line: &[u8], block: &[u8], asked: Asked, sent: Answer) -> Result<bool, Fail> {
    let Ok(Request { act, answer }) = joined(line, block)? else {
        return Ok(false);
    };
    let is_asked = is_on_list(&act, asked)
        || is_on_set(&act, asked)
        || is_on_pair(&act, asked)
        || is_on_fields(&act, asked);
    Ok(is_asked && answer == sent)
}

#[test]
fn joins_list_and_set_lines(rt: HostRuntime) -> Result<(), Fail> {
    for (line, block, asked, answer) in &ON_LISTS_AND_SETS {
        assert!(rt; is_request(line, block, *asked, *answer)?, "{line:?}");
    }
    Ok(())
}

#[test]
fn joins_map_lines(rt: HostRuntime) -> Result<(), Fail> {
    for (line, block, asked, answer) in &ON_MAPS {
        assert!(rt; is_request(line, block, *asked, *answer)?, "{line:?}");
    }
    Ok(())
}

fn has_words(line: &[u8], block: &[u8], list: &[&[u8]]) -> Result<bool, Fail> {
    let Ok(request) = joined(line, block)? else {
        return Ok(false);
    };
    Ok(match request.act {
        Act::MapDelete { fields, .. } | Act::MapGet { fields, .. } => are_words(&fields, list),
        Act::Get { keys, unique } => are_words(&keys, list) && !unique,
        _ => false,
    })
}

#[test]
fn reads_blocks_of_words(rt: HostRuntime) -> Result<(), Fail> {
    for (line, block, list) in &WORDS {
        assert!(rt; has_words(line, block, list)?, "{line:?} {block:?}");
    }
    Ok(())
}

#[test]
fn tells_blocks_that_are_no_fields(rt: HostRuntime) -> Result<(), Fail> {
    for (line, block) in &FAULTS {
        assert!(rt; joined(line, block)?.is_err(), "{line:?} {block:?}");
    }
    Ok(())
}

// A word of so many bytes `f`.
fn word_of(alloc: Global, len: usize) -> Result<Vec<u8>, AllocError> {
    let mut word = Vec::new(alloc);
    for _ in 0..len {
        word.push(b'f')?;
    }
    Ok(word)
}

#[test]
fn joins_long_fields(rt: HostRuntime) -> Result<(), Fail> {
    let field = word_of(rt.alloc(), 250)?;
    let key = word_of(rt.alloc(), 251)?;
    assert!(rt; joined(b"mop get m 250 1", &field)?.is_ok());
    assert!(rt; joined(b"mop delete m 250 1", &field)?.is_ok());
    assert!(rt; joined(b"mop get m 251 1", &key)?.is_err());
    assert!(rt; joined(b"mop delete m 251 1 drop", &key)?.is_err());
    assert!(rt; joined(b"mget 251 1", &key)?.is_ok());
    Ok(())
}

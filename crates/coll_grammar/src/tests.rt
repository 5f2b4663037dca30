//! Lines and their answers, worked by hand from the grammar.

mod joins;

use crate::{AllHeads, CollCommand, CollHead, LineFault, read_head};
use Action::{Error, HeadTrim, TailTrim};
use Answer::{NoReply, Pipe, Plain};
use LineFault::{BadFormat, Unknown};
use Made::{Readable, Unreadable};
use Places::{At, Span};
use Spelled::{
    Create, ListDelete, ListGet, ListInsert, MapDelete, MapGet, MapInsert, MapUpdate, MapUpsert,
    SetDelete, SetExist, SetGet, SetInsert,
};
use Take::{Delete, Drop, Keep};
use arc_core::{Action, Answer, Command, CreateArgs, Heads, IndexRange, KeyRef, Kind, Need, Take};
use std::alloc::{AllocError, Global};
use std::process::Abort;
use std::test::Fail;

// What a line spells.
#[derive(Clone, Copy)]
enum Spelled {
    Create(Kind, &'static [u8], Made),
    ListInsert(&'static [u8], i32, u32, Option<Made>),
    ListDelete(&'static [u8], Places, bool),
    ListGet(&'static [u8], Places, Take),
    SetInsert(&'static [u8], u32, Option<Made>),
    SetDelete(&'static [u8], u32, bool),
    SetExist(&'static [u8], u32),
    SetGet(&'static [u8], u32, Take),
    MapInsert(&'static [u8], &'static [u8], u32, Option<Made>),
    MapUpdate(&'static [u8], &'static [u8], u32),
    MapUpsert(&'static [u8], &'static [u8], u32, Option<Made>),
    MapDelete(&'static [u8], u32, u32, bool),
    MapGet(&'static [u8], u32, u32, Take),
}

// The attributes that a line names, where it does not say `unreadable` and where it does.
#[derive(Clone, Copy)]
enum Made {
    Readable(u32, i64, u32, Action),
    Unreadable(u32, i64, u32, Action),
}

// One index, or two.
#[derive(Clone, Copy)]
enum Places {
    At(i32),
    Span(i32, i32),
}

fn args_of(made: Made) -> CreateArgs {
    let (flags, exptime, maxcount, action, readable) = match made {
        Readable(flags, exptime, maxcount, action) => (flags, exptime, maxcount, action, true),
        Unreadable(flags, exptime, maxcount, action) => (flags, exptime, maxcount, action, false),
    };
    CreateArgs {
        flags,
        exptime,
        maxcount,
        action,
        readable,
    }
}

fn range_of(places: Places) -> IndexRange {
    let (first, last, single) = match places {
        At(index) => (index, index, true),
        Span(first, last) => (first, last, false),
    };
    IndexRange {
        first,
        last,
        single,
    }
}

// Commands on lists.
const LISTS: [(&[u8], Spelled, Answer); 26] = [
    (
        b"lop create l 0 0 0",
        Create(Kind::List, b"l", Readable(0, 0, 0, TailTrim)),
        Plain,
    ),
    (
        b"lop create l 4294967295 4294967295 4294967295 error unreadable noreply",
        Create(
            Kind::List,
            b"l",
            Unreadable(4_294_967_295, 4_294_967_295, 4_294_967_295, Error),
        ),
        NoReply,
    ),
    (
        b"lop create l 7 -2147483648 05 head_trim",
        Create(Kind::List, b"l", Readable(7, -2_147_483_648, 5, HeadTrim)),
        Plain,
    ),
    (
        b"lop create l 7 -1 5 tail_trim noreply",
        Create(Kind::List, b"l", Readable(7, -1, 5, TailTrim)),
        NoReply,
    ),
    (
        b"lop create l 7 10 5 unreadable",
        Create(Kind::List, b"l", Unreadable(7, 10, 5, TailTrim)),
        Plain,
    ),
    (
        b"lop create noreply 1 2 3 noreply",
        Create(Kind::List, b"noreply", Readable(1, 2, 3, TailTrim)),
        NoReply,
    ),
    (b"lop insert l 0 3", ListInsert(b"l", 0, 3, None), Plain),
    (
        b"lop insert pipe 0 3 create 0 0 0 pipe",
        ListInsert(b"pipe", 0, 3, Some(Readable(0, 0, 0, TailTrim))),
        Pipe,
    ),
    (
        b"lop delete l 0 drop pipe ",
        ListDelete(b"l", At(0), true),
        Pipe,
    ),
    (
        b" lop  insert l -1  0 noreply ",
        ListInsert(b"l", -1, 0, None),
        NoReply,
    ),
    (
        b"lop insert l 2147483647 2147483647 create 0 0 0",
        ListInsert(
            b"l",
            2_147_483_647,
            2_147_483_647,
            Some(Readable(0, 0, 0, TailTrim)),
        ),
        Plain,
    ),
    (
        b"lop insert l -2147483648 32768 create 1 2 3 error unreadable noreply",
        ListInsert(
            b"l",
            -2_147_483_648,
            32_768,
            Some(Unreadable(1, 2, 3, Error)),
        ),
        NoReply,
    ),
    (
        b"lop insert create -0 007 create 1 2 3 head_trim",
        ListInsert(b"create", 0, 7, Some(Readable(1, 2, 3, HeadTrim))),
        Plain,
    ),
    (
        b"lop insert l 00000000000000000005 3 create 1 2 3 unreadable noreply",
        ListInsert(b"l", 5, 3, Some(Unreadable(1, 2, 3, TailTrim))),
        NoReply,
    ),
    (b"lop delete l 5", ListDelete(b"l", At(5), false), Plain),
    (b"lop delete l 5 drop", ListDelete(b"l", At(5), true), Plain),
    (
        b"lop delete l -1..0 noreply",
        ListDelete(b"l", Span(-1, 0), false),
        NoReply,
    ),
    (
        b"lop delete drop 0..-1 drop noreply",
        ListDelete(b"drop", Span(0, -1), true),
        NoReply,
    ),
    (b"lop get l 0", ListGet(b"l", At(0), Keep), Plain),
    (b"lop get l -1", ListGet(b"l", At(-1), Keep), Plain),
    (
        b"lop get l 0..-1 drop",
        ListGet(b"l", Span(0, -1), Drop),
        Plain,
    ),
    (
        b"lop get l -2147483648..2147483647 delete",
        ListGet(b"l", Span(-2_147_483_648, 2_147_483_647), Delete),
        Plain,
    ),
    (
        b"lop get l 2147483647 drop",
        ListGet(b"l", At(2_147_483_647), Drop),
        Plain,
    ),
    (
        b"lop get l -2147483648",
        ListGet(b"l", At(-2_147_483_648), Keep),
        Plain,
    ),
    (b"lop get l -0..007", ListGet(b"l", Span(0, 7), Keep), Plain),
    (b"lop get l 5..5", ListGet(b"l", Span(5, 5), Keep), Plain),
];

// Commands on sets.
const SETS: [(&[u8], Spelled, Answer); 20] = [
    (
        b"sop create s 0 0 0",
        Create(Kind::Set, b"s", Readable(0, 0, 0, Error)),
        Plain,
    ),
    (
        b"sop create s 1 -1 2 error unreadable noreply",
        Create(Kind::Set, b"s", Unreadable(1, -1, 2, Error)),
        NoReply,
    ),
    (b"sop insert s 3", SetInsert(b"s", 3, None), Plain),
    (
        b"sop insert s 2147483647 noreply",
        SetInsert(b"s", 2_147_483_647, None),
        NoReply,
    ),
    (
        b"sop insert s 3 create 1 2 3",
        SetInsert(b"s", 3, Some(Readable(1, 2, 3, Error))),
        Plain,
    ),
    (
        b"sop insert s 3 create 1 2 3 error noreply",
        SetInsert(b"s", 3, Some(Readable(1, 2, 3, Error))),
        NoReply,
    ),
    (
        b"sop insert s 3 create 1 2 3 unreadable",
        SetInsert(b"s", 3, Some(Unreadable(1, 2, 3, Error))),
        Plain,
    ),
    (b"sop delete s 3", SetDelete(b"s", 3, false), Plain),
    (b"sop delete s 3 drop", SetDelete(b"s", 3, true), Plain),
    (
        b"sop delete s 3 noreply",
        SetDelete(b"s", 3, false),
        NoReply,
    ),
    (
        b"sop delete s 3 drop noreply",
        SetDelete(b"s", 3, true),
        NoReply,
    ),
    (b"sop exist s 3", SetExist(b"s", 3), Plain),
    (b"sop exist noreply 0", SetExist(b"noreply", 0), Plain),
    (b"sop get s 0", SetGet(b"s", 0, Keep), Plain),
    (
        b"sop get s 4294967295 delete",
        SetGet(b"s", 4_294_967_295, Delete),
        Plain,
    ),
    (b"sop insert s 3 pipe", SetInsert(b"s", 3, None), Pipe),
    (b"sop delete s 3 pipe", SetDelete(b"s", 3, false), Pipe),
    (b"sop exist s 3 pipe", SetExist(b"s", 3), Pipe),
    (b"sop get s 1 drop", SetGet(b"s", 1, Drop), Plain),
    (b"sop get delete 00", SetGet(b"delete", 0, Keep), Plain),
];

// Commands on maps.
const MAPS: [(&[u8], Spelled, Answer); 23] = [
    (
        b"mop create m 0 0 0",
        Create(Kind::Map, b"m", Readable(0, 0, 0, Error)),
        Plain,
    ),
    (
        b"mop create m 1 2 3 error unreadable noreply",
        Create(Kind::Map, b"m", Unreadable(1, 2, 3, Error)),
        NoReply,
    ),
    (b"mop insert m f 3", MapInsert(b"m", b"f", 3, None), Plain),
    (
        b"mop insert m f 3 noreply",
        MapInsert(b"m", b"f", 3, None),
        NoReply,
    ),
    (
        b"mop insert m create 3 create 0 0 0 error",
        MapInsert(b"m", b"create", 3, Some(Readable(0, 0, 0, Error))),
        Plain,
    ),
    (
        b"mop insert m \xff! 3 create 1 -1 4000 unreadable noreply",
        MapInsert(b"m", b"\xff!", 3, Some(Unreadable(1, -1, 4_000, Error))),
        NoReply,
    ),
    (
        b"mop update m f 2147483647",
        MapUpdate(b"m", b"f", 2_147_483_647),
        Plain,
    ),
    (
        b"mop update m noreply 3 noreply",
        MapUpdate(b"m", b"noreply", 3),
        NoReply,
    ),
    (b"mop upsert m f 3", MapUpsert(b"m", b"f", 3, None), Plain),
    (
        b"mop upsert m 0 0 create 1 2 3 noreply",
        MapUpsert(b"m", b"0", 0, Some(Readable(1, 2, 3, Error))),
        NoReply,
    ),
    (
        b"mop insert m f 3 pipe",
        MapInsert(b"m", b"f", 3, None),
        Pipe,
    ),
    (b"mop update m f 3 pipe", MapUpdate(b"m", b"f", 3), Pipe),
    (
        b"mop upsert m f 3 pipe",
        MapUpsert(b"m", b"f", 3, None),
        Pipe,
    ),
    (b"mop delete m 0 0 pipe", MapDelete(b"m", 0, 0, false), Pipe),
    (b"mop delete m 3 1", MapDelete(b"m", 3, 1, false), Plain),
    (b"mop delete m 0 0", MapDelete(b"m", 0, 0, false), Plain),
    (
        b"mop delete m 00 000 drop noreply",
        MapDelete(b"m", 0, 0, true),
        NoReply,
    ),
    (
        b"mop delete m 2147483647 50000 noreply",
        MapDelete(b"m", 2_147_483_647, 50_000, false),
        NoReply,
    ),
    (b"mop get m 0 0", MapGet(b"m", 0, 0, Keep), Plain),
    (b"mop get m 0 0 drop", MapGet(b"m", 0, 0, Drop), Plain),
    (b"mop get m 05 002", MapGet(b"m", 5, 2, Keep), Plain),
    (b"mop get m 5 2 delete", MapGet(b"m", 5, 2, Delete), Plain),
    (
        b"mop get m 2147483647 50000",
        MapGet(b"m", 2_147_483_647, 50_000, Keep),
        Plain,
    ),
];

// Lines without a command.
const UNKNOWN: [&[u8]; 18] = [
    b"",
    b"   ",
    b"lop",
    b"sop ",
    b"mop",
    b"lop upsert l 0 3",
    b"lop exist l 1",
    b"sop update s 1",
    b"mop exist m 1",
    b"LOP get l 0",
    b"lop Get l 0",
    b"lop gets l 0",
    b"lop inserts l 0 3",
    b"lopget l 0",
    b"lop\tget l 0",
    b"insert lop",
    b"lop pipe",
    b"sets a 0 0 1",
];

// Commands on lists that their words do not spell.
const BAD_LISTS: [&[u8]; 58] = [
    b"lop create",
    b"lop create l 0 0",
    b"lop create l 0 0 noreply",
    b"lop create l 4294967296 0 0",
    b"lop create l 0 4294967296 0",
    b"lop create l 0 -2147483649 0",
    b"lop create l 0 0 4294967296",
    b"lop create l 0 0 -1",
    b"lop create l 0 0 0 smallest_trim",
    b"lop create l 0 0 0 ERROR",
    b"lop create l 0 0 0 error error",
    b"lop create l 0 0 0 unreadable error",
    b"lop create l 0 0 0 noreply unreadable",
    b"lop create l 0 0 0 noreply noreply",
    b"lop create l 0 0 0 pipe",
    b"lop create l\x7f 0 0 0",
    b"lop insert l 0",
    b"lop insert l 0 noreply",
    b"lop insert l 2147483648 3",
    b"lop insert l -2147483649 3",
    b"lop insert l - 3",
    b"lop insert l --1 3",
    b"lop insert l +1 3",
    b"lop insert l 0..1 3",
    b"lop insert l 000000000000000000005 3",
    b"lop insert l 0 2147483648",
    b"lop insert l 0 -1",
    b"lop insert l 0 3 create",
    b"lop insert l 0 3 create 0 0",
    b"lop insert l 0 3 create 0 0 noreply",
    b"lop insert l 0 3 create 4294967296 0 0",
    b"lop insert l 0 3 create 0 0 0 largest_trim",
    b"lop insert l 0 3 noreply create 0 0 0",
    b"lop insert l 0 3 error",
    b"lop insert l 0 3 unreadable",
    b"lop insert l 0 3 noreply pipe",
    b"lop insert l 0 3 7",
    b"lop delete l",
    b"lop delete l 0 delete",
    b"lop delete l 0 noreply drop",
    b"lop delete l 0 drop drop",
    b"lop delete l 0 1",
    b"lop get l",
    b"lop get l 1.2",
    b"lop get l 1...2",
    b"lop get l 1..",
    b"lop get l ..1",
    b"lop get l ..",
    b"lop get l 1.",
    b"lop get l 1..2..3",
    b"lop get l -..1",
    b"lop get l 1 ..2",
    b"lop get l 0..2147483648",
    b"lop get l -2147483649..0",
    b"lop get l 0 noreply",
    b"lop get l 0 delete drop",
    b"lop get l 0 Drop",
    b"lop get l 0 pipe",
];

// Commands on sets that their words do not spell.
const BAD_SETS: [&[u8]; 22] = [
    b"sop create s 0 0",
    b"sop create s 0 0 0 head_trim",
    b"sop create s 0 0 0 tail_trim",
    b"sop insert s",
    b"sop insert s 0 3",
    b"sop insert s 2147483648",
    b"sop insert s 3 create",
    b"sop insert s 3 create 0 0 4294967296",
    b"sop insert s 3 create 0 0 0 tail_trim",
    b"sop insert s 3 create 0 0 0 smallest_trim",
    b"sop delete s",
    b"sop delete s 3 delete",
    b"sop delete s 3 noreply drop",
    b"sop exist s",
    b"sop exist s 3 noreply",
    b"sop exist s 3 pipe pipe",
    b"sop exist s 2147483648",
    b"sop get s",
    b"sop get s -1",
    b"sop get s 4294967296",
    b"sop get s 0 noreply",
    b"sop get s 0 drop drop",
];

// Commands on maps that their words do not spell.
const BAD_MAPS: [&[u8]; 24] = [
    b"mop create m 0 0 0 head_trim",
    b"mop insert m f",
    b"mop insert m 3",
    b"mop insert m f\x7f 3",
    b"mop insert m f 2147483648",
    b"mop insert m f 3 create 0 0 0 tail_trim",
    b"mop insert m f 3 create 0 -2147483649 0",
    b"mop update m f 3 create 0 0 0",
    b"mop update m f 3 drop",
    b"mop upsert m f 3 create 0 0",
    b"mop upsert m f 3 noreply noreply",
    b"mop delete m 5",
    b"mop delete m 0 5",
    b"mop delete m 5 0",
    b"mop delete m 5 50001",
    b"mop delete m 2147483648 1",
    b"mop delete m 5 2 delete",
    b"mop delete m 5 2 f",
    b"mop get m 0 5",
    b"mop get m 5 0",
    b"mop get m 5 50001",
    b"mop get m 2147483648 1",
    b"mop get m 5 2 noreply",
    b"mop get m 5 2 drop delete",
];

fn is_key(key: &KeyRef<'_>, bytes: &[u8]) -> bool {
    key.bytes() == bytes
}

fn is_made(create: &Option<CreateArgs>, made: Option<Made>) -> bool {
    match (create, made) {
        (Some(args), Some(made)) => *args == args_of(made),
        (None, None) => true,
        _ => false,
    }
}

fn is_on_list(command: &CollCommand<'_>, spelled: Spelled) -> bool {
    match (command, spelled) {
        (CollCommand::Create { kind, key, args }, Create(k, b, a)) => {
            *kind == k && is_key(key, b) && *args == args_of(a)
        }
        (
            CollCommand::ListInsert {
                key,
                index,
                len,
                create,
            },
            ListInsert(k, i, l, c),
        ) => is_key(key, k) && *index == i && *len == l && is_made(create, c),
        (
            CollCommand::ListDelete {
                key,
                range,
                drop_empty,
            },
            ListDelete(k, r, d),
        ) => is_key(key, k) && *range == range_of(r) && *drop_empty == d,
        (CollCommand::ListGet { key, range, take }, ListGet(k, r, t)) => {
            is_key(key, k) && *range == range_of(r) && *take == t
        }
        _ => false,
    }
}

fn is_on_set(command: &CollCommand<'_>, spelled: Spelled) -> bool {
    match (command, spelled) {
        (CollCommand::SetInsert { key, len, create }, SetInsert(k, l, c)) => {
            is_key(key, k) && *len == l && is_made(create, c)
        }
        (
            CollCommand::SetDelete {
                key,
                len,
                drop_empty,
            },
            SetDelete(k, l, d),
        ) => is_key(key, k) && *len == l && *drop_empty == d,
        (CollCommand::SetExist { key, len }, SetExist(k, l)) => is_key(key, k) && *len == l,
        (CollCommand::SetGet { key, count, take }, SetGet(k, c, t)) => {
            is_key(key, k) && *count == c && *take == t
        }
        _ => false,
    }
}

fn is_on_field(command: &CollCommand<'_>, spelled: Spelled) -> bool {
    match (command, spelled) {
        (
            CollCommand::MapInsert {
                key,
                field,
                len,
                create,
            },
            MapInsert(k, f, l, c),
        )
        | (
            CollCommand::MapUpsert {
                key,
                field,
                len,
                create,
            },
            MapUpsert(k, f, l, c),
        ) => is_key(key, k) && is_key(field, f) && *len == l && is_made(create, c),
        (CollCommand::MapUpdate { key, field, len }, MapUpdate(k, f, l)) => {
            is_key(key, k) && is_key(field, f) && *len == l
        }
        _ => false,
    }
}

fn is_on_fields(command: &CollCommand<'_>, spelled: Spelled) -> bool {
    match (command, spelled) {
        (
            CollCommand::MapDelete {
                key,
                len,
                number,
                drop_empty,
            },
            MapDelete(k, l, n, d),
        ) => is_key(key, k) && *len == l && *number == n && *drop_empty == d,
        (
            CollCommand::MapGet {
                key,
                len,
                number,
                take,
            },
            MapGet(k, l, n, t),
        ) => is_key(key, k) && *len == l && *number == n && *take == t,
        _ => false,
    }
}

fn is_command(command: &CollCommand<'_>, spelled: Spelled) -> bool {
    is_on_list(command, spelled)
        || is_on_set(command, spelled)
        || is_on_field(command, spelled)
        || is_on_fields(command, spelled)
}

fn is_head(line: &[u8], spelled: Spelled, sent: Answer) -> bool {
    match read_head(line) {
        Ok(CollHead::Collection { command, answer }) => {
            is_command(&command, spelled) && answer == sent
        }
        _ => false,
    }
}

fn is_fault(line: &[u8], fault: LineFault) -> bool {
    match read_head(line) {
        Ok(_) => false,
        Err(told) => told == fault,
    }
}

#[test]
fn reads_list_lines(rt: HostRuntime) -> Result<(), Fail> {
    for (line, spelled, answer) in &LISTS {
        assert!(rt; is_head(line, *spelled, *answer), "{line:?}");
    }
    Ok(())
}

#[test]
fn reads_set_lines(rt: HostRuntime) -> Result<(), Fail> {
    for (line, spelled, answer) in &SETS {
        assert!(rt; is_head(line, *spelled, *answer), "{line:?}");
    }
    Ok(())
}

#[test]
fn reads_map_lines(rt: HostRuntime) -> Result<(), Fail> {
    for (line, spelled, answer) in &MAPS {
        assert!(rt; is_head(line, *spelled, *answer), "{line:?}");
    }
    Ok(())
}

#[test]
fn tells_faults(rt: HostRuntime) -> Result<(), Fail> {
    for line in &UNKNOWN {
        assert!(rt; is_fault(line, Unknown), "{line:?}");
    }
    for line in &BAD_LISTS {
        assert!(rt; is_fault(line, BadFormat), "{line:?}");
    }
    for line in &BAD_SETS {
        assert!(rt; is_fault(line, BadFormat), "{line:?}");
    }
    for line in &BAD_MAPS {
        assert!(rt; is_fault(line, BadFormat), "{line:?}");
    }
    Ok(())
}

fn is_delete(line: &[u8], bytes: &[u8], sent: Answer) -> bool {
    match read_head(line) {
        Ok(CollHead::KeyValue(head)) => match &head.command {
            Command::Delete { key } => is_key(key, bytes) && head.answer == sent,
            _ => false,
        },
        _ => false,
    }
}

#[test]
fn reads_key_value_lines(rt: HostRuntime) -> Result<(), Fail> {
    assert!(rt; is_delete(b"delete lop", b"lop", Plain));
    assert!(rt; is_delete(b" delete a 0  noreply", b"a", NoReply));
    assert!(rt; is_fault(b"delete lop insert l 0 3", BadFormat));
    assert!(rt; is_fault(b"set a", BadFormat));
    assert!(rt; is_fault(b"get", BadFormat));
    Ok(())
}

// `mop update` of a field of so many bytes `f`.
fn update_of(alloc: Global, field: usize) -> Result<Vec<u8>, AllocError> {
    let mut line = Vec::from_slice(alloc, b"mop update m ")?;
    for _ in 0..field {
        line.push(b'f')?;
    }
    line.extend_from_slice(b" 3")?;
    Ok(line)
}

#[test]
fn reads_long_fields(rt: HostRuntime) -> Result<(), Fail> {
    let alloc = rt.alloc();
    assert!(rt; read_head(&update_of(alloc, 250)?).is_ok());
    assert!(rt; is_fault(&update_of(alloc, 251)?, BadFormat));
    Ok(())
}

// Lines, and the length of the block that they ask for with its limit.
const NEEDS: [(&[u8], Option<(u32, u32)>); 20] = [
    (b"lop insert l 0 32769", Some((32_769, 32_768))),
    (b"sop insert s 0", Some((0, 32_768))),
    (b"sop delete s 7 drop", Some((7, 32_768))),
    (b"sop exist s 2147483647", Some((2_147_483_647, 32_768))),
    (b"mop insert m f 5 noreply", Some((5, 32_768))),
    (b"mop update m f 5", Some((5, 32_768))),
    (b"mop upsert m f 32768", Some((32_768, 32_768))),
    (b"mop delete m 5 2", Some((5, 1_048_576))),
    (b"mop get m 1048577 2 drop", Some((1_048_577, 1_048_576))),
    (b"mop delete m 00 0", None),
    (b"mop get m 0 0", None),
    (b"lop create l 0 0 0", None),
    (b"lop delete l 0", None),
    (b"lop get l 0", None),
    (b"sop get s 5", None),
    (b"set a 0 0 5", Some((5, 1_048_576))),
    (b"get a", None),
    (b"lop insert l 0 5 pipe", Some((5, 32_768))),
    (b"mop get m 5 0", None),
    (b"lop", None),
];

fn need_of(block: Option<(u32, u32)>) -> Need {
    match block {
        Some((len, limit)) => Need::Block { len, limit },
        None => Need::Nothing,
    }
}

#[test]
fn tells_needs(rt: HostRuntime) -> Result<(), Fail> {
    for (line, block) in &NEEDS {
        assert_eq!(rt; AllHeads.need(line), need_of(*block), "{line:?}");
    }
    Ok(())
}

#[test]
fn tells_marks_silence_and_the_end(rt: HostRuntime) -> Result<(), Fail> {
    let quit = read_head(b"quit").ok().ok_or("no head")?;
    assert!(rt; quit.is_quit() && !quit.is_silent());
    let insert = read_head(b"lop insert l 0 3 noreply")
        .ok()
        .ok_or("no head")?;
    assert!(rt; !insert.is_quit() && insert.is_silent());
    let exist = read_head(b"sop exist noreply 1").ok().ok_or("no head")?;
    assert!(rt; !exist.is_silent() && !exist.is_marked());
    let piped = read_head(b"sop exist s 1 pipe").ok().ok_or("no head")?;
    assert!(rt; !piped.is_silent() && piped.is_marked());
    assert!(rt; !quit.is_marked() && !insert.is_marked());
    Ok(())
}

//! Lines and their answers, worked by hand from the grammar.

use crate::{BlockFault, Command, Head, LineFault, read_line};
use Answer::{NoReply, Plain};
use LineFault::{BadFormat, Unknown};
use Spelled::{Count, Delete, FlushAll, Get, GetBlock, Quit, Store, Touch, Version};
use StoreVerb::{Add, Append, Cas, Prepend, Replace, Set};
use arc_core::{Act, Answer, KeyRef, KeyWords, Need, StoreVerb};
use std::alloc::{AllocError, Global};
use std::process::Abort;
use std::test::Fail;

// What a line spells.
#[derive(Clone, Copy)]
enum Spelled {
    Store(StoreVerb, &'static [u8], u32, i64, u32),
    Get(&'static [&'static [u8]], bool),
    GetBlock(u32, u32),
    Count(bool, &'static [u8], u64, Option<(u32, i64, u64)>),
    Delete(&'static [u8]),
    Touch(&'static [u8], i64),
    FlushAll,
    Version,
    Quit,
}

// Storing commands.
const STORES: [(&[u8], Spelled, Answer); 23] = [
    (b"set a 5 0 3", Store(Set, b"a", 5, 0, 3), Plain),
    (b"  set  a 05 -0 003 ", Store(Set, b"a", 5, 0, 3), Plain),
    (b"set set 0 0 1", Store(Set, b"set", 0, 0, 1), Plain),
    (
        b"set noreply 0 0 1 noreply",
        Store(Set, b"noreply", 0, 0, 1),
        NoReply,
    ),
    (
        b"set a 4294967295 00 2147483647",
        Store(Set, b"a", 4_294_967_295, 0, 2_147_483_647),
        Plain,
    ),
    (
        b"set \x80! 00000000004294967295 0 0",
        Store(Set, b"\x80!", 4_294_967_295, 0, 0),
        Plain,
    ),
    (b"set a 0 10 1", Store(Set, b"a", 0, 10, 1), Plain),
    (b"set a 0 -1 1", Store(Set, b"a", 0, -1, 1), Plain),
    (b"set a 0 -01 1", Store(Set, b"a", 0, -1, 1), Plain),
    (
        b"set a 0 -2147483648 1",
        Store(Set, b"a", 0, -2_147_483_648, 1),
        Plain,
    ),
    (
        b"set a 0 2147483648 1",
        Store(Set, b"a", 0, 2_147_483_648, 1),
        Plain,
    ),
    (
        b"set a 0 4294967295 1",
        Store(Set, b"a", 0, 4_294_967_295, 1),
        Plain,
    ),
    (b"set a 0 0 1 noreply", Store(Set, b"a", 0, 0, 1), NoReply),
    (b"add a 1 2 3", Store(Add, b"a", 1, 2, 3), Plain),
    (b"add a 1 2 3 noreply", Store(Add, b"a", 1, 2, 3), NoReply),
    (b"replace a 1 2 3", Store(Replace, b"a", 1, 2, 3), Plain),
    (
        b"replace a 1 2 3 noreply",
        Store(Replace, b"a", 1, 2, 3),
        NoReply,
    ),
    (b"append a 1 2 3", Store(Append, b"a", 1, 2, 3), Plain),
    (
        b"append a 1 2 3  noreply ",
        Store(Append, b"a", 1, 2, 3),
        NoReply,
    ),
    (b"prepend a 1 2 3", Store(Prepend, b"a", 1, 2, 3), Plain),
    (
        b"prepend a 1 2 3 noreply",
        Store(Prepend, b"a", 1, 2, 3),
        NoReply,
    ),
    (b"cas a 1 2 3 0", Store(Cas(0), b"a", 1, 2, 3), Plain),
    (
        b"cas a 1 -2 3 18446744073709551615 noreply",
        Store(Cas(18_446_744_073_709_551_615), b"a", 1, -2, 3),
        NoReply,
    ),
];

// Retrievals.
const GETS: [(&[u8], Spelled, Answer); 8] = [
    (b"get a", Get(&[b"a"], false), Plain),
    (b"get b  a b ", Get(&[b"b", b"a", b"b"], false), Plain),
    (b"get a noreply", Get(&[b"a", b"noreply"], false), Plain),
    (b"gets a", Get(&[b"a"], true), Plain),
    (b"gets noreply 0", Get(&[b"noreply", b"0"], true), Plain),
    (b"mget 1 1", GetBlock(1, 1), Plain),
    (b"mget 003 0002", GetBlock(3, 2), Plain),
    (
        b"mget 2147483647 1000",
        GetBlock(2_147_483_647, 1_000),
        Plain,
    ),
];

// Commands on numbers.
const COUNTS: [(&[u8], Spelled, Answer); 9] = [
    (b"incr n 1", Count(true, b"n", 1, None), Plain),
    (b"decr n 1", Count(false, b"n", 1, None), Plain),
    (
        b"incr n 18446744073709551615",
        Count(true, b"n", 18_446_744_073_709_551_615, None),
        Plain,
    ),
    (b"incr n 00", Count(true, b"n", 0, None), Plain),
    (b"decr n 1 noreply", Count(false, b"n", 1, None), NoReply),
    (
        b"incr n 1 0 0 5",
        Count(true, b"n", 1, Some((0, 0, 5))),
        Plain,
    ),
    (
        b"incr n 1 0 0 5 noreply",
        Count(true, b"n", 1, Some((0, 0, 5))),
        NoReply,
    ),
    (
        b"decr n 1 4294967295 4294967295 18446744073709551615",
        Count(
            false,
            b"n",
            1,
            Some((4_294_967_295, 4_294_967_295, 18_446_744_073_709_551_615)),
        ),
        Plain,
    ),
    (
        b"decr noreply 1 7 -2147483648 0 noreply",
        Count(false, b"noreply", 1, Some((7, -2_147_483_648, 0))),
        NoReply,
    ),
];

// The other commands.
const OTHERS: [(&[u8], Spelled, Answer); 17] = [
    (b"delete a", Delete(b"a"), Plain),
    (b"delete a 0", Delete(b"a"), Plain),
    (b"delete a noreply", Delete(b"a"), NoReply),
    (b"delete a 0 noreply", Delete(b"a"), NoReply),
    (b"delete 0", Delete(b"0"), Plain),
    (b"delete 0 0", Delete(b"0"), Plain),
    (b"delete noreply", Delete(b"noreply"), Plain),
    (b"delete noreply noreply", Delete(b"noreply"), NoReply),
    (b"touch a 0", Touch(b"a", 0), Plain),
    (b"touch a -2147483648", Touch(b"a", -2_147_483_648), Plain),
    (b"touch a 4294967295", Touch(b"a", 4_294_967_295), Plain),
    (b"touch a -1 noreply", Touch(b"a", -1), NoReply),
    (b"flush_all", FlushAll, Plain),
    (b" flush_all  noreply ", FlushAll, NoReply),
    (b"version", Version, Plain),
    (b"quit", Quit, Plain),
    (b" quit  ", Quit, Plain),
];

// Lines without a command.
const UNKNOWN: [&[u8]; 12] = [
    b"",
    b"   ",
    b"SET a 0 0 1",
    b"sets a 0 0 1",
    b"se a 0 0 1",
    b"ge t a",
    b"\x80set a 0 0 1",
    b"flush",
    b"flush_all0",
    b"noreply",
    b"quit\r",
    b"Version",
];

// Storing commands that their words do not spell.
const BAD_STORES: [&[u8]; 30] = [
    b"set",
    b"set a 0 0",
    b"set a 0 0 noreply",
    b"set a 0 0 1 2",
    b"set a 0 0 1 noreply noreply",
    b"set a 0 0 1 noreply 2",
    b"set a 0 0 1 NOREPLY",
    b"set a 0 0 1 norepl",
    b"set a 0 0 x",
    b"set a 0 - 1",
    b"set a 0 --0 1",
    b"set a 0 +1 1",
    b"set a 0 1- 1",
    b"set a 0 -2147483649 1",
    b"set a 0 4294967296 1",
    b"set a -0 0 1",
    b"set a +1 0 1",
    b"set a 4294967296 0 1",
    b"set a 0 0 2147483648",
    b"set a 0 0 -1",
    b"set a 000000000000000000000 0 1",
    b"set a 0 -000000000000000000000 1",
    b"set a 99999999999999999999 0 1",
    b"set a\x7f 0 0 1",
    b"set a\tb 0 0 1",
    b"cas a 0 0 1",
    b"cas a 0 0 1 noreply",
    b"cas a 0 0 1 18446744073709551616",
    b"cas a 0 0 1 2 3",
    b"add a 0 0 1 7",
];

// Other commands that their words do not spell.
const BAD_OTHERS: [&[u8]; 46] = [
    b"get",
    b"gets",
    b"get a \rb",
    b"mget",
    b"mget 3",
    b"mget 0 1",
    b"mget 1 0",
    b"mget 2148 1001",
    b"mget 2147483648 1",
    b"mget 3 1 noreply",
    b"mget 3 1 a",
    b"mget noreply 1",
    b"incr",
    b"incr n",
    b"incr n noreply",
    b"incr n -1",
    b"incr n 18446744073709551616",
    b"incr n 1 0",
    b"incr n 1 0 0",
    b"incr n 1 0 0 noreply",
    b"incr n 1 0 noreply 5",
    b"incr n 1 0 0 5 6",
    b"incr n 1 noreply 0 0 5",
    b"incr n 1 4294967296 0 5",
    b"incr n 1 0 4294967296 5",
    b"incr n 1 0 -2147483649 5",
    b"incr n 1 0 0 18446744073709551616",
    b"decr n 1 0 0 5 noreply noreply",
    b"delete",
    b"delete a 00",
    b"delete a -0",
    b"delete a 1",
    b"delete a 0 0",
    b"delete a noreply 0",
    b"delete a noreply noreply",
    b"touch a",
    b"touch a noreply",
    b"touch a 0 0",
    b"touch a 4294967296",
    b"touch a -2147483649",
    b"flush_all 0",
    b"flush_all noreply 0",
    b"version noreply",
    b"version 1",
    b"quit x",
    b"quit noreply",
];

fn is_list(keys: &KeyWords<'_>, list: &[&[u8]]) -> bool {
    keys.count() as usize == list.len()
        && keys
            .iter()
            .zip(list)
            .all(|(key, word)| key.bytes() == *word)
}

fn is_key(key: &KeyRef<'_>, bytes: &[u8]) -> bool {
    key.bytes() == bytes
}

fn is_command(command: &Command<'_>, spelled: Spelled) -> bool {
    match (command, spelled) {
        (
            Command::Store {
                verb,
                key,
                flags,
                exptime,
                len,
            },
            Store(v, k, f, e, l),
        ) => *verb == v && is_key(key, k) && *flags == f && *exptime == e && *len == l,
        (Command::Get { keys, unique }, Get(list, u)) => is_list(keys, list) && *unique == u,
        (Command::GetBlock { len, number }, GetBlock(l, n)) => *len == l && *number == n,
        (
            Command::Count {
                up,
                key,
                delta,
                initial,
            },
            Count(u, k, d, i),
        ) => *up == u && is_key(key, k) && *delta == d && *initial == i,
        (Command::Delete { key }, Delete(k)) => is_key(key, k),
        (Command::Touch { key, exptime }, Touch(k, e)) => is_key(key, k) && *exptime == e,
        (Command::FlushAll, FlushAll) => true,
        (Command::Version, Version) => true,
        (Command::Quit, Quit) => true,
        _ => false,
    }
}

fn is_head(line: &[u8], spelled: Spelled, answer: Answer) -> bool {
    match read_line(line) {
        Ok(head) => is_command(&head.command, spelled) && head.answer == answer,
        Err(_) => false,
    }
}

fn is_fault(line: &[u8], fault: LineFault) -> bool {
    match read_line(line) {
        Ok(_) => false,
        Err(told) => told == fault,
    }
}

#[test]
fn reads_lines(rt: HostRuntime) -> Result<(), Fail> {
    for (line, spelled, answer) in &STORES {
        assert!(rt; is_head(line, *spelled, *answer), "{line:?}");
    }
    for (line, spelled, answer) in &GETS {
        assert!(rt; is_head(line, *spelled, *answer), "{line:?}");
    }
    for (line, spelled, answer) in &COUNTS {
        assert!(rt; is_head(line, *spelled, *answer), "{line:?}");
    }
    for (line, spelled, answer) in &OTHERS {
        assert!(rt; is_head(line, *spelled, *answer), "{line:?}");
    }
    Ok(())
}

#[test]
fn tells_faults(rt: HostRuntime) -> Result<(), Fail> {
    for line in &UNKNOWN {
        assert!(rt; is_fault(line, Unknown), "{line:?}");
    }
    for line in &BAD_STORES {
        assert!(rt; is_fault(line, BadFormat), "{line:?}");
    }
    for line in &BAD_OTHERS {
        assert!(rt; is_fault(line, BadFormat), "{line:?}");
    }
    Ok(())
}

// A text, and then the same piece so many times.
fn repeated(alloc: Global, text: &[u8], piece: &[u8], times: usize) -> Result<Vec<u8>, AllocError> {
    let mut line = Vec::from_slice(alloc, text)?;
    for _ in 0..times {
        line.extend_from_slice(piece)?;
    }
    Ok(line)
}

fn is_read(line: &Vec<u8>) -> bool {
    read_line(line).is_ok()
}

#[test]
fn reads_long_lines(rt: HostRuntime) -> Result<(), Fail> {
    let alloc = rt.alloc();
    assert!(rt; is_read(&repeated(alloc, b"get ", b"k", 16_000)?));
    assert!(rt; !is_read(&repeated(alloc, b"get ", b"k", 16_001)?));
    assert!(rt; is_read(&repeated(alloc, b"get", b" k", 1_000)?));
    assert!(rt; !is_read(&repeated(alloc, b"get", b" k", 1_001)?));
    Ok(())
}

// Lines, and the length of the block that they ask for.
const NEEDS: [(&[u8], Option<u32>); 12] = [
    (b"set a 0 0 131071", Some(131_071)),
    (b"add a 0 0 0", Some(0)),
    (b"replace a 0 0 1048576 noreply", Some(1_048_576)),
    (b"append a 0 0 1048577", Some(1_048_577)),
    (b"prepend a 0 0 2147483647", Some(2_147_483_647)),
    (b"cas a 0 0 5 9", Some(5)),
    (b"mget 7 2", Some(7)),
    (b"get a", None),
    (b"incr a 1 0 0 5", None),
    (b"delete a 0", None),
    (b"flush_all", None),
    (b"quit", None),
];

fn need_of(len: Option<u32>) -> Need {
    match len {
        Some(len) => Need::Block {
            len,
            limit: 1_048_576,
        },
        None => Need::Nothing,
    }
}

#[test]
fn tells_needs(rt: HostRuntime) -> Result<(), Fail> {
    for (line, len) in &NEEDS {
        let head = read_line(line).ok().ok_or("no head")?;
        assert_eq!(rt; head.need(), need_of(*len), "{line:?}");
    }
    Ok(())
}

#[test]
fn tells_silence_and_the_end(rt: HostRuntime) -> Result<(), Fail> {
    let quit = read_line(b"quit").ok().ok_or("no head")?;
    assert!(rt; quit.is_quit() && !quit.is_silent());
    let flush = read_line(b"flush_all noreply").ok().ok_or("no head")?;
    assert!(rt; !flush.is_quit() && flush.is_silent());
    Ok(())
}

// Blocks of `mget 8 2`, and the keys in them.
const BLOCKS: [(&[u8], Option<&[&[u8]]>); 8] = [
    (b"abc defg", Some(&[b"abc", b"defg"])),
    (b"noreply 0", Some(&[b"noreply", b"0"])),
    (b"  a  a  ", Some(&[b"a", b"a"])),
    (b"abcdefgh", None),
    (b"ab cd ef", None),
    (b"        ", None),
    (b"abc def\x7f", None),
    (b"a\tbc def", None),
];

fn has_keys(head: Head<'_>, block: &[u8], list: &[&[u8]]) -> bool {
    if head.is_quit() {
        return false;
    }
    match head.with_block(block) {
        Ok(request) => match request.act {
            Act::Get { keys, unique } => is_list(&keys, list) && !unique,
            _ => false,
        },
        Err(BlockFault) => false,
    }
}

fn has_no_keys(head: Head<'_>, block: &[u8]) -> bool {
    !head.is_quit() && head.with_block(block).is_err()
}

#[test]
fn reads_blocks_of_keys(rt: HostRuntime) -> Result<(), Fail> {
    for (block, list) in &BLOCKS {
        let head = read_line(b"mget 8 2").ok().ok_or("no head")?;
        let is_right = match list {
            Some(list) => has_keys(head, block, list),
            None => has_no_keys(head, block),
        };
        assert!(rt; is_right, "{block:?}");
    }
    Ok(())
}

fn is_append(act: &Act<'_>, block: &[u8]) -> bool {
    match act {
        Act::Store {
            verb,
            key,
            value,
            ..
        } => *verb == Append && is_key(key, b"a") && *value == block,
        _ => false,
    }
}

fn appends(head: Head<'_>, block: &[u8]) -> bool {
    if head.is_quit() {
        return false;
    }
    match head.with_block(block) {
        Ok(request) => is_append(&request.act, block) && request.answer == NoReply,
        Err(BlockFault) => false,
    }
}

#[test]
fn stores_its_block(rt: HostRuntime) -> Result<(), Fail> {
    let head = read_line(b"append a 0 0 3 noreply").ok().ok_or("no head")?;
    assert!(rt; appends(head, b"x\r\n"));
    Ok(())
}

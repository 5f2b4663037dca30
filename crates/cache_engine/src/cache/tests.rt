//! Scripts of requests, worked by hand from the rules of the machine. Beside each second and request stands its reply.

mod collections;
mod evictions;

use super::Cache;
use crate::settings::Settings;
use Asked::{Count, Delete, Fill, FlushAll, Get, Gets, Store, Touch, Version};
use Expected::{Number, Rows, Says};
use StoreVerb::{Add, Append, Cas, Prepend, Replace, Set};
use Word::{Deleted, Exists, NotFound, NotNumeric, NotStored, Ok as Done, Stored, Touched};
use arc_core::{KeyRef, KeyWords, Reply, StoreVerb, ValueRow, Word};
use std::alloc::Global;
use std::process::Abort;
use std::test::Fail;

// What is asked of the cache.
#[derive(Clone, Copy, Debug)]
enum Asked {
    // Under a key, with client flags and an exptime, this value is stored.
    Store(StoreVerb, &'static [u8], u32, i64, &'static [u8]),
    // Under a key, with an exptime, a value of so many equal bytes is stored.
    Fill(StoreVerb, &'static [u8], i64, usize),
    Get(&'static [u8]),
    Gets(&'static [u8]),
    Count(bool, &'static [u8], u64, Option<(u32, i64, u64)>),
    Delete(&'static [u8]),
    Touch(&'static [u8], i64),
    FlushAll,
    Version,
}

// A row that is answered: the key, the client flags, the cas unique and the value.
type Row = (&'static [u8], u32, Option<u64>, &'static [u8]);

// What is answered.
#[derive(Clone, Copy, Debug)]
enum Expected {
    Says(Word),
    Number(u64),
    Rows(&'static [Row]),
}

// A second, what is asked then and what is answered.
type Script = &'static [(u32, Asked, Expected)];

fn store(
    cache: &mut Cache,
    now: u32,
    verb: StoreVerb,
    key: &[u8],
    flags: u32,
    exptime: i64,
    value: &[u8],
) -> Option<Reply> {
    let key = KeyRef::read(key).ok()?;
    if value.len() > 1_048_576 {
        return None;
    }
    Some(cache.store(now, verb, &key, flags, exptime, value))
}

// The reply, where the request can be made. Values of equal bytes are taken from the filler.
fn execute(cache: &mut Cache, filler: &[u8], now: u32, asked: Asked) -> Option<Reply> {
    match asked {
        Store(verb, key, flags, exptime, value) => {
            store(cache, now, verb, key, flags, exptime, value)
        }
        Fill(verb, key, exptime, len) => {
            store(cache, now, verb, key, 0, exptime, filler.get(..len)?)
        }
        Get(keys) => Some(cache.retrieve(now, &KeyWords::up_to(keys, 1_000)?, false)),
        Gets(keys) => Some(cache.retrieve(now, &KeyWords::up_to(keys, 1_000)?, true)),
        Count(up, key, delta, initial) => {
            Some(cache.count(now, up, &KeyRef::read(key).ok()?, delta, initial))
        }
        Delete(key) => Some(cache.delete(now, &KeyRef::read(key).ok()?)),
        Touch(key, exptime) => Some(cache.touch(now, &KeyRef::read(key).ok()?, exptime)),
        FlushAll => Some(cache.flush_all(now)),
        Version => Some(cache.version(now)),
    }
}

fn are_rows(rows: &[ValueRow], expected: &[Row]) -> bool {
    if rows.len() != expected.len() {
        return false;
    }
    for (row, (key, flags, unique, value)) in rows.iter().zip(expected) {
        if row.key.bytes() != *key || row.value.bytes() != *value {
            return false;
        }
        if row.flags != *flags || row.unique != *unique {
            return false;
        }
    }
    true
}

fn is_expected(reply: Option<Reply>, expected: Expected) -> bool {
    match (reply, expected) {
        (Some(Reply::Word(word)), Says(expected)) => word == expected,
        (Some(Reply::Number(number)), Number(expected)) => number == expected,
        (Some(Reply::Values(rows)), Rows(expected)) => are_rows(rows.as_slice(), expected),
        _ => false,
    }
}

fn opened(alloc: Global, mib: u32) -> Result<Cache, Fail> {
    shared(alloc, mib, 100)
}

// A cache of which sticky items may take so many of a hundred parts.
fn shared(alloc: Global, mib: u32, percent: u32) -> Result<Cache, Fail> {
    let settings = Settings::of_shares(mib, percent).ok_or("a limit and a share")?;
    Ok(Cache::new(alloc, settings)?)
}

// Executes a script on this cache.
fn run(rt: &impl Abort, cache: &mut Cache, filler: &[u8], script: Script) {
    for (place, (now, asked, expected)) in script.iter().enumerate() {
        let reply = execute(cache, filler, *now, *asked);
        assert!(rt; is_expected(reply, *expected), "request {place}");
    }
}

// How the key a stands before a request.
#[derive(Clone, Copy, Debug, PartialEq, Eq)]
enum Before {
    // Nothing was stored.
    Absent,
    // Flags 7 and the value 5 were stored at second 1,000 with exptime 10, and it is 1,009.
    Live,
    // The same, and it is 1,010.
    Expired,
}

const GONE: Option<(u32, u64, &[u8])> = None;

// How the key stands, a request, its reply, and what is held under the key then: flags, unique, value.
type Case = (Before, Asked, Expected, Option<(u32, u64, &'static [u8])>);

const ABSENT: [Case; 15] = [
    (
        Before::Absent,
        Store(Set, b"a", 3, 0, b"xy"),
        Says(Stored),
        Some((3, 1, b"xy")),
    ),
    (
        Before::Absent,
        Store(Add, b"a", 3, 0, b"xy"),
        Says(Stored),
        Some((3, 1, b"xy")),
    ),
    (
        Before::Absent,
        Store(Replace, b"a", 3, 0, b"xy"),
        Says(NotStored),
        GONE,
    ),
    (
        Before::Absent,
        Store(Append, b"a", 3, 0, b"xy"),
        Says(NotStored),
        GONE,
    ),
    (
        Before::Absent,
        Store(Prepend, b"a", 3, 0, b"xy"),
        Says(NotStored),
        GONE,
    ),
    (
        Before::Absent,
        Store(Cas(1), b"a", 3, 0, b"xy"),
        Says(NotFound),
        GONE,
    ),
    (Before::Absent, Get(b"a"), Rows(&[]), GONE),
    (
        Before::Absent,
        Count(true, b"a", 2, None),
        Says(NotFound),
        GONE,
    ),
    (
        Before::Absent,
        Count(true, b"a", 2, Some((3, 0, 8))),
        Number(8),
        Some((3, 1, b"8")),
    ),
    (
        Before::Absent,
        Count(false, b"a", 2, None),
        Says(NotFound),
        GONE,
    ),
    (
        Before::Absent,
        Count(false, b"a", 2, Some((3, 0, 8))),
        Number(8),
        Some((3, 1, b"8")),
    ),
    (Before::Absent, Delete(b"a"), Says(NotFound), GONE),
    (Before::Absent, Touch(b"a", 0), Says(NotFound), GONE),
    (Before::Absent, FlushAll, Says(Done), GONE),
    (Before::Absent, Version, Says(Word::Version), GONE),
];

const LIVE: [Case; 19] = [
    (
        Before::Live,
        Store(Set, b"a", 3, 0, b"xy"),
        Says(Stored),
        Some((3, 2, b"xy")),
    ),
    (
        Before::Live,
        Store(Add, b"a", 3, 0, b"xy"),
        Says(NotStored),
        Some((7, 1, b"5")),
    ),
    (
        Before::Live,
        Store(Replace, b"a", 3, 0, b"xy"),
        Says(Stored),
        Some((3, 2, b"xy")),
    ),
    (
        Before::Live,
        Store(Append, b"a", 3, 0, b"xy"),
        Says(Stored),
        Some((7, 2, b"5xy")),
    ),
    (
        Before::Live,
        Store(Prepend, b"a", 3, 0, b"xy"),
        Says(Stored),
        Some((7, 2, b"xy5")),
    ),
    (
        Before::Live,
        Store(Cas(1), b"a", 3, 0, b"xy"),
        Says(Stored),
        Some((3, 2, b"xy")),
    ),
    (
        Before::Live,
        Store(Cas(2), b"a", 3, 0, b"xy"),
        Says(Exists),
        Some((7, 1, b"5")),
    ),
    (
        Before::Live,
        Get(b"a"),
        Rows(&[(b"a", 7, None, b"5")]),
        Some((7, 1, b"5")),
    ),
    (
        Before::Live,
        Gets(b"a"),
        Rows(&[(b"a", 7, Some(1), b"5")]),
        Some((7, 1, b"5")),
    ),
    (
        Before::Live,
        Count(true, b"a", 2, None),
        Number(7),
        Some((7, 2, b"7")),
    ),
    (
        Before::Live,
        Count(true, b"a", 2, Some((3, 0, 8))),
        Number(7),
        Some((7, 2, b"7")),
    ),
    (
        Before::Live,
        Count(true, b"a", 95, None),
        Number(100),
        Some((7, 2, b"100")),
    ),
    (
        Before::Live,
        Count(false, b"a", 2, None),
        Number(3),
        Some((7, 2, b"3")),
    ),
    (
        Before::Live,
        Count(false, b"a", 6, Some((3, 0, 8))),
        Number(0),
        Some((7, 2, b"0")),
    ),
    (Before::Live, Delete(b"a"), Says(Deleted), GONE),
    (
        Before::Live,
        Touch(b"a", 0),
        Says(Touched),
        Some((7, 1, b"5")),
    ),
    (Before::Live, Touch(b"a", -2), Says(Touched), GONE),
    (Before::Live, FlushAll, Says(Done), GONE),
    (
        Before::Live,
        Version,
        Says(Word::Version),
        Some((7, 1, b"5")),
    ),
];

const EXPIRED: [Case; 15] = [
    (
        Before::Expired,
        Store(Set, b"a", 3, 0, b"xy"),
        Says(Stored),
        Some((3, 2, b"xy")),
    ),
    (
        Before::Expired,
        Store(Add, b"a", 3, 0, b"xy"),
        Says(Stored),
        Some((3, 2, b"xy")),
    ),
    (
        Before::Expired,
        Store(Replace, b"a", 3, 0, b"xy"),
        Says(NotStored),
        GONE,
    ),
    (
        Before::Expired,
        Store(Append, b"a", 3, 0, b"xy"),
        Says(NotStored),
        GONE,
    ),
    (
        Before::Expired,
        Store(Prepend, b"a", 3, 0, b"xy"),
        Says(NotStored),
        GONE,
    ),
    (
        Before::Expired,
        Store(Cas(1), b"a", 3, 0, b"xy"),
        Says(NotFound),
        GONE,
    ),
    (Before::Expired, Get(b"a"), Rows(&[]), GONE),
    (
        Before::Expired,
        Count(true, b"a", 2, None),
        Says(NotFound),
        GONE,
    ),
    (
        Before::Expired,
        Count(true, b"a", 2, Some((3, 0, 8))),
        Number(8),
        Some((3, 2, b"8")),
    ),
    (
        Before::Expired,
        Count(false, b"a", 2, None),
        Says(NotFound),
        GONE,
    ),
    (
        Before::Expired,
        Count(false, b"a", 2, Some((3, 0, 8))),
        Number(8),
        Some((3, 2, b"8")),
    ),
    (Before::Expired, Delete(b"a"), Says(NotFound), GONE),
    (Before::Expired, Touch(b"a", 0), Says(NotFound), GONE),
    (Before::Expired, FlushAll, Says(Done), GONE),
    (Before::Expired, Version, Says(Word::Version), GONE),
];

// Whether exactly this is held under the key a.
fn holds(cache: &mut Cache, now: u32, held: Option<(u32, u64, &[u8])>) -> bool {
    let Some(Reply::Values(rows)) = execute(cache, b"", now, Gets(b"a")) else {
        return false;
    };
    match (rows.as_slice(), held) {
        ([], None) => cache.items() == 0 && cache.accounted() == 0,
        ([row], Some((flags, unique, value))) => {
            // 64 bytes for the item, one for its key.
            let size = 65 + value.len() as u64;
            row.flags == flags
                && row.unique == Some(unique)
                && row.value.bytes() == value
                && cache.items() == 1
                && cache.accounted() == size
        }
        _ => false,
    }
}

// Works one case on a cache of its own.
fn work(
    rt: &impl Abort,
    alloc: Global,
    before: Before,
    asked: Asked,
    expected: Expected,
    held: Option<(u32, u64, &[u8])>,
) -> Result<(), Fail> {
    let mut cache = opened(alloc, 1)?;
    if before != Before::Absent {
        let first = execute(&mut cache, b"", 1_000, Store(Set, b"a", 7, 10, b"5"));
        assert!(rt; is_expected(first, Says(Stored)));
    }
    let now = if before == Before::Live { 1_009 } else { 1_010 };
    let reply = execute(&mut cache, b"", now, asked);
    assert!(rt; is_expected(reply, expected), "{asked:?}");
    assert!(rt; holds(&mut cache, now, held), "{asked:?}");
    Ok(())
}

#[test]
fn answers_where_no_item_is_held(rt: HostRuntime) -> Result<(), Fail> {
    for (before, asked, expected, held) in ABSENT {
        work(&rt, rt.alloc(), before, asked, expected, held)?;
    }
    Ok(())
}

#[test]
fn answers_where_an_item_is_held(rt: HostRuntime) -> Result<(), Fail> {
    for (before, asked, expected, held) in LIVE {
        work(&rt, rt.alloc(), before, asked, expected, held)?;
    }
    Ok(())
}

#[test]
fn answers_where_the_item_has_expired(rt: HostRuntime) -> Result<(), Fail> {
    for (before, asked, expected, held) in EXPIRED {
        work(&rt, rt.alloc(), before, asked, expected, held)?;
    }
    Ok(())
}

// Scripts of few bytes, each on a cache of its own.
const SCRIPTS: [Script; 11] = [
    // The cas counter rises with each store, and with nothing else.
    &[
        (0, Store(Set, b"a", 0, 0, b"5"), Says(Stored)),
        (0, Gets(b"a"), Rows(&[(b"a", 0, Some(1), b"5")])),
        (0, Store(Set, b"a", 0, 0, b"5"), Says(Stored)),
        (0, Store(Add, b"a", 0, 0, b"6"), Says(NotStored)),
        (0, Store(Replace, b"b", 0, 0, b"6"), Says(NotStored)),
        (0, Store(Cas(9), b"a", 0, 0, b"6"), Says(Exists)),
        (0, Touch(b"a", 0), Says(Touched)),
        (0, Count(true, b"b", 1, None), Says(NotFound)),
        (0, Gets(b"a"), Rows(&[(b"a", 0, Some(2), b"5")])),
        (0, Store(Cas(2), b"a", 0, 0, b"7"), Says(Stored)),
        (0, Gets(b"a"), Rows(&[(b"a", 0, Some(3), b"7")])),
        (0, Count(true, b"a", 1, None), Number(8)),
        (0, Count(false, b"a", 1, None), Number(7)),
        (0, Gets(b"a"), Rows(&[(b"a", 0, Some(5), b"7")])),
        (0, Store(Append, b"a", 0, 0, b"x"), Says(Stored)),
        (0, Count(true, b"a", 1, None), Says(NotNumeric)),
        (0, Store(Prepend, b"a", 0, 0, b"x"), Says(Stored)),
        (0, Gets(b"a"), Rows(&[(b"a", 0, Some(7), b"x7x")])),
        (0, Count(true, b"b", 1, Some((0, 0, 9))), Number(9)),
        (0, Delete(b"a"), Says(Deleted)),
        (0, FlushAll, Says(Done)),
        (0, Store(Add, b"a", 0, 0, b""), Says(Stored)),
        (0, Gets(b"a b"), Rows(&[(b"a", 0, Some(9), b"")])),
    ],
    // An item expires at its second, and not before.
    &[
        (1_000, Store(Set, b"a", 0, 10, b"x"), Says(Stored)),
        (1_009, Get(b"a"), Rows(&[(b"a", 0, None, b"x")])),
        (1_010, Get(b"a"), Rows(&[])),
    ],
    // Appending and counting keep the second, and a touch moves it.
    &[
        (1_000, Store(Set, b"a", 7, 10, b"5"), Says(Stored)),
        (1_008, Store(Append, b"a", 0, 0, b"6"), Says(Stored)),
        (1_008, Count(true, b"a", 1, None), Number(57)),
        (1_009, Gets(b"a"), Rows(&[(b"a", 7, Some(3), b"57")])),
        (1_009, Touch(b"a", 10), Says(Touched)),
        (1_018, Gets(b"a"), Rows(&[(b"a", 7, Some(3), b"57")])),
        (1_019, Get(b"a"), Rows(&[])),
    ],
    // 30 days count from now; a second more is itself the second, which may have been.
    &[
        (1_000, Store(Set, b"a", 0, 2_592_000, b"x"), Says(Stored)),
        (1_000, Store(Set, b"b", 0, 2_592_001, b"y"), Says(Stored)),
        (
            2_592_000,
            Get(b"a b"),
            Rows(&[(b"a", 0, None, b"x"), (b"b", 0, None, b"y")]),
        ),
        (2_592_001, Get(b"b a"), Rows(&[(b"a", 0, None, b"x")])),
        (2_592_999, Get(b"a"), Rows(&[(b"a", 0, None, b"x")])),
        (2_593_000, Get(b"a"), Rows(&[])),
        (
            2_593_000,
            Store(Set, b"b", 0, 2_592_001, b"y"),
            Says(Stored),
        ),
        (2_593_000, Get(b"b"), Rows(&[])),
    ],
    // Exptimes below 0: -1 is never, and all others at once. 0 is never as well.
    &[
        (0, Store(Set, b"a", 0, -1, b"x"), Says(Stored)),
        (0, Store(Set, b"b", 0, -2, b"y"), Says(Stored)),
        (0, Store(Set, b"c", 0, -2_147_483_648, b"z"), Says(Stored)),
        (0, Store(Set, b"d", 0, 0, b"w"), Says(Stored)),
        (
            0,
            Get(b"a b c d"),
            Rows(&[(b"a", 0, None, b"x"), (b"d", 0, None, b"w")]),
        ),
        (
            4_294_967_295,
            Get(b"d a"),
            Rows(&[(b"d", 0, None, b"w"), (b"a", 0, None, b"x")]),
        ),
        (
            4_294_967_295,
            Store(Set, b"d", 0, 4_294_967_295, b"w"),
            Says(Stored),
        ),
        (4_294_967_295, Get(b"d"), Rows(&[])),
    ],
    // The latest second never falls.
    &[
        (1_000, Store(Set, b"a", 0, 10, b"x"), Says(Stored)),
        (1_010, Version, Says(Word::Version)),
        (1_009, Get(b"a"), Rows(&[])),
        (5, Store(Set, b"a", 0, 10, b"x"), Says(Stored)),
        (1_019, Get(b"a"), Rows(&[(b"a", 0, None, b"x")])),
        (0, Touch(b"b", 0), Says(NotFound)),
        (1_020, Get(b"a"), Rows(&[])),
    ],
    // A refused command raises it too.
    &[
        (1_000, Store(Set, b"a", 0, 10, b"x"), Says(Stored)),
        (1_010, Store(Replace, b"b", 0, 0, b"y"), Says(NotStored)),
        (0, Store(Add, b"a", 0, 0, b"y"), Says(Stored)),
        (0, Gets(b"a"), Rows(&[(b"a", 0, Some(2), b"y")])),
    ],
    // A retrieval answers in the request's order, and a key as often as it is named.
    &[
        (0, Store(Set, b"a", 1, 0, b"x"), Says(Stored)),
        (0, Store(Set, b"b", 2, -1, b"y"), Says(Stored)),
        (
            0,
            Gets(b"b c a b"),
            Rows(&[
                (b"b", 2, Some(2), b"y"),
                (b"a", 1, Some(1), b"x"),
                (b"b", 2, Some(2), b"y"),
            ]),
        ),
    ],
    // An item changes its side by another exptime, and keeps all else.
    &[
        (0, Store(Set, b"a", 1, 0, b"x"), Says(Stored)),
        (0, Touch(b"a", -1), Says(Touched)),
        (0, Gets(b"a"), Rows(&[(b"a", 1, Some(1), b"x")])),
        (0, Store(Append, b"a", 0, 0, b"y"), Says(Stored)),
        (0, Touch(b"a", 5), Says(Touched)),
        (4, Gets(b"a"), Rows(&[(b"a", 1, Some(2), b"xy")])),
        (4, Store(Set, b"a", 1, -1, b"z"), Says(Stored)),
        (9, Gets(b"a"), Rows(&[(b"a", 1, Some(3), b"z")])),
        (9, Store(Set, b"a", 1, 1, b"z"), Says(Stored)),
        (10, Gets(b"a"), Rows(&[])),
    ],
    // A flush takes all items, sticky ones too.
    &[
        (0, Store(Set, b"a", 0, -1, b"x"), Says(Stored)),
        (0, Store(Set, b"b", 0, 0, b"y"), Says(Stored)),
        (0, FlushAll, Says(Done)),
        (0, Get(b"a b"), Rows(&[])),
        (0, Delete(b"a"), Says(NotFound)),
    ],
    // Counts at their ends.
    &[
        (
            0,
            Count(true, b"a", 1, Some((0, 0, 18_446_744_073_709_551_615))),
            Number(18_446_744_073_709_551_615),
        ),
        (0, Count(true, b"a", 1, None), Number(0)),
        (0, Count(false, b"a", 1, None), Number(0)),
        (0, Gets(b"a"), Rows(&[(b"a", 0, Some(3), b"0")])),
    ],
];

#[test]
fn follows_scripts(rt: HostRuntime) -> Result<(), Fail> {
    for script in SCRIPTS {
        let mut cache = opened(rt.alloc(), 1)?;
        run(&rt, &mut cache, b"", script);
    }
    Ok(())
}

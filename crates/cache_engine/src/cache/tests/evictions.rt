//! Tables of evictions, worked by hand: which of the keys are left.

use super::Asked::{Count, Delete, Fill, FlushAll, Get, Gets, Store, Touch, Version};
use super::Expected::{Rows, Says};
use super::{Asked, Expected, Script, execute, is_expected, opened, run, shared};
use crate::cache::Cache;
use StoreVerb::{Add, Append, Cas, Prepend, Set};
use Word::{
    Deleted, Exists, NotNumeric, NotStored, Ok as Done, OutOfMemory, Stored, TooLarge, Touched,
};
use arc_core::{NoMemory, Reply, StoreVerb, Word};
use std::alloc::Global;
use std::process::Abort;
use std::test::Fail;

// So many equal bytes.
fn filled(alloc: Global, len: usize) -> Result<Vec<u8>, NoMemory> {
    Ok(vec![in alloc; b'v'; len]?)
}

// The bytes of a value by which an item under a key of one byte takes a quarter of a mebibyte: 64 + 1 + 262,079.
const QUARTER: usize = 262_079;

// And by which it takes the whole of it.
const WHOLE: usize = 1_048_511;

// What an expiring item, or one that does not, is stored as first: its exptime.
type Firsts = (i64, i64, i64, i64);

// A table row: the exptimes by which the items a, b, c and d of a quarter each are stored at second 1,000, in this order;
// requests with their replies; how many items are held then, and which of the keys a to h a retrieval finds.
type Eviction = (Firsts, Script, u64, &'static [u8]);

const PLAIN: Firsts = (0, 0, 0, 0);

// One more item of a quarter.
const E: (u32, Asked, Expected) = (1_000, Fill(Set, b"e", 0, QUARTER), Says(Stored));

const F: (u32, Asked, Expected) = (1_000, Fill(Set, b"f", 0, QUARTER), Says(Stored));

const G: (u32, Asked, Expected) = (1_000, Fill(Set, b"g", 0, QUARTER), Says(Stored));

const H: (u32, Asked, Expected) = (1_000, Fill(Set, b"h", 0, QUARTER), Says(Stored));

// What is used comes to the front, by whatever request names it.
const RECENCY: [Eviction; 13] = [
    (PLAIN, &[], 4, b"abcd"),
    (PLAIN, &[E], 4, b"bcde"),
    (PLAIN, &[E, F, G], 4, b"defg"),
    (PLAIN, &[(1_000, Get(b"zz"), Rows(&[])), E], 4, b"bcde"),
    (
        PLAIN,
        &[(1_000, Fill(Add, b"a", 0, 1), Says(NotStored)), E],
        4,
        b"acde",
    ),
    (
        PLAIN,
        &[(1_000, Fill(Cas(9), b"a", 0, 1), Says(Exists)), E],
        4,
        b"acde",
    ),
    (
        PLAIN,
        &[(1_000, Count(true, b"a", 1, None), Says(NotNumeric)), E],
        4,
        b"acde",
    ),
    (
        PLAIN,
        &[(1_000, Touch(b"a", 0), Says(Touched)), E, F],
        4,
        b"adef",
    ),
    (
        PLAIN,
        &[(1_000, Fill(Set, b"a", 0, QUARTER), Says(Stored)), E, F],
        4,
        b"adef",
    ),
    (
        PLAIN,
        &[(1_000, Fill(Append, b"a", 0, 0), Says(Stored)), E, F],
        4,
        b"adef",
    ),
    (
        PLAIN,
        &[(1_000, Delete(b"d"), Says(Deleted)), E],
        4,
        b"abce",
    ),
    (
        PLAIN,
        &[(1_000, Version, Says(Word::Version)), E],
        4,
        b"bcde",
    ),
    (PLAIN, &[(1_000, FlushAll, Says(Done)), E], 1, b"e"),
];

// As few as make room, the oldest first, and the key itself makes none.
const LEAST: [Eviction; 12] = [
    (
        PLAIN,
        &[(1_000, Fill(Set, b"e", 0, 0), Says(Stored))],
        4,
        b"bcde",
    ),
    (
        PLAIN,
        &[(1_000, Fill(Set, b"e", 0, QUARTER + 1), Says(Stored))],
        3,
        b"cde",
    ),
    (
        PLAIN,
        &[(1_000, Fill(Set, b"e", 0, WHOLE), Says(Stored))],
        1,
        b"e",
    ),
    (
        PLAIN,
        &[(1_000, Fill(Set, b"e", 0, WHOLE + 1), Says(OutOfMemory)), E],
        4,
        b"bcde",
    ),
    // One byte more where an item stands evicts one other.
    (
        PLAIN,
        &[(1_000, Fill(Set, b"b", 0, QUARTER + 1), Says(Stored))],
        3,
        b"bcd",
    ),
    (
        PLAIN,
        &[(1_000, Fill(Append, b"a", 0, 1), Says(Stored))],
        3,
        b"acd",
    ),
    (
        PLAIN,
        &[(1_000, Fill(Set, b"a", 0, WHOLE), Says(Stored))],
        1,
        b"a",
    ),
    // Fewer bytes evict none, and leave room.
    (
        PLAIN,
        &[
            (1_000, Fill(Set, b"a", 0, QUARTER - 65), Says(Stored)),
            (1_000, Fill(Set, b"e", 0, 0), Says(Stored)),
        ],
        5,
        b"abcde",
    ),
    (
        PLAIN,
        &[
            (1_000, Fill(Set, b"a", 0, QUARTER - 65), Says(Stored)),
            (1_000, Fill(Set, b"e", 0, 1), Says(Stored)),
        ],
        4,
        b"acde",
    ),
    (
        PLAIN,
        &[(1_000, Delete(b"b"), Says(Deleted)), E],
        4,
        b"acde",
    ),
    // `out of memory` is no use of the key.
    (
        PLAIN,
        &[(1_000, Fill(Set, b"a", 0, WHOLE + 1), Says(OutOfMemory))],
        4,
        b"abcd",
    ),
    (
        PLAIN,
        &[(1_000, Fill(Set, b"a", 0, WHOLE + 1), Says(OutOfMemory)), E],
        4,
        b"bcde",
    ),
];

// Sticky items stay, and count.
const STICKY: [Eviction; 9] = [
    ((-1, 0, 0, 0), &[E, F, G, H], 4, b"afgh"),
    ((0, -1, 0, -1), &[E, F, G, H], 4, b"bdgh"),
    (
        PLAIN,
        &[(1_000, Touch(b"a", -1), Says(Touched)), E, F, G, H],
        4,
        b"afgh",
    ),
    (
        PLAIN,
        &[
            (1_000, Fill(Set, b"a", -1, QUARTER), Says(Stored)),
            E,
            F,
            G,
            H,
        ],
        4,
        b"afgh",
    ),
    // It comes back to the front.
    (
        (-1, 0, 0, 0),
        &[(1_000, Touch(b"a", 0), Says(Touched)), E, F, G],
        4,
        b"aefg",
    ),
    (
        (-1, 0, 0, 0),
        &[(1_000, Touch(b"a", 0), Says(Touched)), E, F, G, H],
        4,
        b"efgh",
    ),
    // Three quarters are left for all others: 786,367 bytes beside the 65.
    (
        (-1, 0, 0, 0),
        &[(1_000, Fill(Set, b"b", 0, 786_367), Says(Stored))],
        2,
        b"ab",
    ),
    (
        (-1, 0, 0, 0),
        &[(1_000, Fill(Set, b"b", 0, 786_368), Says(OutOfMemory))],
        4,
        b"abcd",
    ),
    (
        (-1, -1, -1, -1),
        &[(1_000, Fill(Set, b"e", 0, 0), Says(OutOfMemory))],
        4,
        b"abcd",
    ),
];

// Half of a mebibyte, 524,288 bytes, is for sticky items: a takes 500,065 of them, and b what is left. Evicting c, which is
// not sticky, makes no room there.
const HALF: Script = &[
    (0, Fill(Set, b"a", -1, 500_000), Says(Stored)),
    (0, Fill(Set, b"b", -1, 24_159), Says(OutOfMemory)),
    (0, Fill(Set, b"b", -1, 24_158), Says(Stored)),
    (0, Fill(Set, b"c", 0, 0), Says(Stored)),
    (0, Touch(b"c", -1), Says(OutOfMemory)),
    (0, Fill(Append, b"b", 0, 1), Says(OutOfMemory)),
    (0, Touch(b"a", 0), Says(Touched)),
    (0, Touch(b"c", -1), Says(Touched)),
];

#[test]
fn keeps_sticky_items_in_their_share(rt: HostRuntime) -> Result<(), Fail> {
    let filler = filled(rt.alloc(), 500_000)?;
    let mut cache = shared(rt.alloc(), 1, 50)?;
    run(&rt, &mut cache, &filler, HALF);
    // b and c are sticky now: 24,223 bytes and 65.
    assert_eq!(rt; (cache.sticky(), cache.accounted()), (24_288, 524_353));

    // With no share no item is sticky.
    let mut cache = shared(rt.alloc(), 1, 0)?;
    let reply = execute(&mut cache, &filler, 0, Fill(Set, b"a", -1, 0));
    assert!(rt; is_expected(reply, Says(OutOfMemory)));
    assert_eq!(rt; (cache.items(), cache.sticky()), (0, 0));
    Ok(())
}

// Items that have expired stay where they are, and count, until they are named or evicted.
const LATE: [Eviction; 8] = [
    (
        (0, 10, 0, 0),
        &[(1_010, Version, Says(Word::Version)), E],
        4,
        b"cde",
    ),
    (
        (0, 10, 0, 0),
        &[(1_010, Get(b"b"), Rows(&[])), E],
        4,
        b"acde",
    ),
    // Stored as one that has expired, it keeps its place.
    (
        PLAIN,
        &[(1_000, Fill(Set, b"a", -2, QUARTER), Says(Stored)), E, F],
        4,
        b"cdef",
    ),
    (
        PLAIN,
        &[(1_000, Fill(Set, b"c", -2, QUARTER), Says(Stored)), E, F, G],
        4,
        b"defg",
    ),
    (
        PLAIN,
        &[(1_000, Touch(b"c", -2), Says(Touched)), E, F],
        4,
        b"def",
    ),
    // Where one stood that had expired, it comes as a new one, in front.
    (
        (10, 0, 0, 0),
        &[(1_010, Fill(Set, b"a", -2, QUARTER), Says(Stored)), E, F],
        4,
        b"def",
    ),
    (
        (10, 0, 0, 0),
        &[(1_010, Fill(Set, b"a", 0, QUARTER), Says(Stored)), E, F],
        4,
        b"adef",
    ),
    // `out of memory` leaves it dropped.
    (
        (10, 0, 0, 0),
        &[(1_010, Fill(Set, b"a", 0, WHOLE + 1), Says(OutOfMemory))],
        3,
        b"bcd",
    ),
];

// Whether a retrieval of the keys a to h finds exactly these.
fn remain(cache: &mut Cache, keys: &[u8]) -> bool {
    let Some(Reply::Values(rows)) = execute(cache, b"", 0, Get(b"a b c d e f g h")) else {
        return false;
    };
    let rows = rows.as_slice();
    if rows.len() != keys.len() {
        return false;
    }
    for (row, key) in rows.iter().zip(keys) {
        if row.key.bytes() != [*key].as_slice() {
            return false;
        }
    }
    true
}

// Works one row of a table of evictions on a cache of its own.
fn evict(
    rt: &impl Abort,
    alloc: Global,
    filler: &[u8],
    firsts: Firsts,
    script: Script,
    items: u64,
    keys: &[u8],
) -> Result<(), Fail> {
    let mut cache = opened(alloc, 1)?;
    let (a, b, c, d) = firsts;
    for (key, exptime) in [(b"a", a), (b"b", b), (b"c", c), (b"d", d)] {
        let reply = execute(&mut cache, filler, 1_000, Fill(Set, key, exptime, QUARTER));
        assert!(rt; is_expected(reply, Says(Stored)));
    }
    assert_eq!(rt; cache.accounted(), 1_048_576);
    run(rt, &mut cache, filler, script);
    assert_eq!(rt; cache.items(), items, "{script:?}");
    assert!(rt; remain(&mut cache, keys), "{script:?}");
    Ok(())
}

#[test]
fn evicts_by_recency(rt: HostRuntime) -> Result<(), Fail> {
    let filler = filled(rt.alloc(), 1_048_576)?;
    for (firsts, script, items, keys) in RECENCY {
        evict(&rt, rt.alloc(), &filler, firsts, script, items, keys)?;
    }
    Ok(())
}

#[test]
fn evicts_as_few_as_make_room(rt: HostRuntime) -> Result<(), Fail> {
    let filler = filled(rt.alloc(), 1_048_576)?;
    for (firsts, script, items, keys) in LEAST {
        evict(&rt, rt.alloc(), &filler, firsts, script, items, keys)?;
    }
    Ok(())
}

#[test]
fn never_evicts_sticky_items(rt: HostRuntime) -> Result<(), Fail> {
    let filler = filled(rt.alloc(), 1_048_576)?;
    for (firsts, script, items, keys) in STICKY {
        evict(&rt, rt.alloc(), &filler, firsts, script, items, keys)?;
    }
    Ok(())
}

#[test]
fn keeps_unnamed_items_that_have_expired(rt: HostRuntime) -> Result<(), Fail> {
    let filler = filled(rt.alloc(), 1_048_576)?;
    for (firsts, script, items, keys) in LATE {
        evict(&rt, rt.alloc(), &filler, firsts, script, items, keys)?;
    }
    Ok(())
}

// Joined values at their limit.
const LARGE: Script = &[
    (0, Fill(Set, b"a", 0, 1_048_575), Says(Stored)),
    (0, Fill(Append, b"a", 0, 1), Says(Stored)),
    (0, Fill(Append, b"a", 0, 1), Says(TooLarge)),
    (0, Fill(Prepend, b"a", 0, 1), Says(TooLarge)),
    (0, Fill(Append, b"a", 0, 1_048_576), Says(TooLarge)),
    (0, Fill(Prepend, b"a", 0, 0), Says(Stored)),
];

// Of 2,097,152 bytes 1,048,511 are left, and an item that adds more evicts the other.
const FULL: Script = &[
    (0, Fill(Set, b"b", 0, 1_048_446), Says(Stored)),
    (0, Store(Cas(3), b"a", 0, 0, b"x"), Says(Stored)),
    (0, Gets(b"a"), Rows(&[(b"a", 0, Some(5), b"x")])),
    (0, Fill(Set, b"a", 0, 1_048_576), Says(Stored)),
];

// One byte more.
const MORE: Script = &[
    (0, Fill(Append, b"b", 0, 1), Says(Stored)),
    (0, Get(b"a"), Rows(&[])),
];

#[test]
fn joins_up_to_the_limit(rt: HostRuntime) -> Result<(), Fail> {
    let filler = filled(rt.alloc(), 1_048_576)?;
    let mut cache = opened(rt.alloc(), 2)?;
    run(&rt, &mut cache, &filler, LARGE);
    // 64 bytes for the item, one for its key.
    assert_eq!(rt; (cache.items(), cache.accounted()), (1, 1_048_641));
    run(&rt, &mut cache, &filler, FULL);
    assert_eq!(rt; (cache.items(), cache.accounted()), (2, 2_097_152));
    run(&rt, &mut cache, &filler, MORE);
    assert_eq!(rt; (cache.items(), cache.accounted()), (1, 1_048_512));
    Ok(())
}

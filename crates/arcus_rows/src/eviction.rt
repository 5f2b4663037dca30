//! Which items stay in memory, on a cache of 1 MiB: worked by hand.
//!
//! An item counts 64 bytes, its key and its value. So under a key of one letter a value of 262,079 bytes counts a quarter
//! of the limit, one of 524,223 bytes a half, one of 786,367 three quarters, one of 1,048,511 all, and an empty one 65
//! bytes.
//!
//! A collection counts 128 bytes, its key, and 32 with the bytes of the element and of its field for each element. So under
//! a key of one letter an empty one counts 129 bytes, a list or set of one byte 162, one of 32,768 bytes 32,929, and a map
//! of a field and a value of one byte each 163.

use crate::harness::{ONE_MIB, Setting, add_text, expect, expect_bytes, expect_rows, run_on};
use arcus_tool::Status;
use std::alloc::{AllocError, Global};
use std::process::Abort;
use std::sync::Wait;
use std::test::Fail;
use std::thread::Threads;

// A command, its reply, and what is held then: each key with the length of its value, whose bytes are all `x`.
type Step = (&'static str, &'static str, &'static [(&'static str, usize)]);

const QUARTER: usize = 262_079;

const HALF: usize = 524_223;

const THREE_QUARTERS: usize = 786_367;

const ALL: usize = 1_048_511;

// Behind each step stands the shelf, the most recently used first, and then the sticky items.
const ROOM_IS_MADE: [Step; 26] = [
    ("set a 0 0 262079|{262079x}|", "STORED|", &[("a", QUARTER)]), // a
    (
        "set b 0 0 262079|{262079x}|",
        "STORED|",
        &[("a", QUARTER), ("b", QUARTER)],
    ), // b a
    (
        "set c 0 0 262079|{262079x}|",
        "STORED|",
        &[("a", QUARTER), ("b", QUARTER), ("c", QUARTER)],
    ), // c b a
    // Full to the last byte.
    (
        "set d 0 0 262079|{262079x}|",
        "STORED|",
        &[
            ("a", QUARTER),
            ("b", QUARTER),
            ("c", QUARTER),
            ("d", QUARTER),
        ],
    ), // d c b a
    (
        "get a|",
        "VALUE a 0 262079|{262079x}|END|",
        &[
            ("a", QUARTER),
            ("b", QUARTER),
            ("c", QUARTER),
            ("d", QUARTER),
        ],
    ), // a d c b
    (
        "set e 0 0 262079|{262079x}|",
        "STORED|",
        &[
            ("a", QUARTER),
            ("c", QUARTER),
            ("d", QUARTER),
            ("e", QUARTER),
        ],
    ), // e a d c
    (
        "touch c 0|",
        "TOUCHED|",
        &[
            ("a", QUARTER),
            ("c", QUARTER),
            ("d", QUARTER),
            ("e", QUARTER),
        ],
    ), // c e a d
    // A whole item goes, though 65 bytes would do.
    (
        "set f 0 0 0||",
        "STORED|",
        &[("a", QUARTER), ("c", QUARTER), ("e", QUARTER), ("f", 0)],
    ), // f c e a
    // What is refused was used nevertheless.
    (
        "add a 0 0 1|y|",
        "NOT_STORED|",
        &[("a", QUARTER), ("c", QUARTER), ("e", QUARTER), ("f", 0)],
    ), // a f c e
    (
        "set b 0 0 262079|{262079x}|",
        "STORED|",
        &[("a", QUARTER), ("b", QUARTER), ("c", QUARTER), ("f", 0)],
    ), // b a f c
    // An item that is replaced makes no room for itself, though it is the last one: f goes.
    (
        "set c 0 0 524223|{524223x}|",
        "STORED|",
        &[("a", QUARTER), ("b", QUARTER), ("c", HALF)],
    ), // c b a
    (
        "touch b -1|",
        "TOUCHED|",
        &[("a", QUARTER), ("b", QUARTER), ("c", HALF)],
    ), // c a; sticky b
    (
        "set d 0 0 0||",
        "STORED|",
        &[("b", QUARTER), ("c", HALF), ("d", 0)],
    ), // d c; sticky b
    (
        "touch c -1|",
        "TOUCHED|",
        &[("b", QUARTER), ("c", HALF), ("d", 0)],
    ), // d; sticky b c
    (
        "set e 0 0 262079|{262079x}|",
        "STORED|",
        &[("b", QUARTER), ("c", HALF), ("e", QUARTER)],
    ), // e; sticky b c
    (
        "touch e -1|",
        "TOUCHED|",
        &[("b", QUARTER), ("c", HALF), ("e", QUARTER)],
    ), // sticky b c e
    // Sticky items are never evicted.
    (
        "set f 0 0 0||",
        "SERVER_ERROR out of memory|",
        &[("b", QUARTER), ("c", HALF), ("e", QUARTER)],
    ), // sticky b c e
    // A value of the same size fits into a full cache, and its item is sticky no more.
    (
        "set e 0 0 262079|{262079x}|",
        "STORED|",
        &[("b", QUARTER), ("c", HALF), ("e", QUARTER)],
    ), // e; sticky b c
    // Where evicting all does not make room, nothing is evicted.
    (
        "set f 0 0 262080|{262080x}|",
        "SERVER_ERROR out of memory|",
        &[("b", QUARTER), ("c", HALF), ("e", QUARTER)],
    ), // e; sticky b c
    (
        "set f 0 0 262079|{262079x}|",
        "STORED|",
        &[("b", QUARTER), ("c", HALF), ("f", QUARTER)],
    ), // f; sticky b c
    // One byte more of a sticky item.
    (
        "append b 0 0 1|x|",
        "STORED|",
        &[("b", 262_080), ("c", HALF)],
    ), // sticky b c
    ("delete b|", "DELETED|", &[("c", HALF)]), // sticky c
    ("flush_all|", "OK|", &[]),
    ("set a 0 0 1048511|{1048511x}|", "STORED|", &[("a", ALL)]), // a
    // An item that is above the limit alone leaves the old one.
    (
        "set a 0 0 1048512|{1048512x}|",
        "SERVER_ERROR out of memory|",
        &[("a", ALL)],
    ), // a
    ("replace a 0 0 0||", "STORED|", &[("a", 0)]), // a
];

const ORDER_OF_USE: [Step; 15] = [
    ("set s 0 -1 524223|{524223x}|", "STORED|", &[("s", HALF)]), // sticky s
    (
        "set a 0 0 262079|{262079x}|",
        "STORED|",
        &[("a", QUARTER), ("s", HALF)],
    ), // a; sticky s
    (
        "set b 0 0 262079|{262079x}|",
        "STORED|",
        &[("a", QUARTER), ("b", QUARTER), ("s", HALF)],
    ), // b a; sticky s
    // Without room a is not used.
    (
        "set a 0 0 524224|{524224x}|",
        "SERVER_ERROR out of memory|",
        &[("a", QUARTER), ("b", QUARTER), ("s", HALF)],
    ), // b a; sticky s
    (
        "set c 0 0 0||",
        "STORED|",
        &[("b", QUARTER), ("c", 0), ("s", HALF)],
    ), // c b; sticky s
    (
        "incr b 1|",
        "CLIENT_ERROR cannot increment or decrement non-numeric value|",
        &[("b", QUARTER), ("c", 0), ("s", HALF)],
    ), // b c; sticky s
    (
        "cas c 0 0 0 1||",
        "EXISTS|",
        &[("b", QUARTER), ("c", 0), ("s", HALF)],
    ), // c b; sticky s
    (
        "set d 0 0 262079|{262079x}|",
        "STORED|",
        &[("c", 0), ("d", QUARTER), ("s", HALF)],
    ), // d c; sticky s
    (
        "replace e 0 0 0||",
        "NOT_STORED|",
        &[("c", 0), ("d", QUARTER), ("s", HALF)],
    ), // d c; sticky s
    ("delete s|", "DELETED|", &[("c", 0), ("d", QUARTER)]), // d c
    (
        "set a 0 0 786367|{786367x}|",
        "STORED|",
        &[("a", THREE_QUARTERS), ("d", QUARTER)],
    ), // a d
    // Keys are used in the order in which they are named.
    (
        "get a d|",
        "VALUE a 0 786367|{786367x}|VALUE d 0 262079|{262079x}|END|",
        &[("a", THREE_QUARTERS), ("d", QUARTER)],
    ), // d a
    ("set c 0 0 0||", "STORED|", &[("c", 0), ("d", QUARTER)]), // c d
    (
        "get d c d|",
        "VALUE d 0 262079|{262079x}|VALUE c 0 0||VALUE d 0 262079|{262079x}|END|",
        &[("c", 0), ("d", QUARTER)],
    ), // d c
    (
        "set e 0 0 786367|{786367x}|",
        "STORED|",
        &[("d", QUARTER), ("e", THREE_QUARTERS)],
    ), // e d
];

// Each step is the last one of a session of its own, so that asking what is held then does not change the order of use.
fn expect_steps<R: Abort + Threads + Wait + Sync>(
    rt: &R,
    alloc: Global,
    steps: &[Step],
) -> Result<(), AllocError> {
    let mut commands = Vec::new(alloc);
    let mut replies = Vec::new(alloc);
    for (command, reply, held) in steps {
        add_text(&mut commands, command)?;
        add_text(&mut replies, reply)?;
        let mut input = commands.clone()?;
        add_text(&mut input, "get a b c d e f s|")?;
        let mut output = replies.clone()?;
        for (key, len) in *held {
            add_text(
                &mut output,
                &format!(in alloc; "VALUE {key} 0 {len}|{{{len}x}}|")?,
            )?;
        }
        add_text(&mut output, "END|")?;
        let played = run_on(rt, alloc, ONE_MIB, input)?;
        expect_bytes(rt, command, played.world.sink.bytes(), &output);
        assert_eq!(rt; played.status, Status::Done, "{}", command);
    }
    Ok(())
}

#[test]
fn room_is_made_by_the_fewest_evictions(rt: HostRuntime) -> Result<(), Fail> {
    expect_steps(&rt, rt.alloc(), &ROOM_IS_MADE)?;
    Ok(())
}

#[test]
fn the_least_recently_used_goes_first(rt: HostRuntime) -> Result<(), Fail> {
    expect_steps(&rt, rt.alloc(), &ORDER_OF_USE)?;
    Ok(())
}

// An item that has expired counts until it is named: b goes, which was used before it. And a named one is gone, also
// where there is no room then.
#[test]
fn expired_items_count_until_they_are_named(rt: HostRuntime) -> Result<(), Fail> {
    for (seconds, input, output) in [
        (
            [0, 0, 5, 5],
            "set b 0 0 524223|{524223y}|set a 0 1 524223|{524223x}|set c 0 0 0||get a b c|",
            "STORED|STORED|STORED|VALUE c 0 0||END|",
        ),
        (
            [0, 0, 5, 5],
            "set s 0 -1 524223|{524223y}|set a 0 1 524223|{524223x}|set a 0 0 524224|{524224x}|add a 0 0 524223|{524223z}|get a s|",
            "STORED|STORED|SERVER_ERROR out of memory|STORED|VALUE a 0 524223|{524223z}|VALUE s 0 524223|{524223y}|END|",
        ),
    ] {
        let setting = Setting {
            seconds: &seconds,
            ..ONE_MIB
        };
        expect(&rt, rt.alloc(), setting, input, output, Status::Done)?;
    }
    Ok(())
}

// In each row the cache is full to its last byte before what it shows.
const COLLECTIONS: [(&str, &str); 8] = [
    // A list that grows evicts the oldest item and no more: a, of 500,065 bytes, and not b, of 515,582.
    (
        "set a 0 0 500000|{500000x}|set b 0 0 515517|{515517y}|lop insert l 0 32768 create 0 0 0|{32768z}|touch a 0|touch b 0|lop insert l 0 0||touch a 0|touch b 0|lop get l 0|",
        "STORED|STORED|CREATED_STORED|TOUCHED|TOUCHED|STORED|NOT_FOUND|TOUCHED|VALUE 0 1|0 |END|",
    ),
    // A value evicts a list, which was used before a.
    (
        "lop insert l 0 32768 create 0 0 0|{32768z}|set a 0 0 1015582|{1015582x}|set b 0 0 0||lop get l 0|touch a 0|",
        "CREATED_STORED|STORED|STORED|NOT_FOUND|TOUCHED|",
    ),
    // A request that the list refuses uses it: a goes.
    (
        "lop insert l 0 32768 create 0 0 0|{32768z}|set a 0 0 1015582|{1015582x}|lop delete l 9|set b 0 0 0||lop get l 1|touch a 0|",
        "CREATED_STORED|STORED|NOT_FOUND_ELEMENT|STORED|NOT_FOUND_ELEMENT|NOT_FOUND|",
    ),
    // A sticky set stays, though it was used before a.
    (
        "sop insert s 32768 create 0 -1 0|{32768z}|set a 0 0 1015582|{1015582x}|set b 0 0 0||touch a 0|sop exist s 1|x|",
        "CREATED_STORED|STORED|STORED|NOT_FOUND|NOT_EXIST|",
    ),
    // A list makes no room for itself. What it trims does: one byte for one, and 33 bytes for 32, but not 32 for 34.
    (
        "lop insert l 0 1 create 0 0 1|x|set a 0 -1 1048349|{1048349y}|lop insert l 0 2|zz|lop insert l 0 1|z|lop insert l -1 0||lop insert l 0 2|zz|lop get l 0..9|",
        "CREATED_STORED|STORED|SERVER_ERROR out of memory|STORED|STORED|SERVER_ERROR out of memory|VALUE 0 1|0 |END|",
    ),
    // Room is looked for last: a value that the set holds is told nevertheless.
    (
        "sop insert s 1 create 0 0 0|x|set a 0 -1 1048349|{1048349y}|sop insert s 1|y|sop insert s 1|x|sop get s 0|",
        "CREATED_STORED|STORED|SERVER_ERROR out of memory|ELEMENT_EXISTS|VALUE 0 1|1 x|END|",
    ),
    // A value of a map that is replaced by a larger one, by one of its size, and a new field.
    (
        "mop insert m f 1 create 0 0 0|x|set a 0 -1 1048348|{1048348y}|mop update m f 2|yy|mop upsert m f 2|yy|mop update m f 1|z|mop upsert m g 0||mop get m 0 0|",
        "CREATED_STORED|STORED|SERVER_ERROR out of memory|SERVER_ERROR out of memory|UPDATED|SERVER_ERROR out of memory|VALUE 0 1|f 1 z|END|",
    ),
    // A set evicts an empty list of its size. One that would be made with an element has no room, and s stays.
    (
        "set a 0 -1 1048382|{1048382y}|lop create l 0 0 0|sop create s 0 0 0|lop insert l 0 0 create 0 0 0||sop get s 0|lop get l 0|",
        "STORED|CREATED|CREATED|SERVER_ERROR out of memory|NOT_FOUND_ELEMENT|NOT_FOUND|",
    ),
];

#[test]
fn collections_are_items_like_others(rt: HostRuntime) -> Result<(), Fail> {
    expect_rows(&rt, rt.alloc(), ONE_MIB, &COLLECTIONS)?;
    Ok(())
}

//! Rows of the protocol: what a client sends, what it gets, and how the program ends.

use crate::harness::{
    AT_ONCE, BYTE_BY_BYTE, DEFAULT, ONE_MIB, Setting, converse, expect, expect_rows,
};
use arcus_tool::Status;
use std::test::Fail;

// What is sent, and what is answered. Each session comes to its end.
pub(crate) const ROWS: [(&str, &str); 16] = [
    ("", ""),
    ("set a 5 0 3|abc|get a|", "STORED|VALUE a 5 3|abc|END|"),
    // A line may end with LF alone.
    ("set a 5 0 3\nabc|get a\n", "STORED|VALUE a 5 3|abc|END|"),
    // A block that looks like a reply's end.
    ("set a 0 0 6|END|x|get a|", "STORED|VALUE a 0 6|END|x|END|"),
    // A block that does not end where it should; the LF left over is an empty line.
    (
        "set a 0 0 3|abcd|get a|",
        "CLIENT_ERROR bad data chunk|ERROR unknown command|END|",
    ),
    // Several keys, in the order in which they are asked for.
    (
        "set a 0 0 1|x|set b 0 0 1|y|get b a c|",
        "STORED|STORED|VALUE b 0 1|y|VALUE a 0 1|x|END|",
    ),
    ("bop get b 0|", "ERROR unknown command|"),
    ("touch a 0|", "NOT_FOUND|"),
    // A second value takes the place of the first.
    (
        "set a 1 0 1|x|set a 2 0 2|yz|get a|",
        "STORED|STORED|VALUE a 2 2|yz|END|",
    ),
    // A number missing: no request, and no block behind it.
    (
        "set a 0 0|get a|",
        "CLIENT_ERROR bad command line format|END|",
    ),
    // Counting up begins again at 0, and counting down ends there.
    ("set n 0 0 20|18446744073709551615|incr n 1|", "STORED|0|"),
    (
        "set n 0 0 1|3|decr n 5|get n|",
        "STORED|0|VALUE n 0 1|0|END|",
    ),
    (
        "set n 0 0 2|x1|incr n 1|",
        "STORED|CLIENT_ERROR cannot increment or decrement non-numeric value|",
    ),
    // No answer is sent where none is asked for.
    ("set a 0 0 1 noreply|x|get a|", "VALUE a 0 1|x|END|"),
    // Cas uniques count the stores.
    (
        "set a 0 0 1|x|gets a|cas a 0 0 1 2|y|cas a 0 0 1 1|y|append a 0 0 1|b|mget 3 2|a b|flush_all|get a|",
        "STORED|VALUE a 0 1 1|x|END|EXISTS|STORED|STORED|VALUE a 0 2|yb|END|OK|END|",
    ),
    // What is joined keeps the client flags that the item has.
    (
        "set a 7 -1 1|m|prepend a 1 0 2|xy|append a 2 0 1|z|get a|",
        "STORED|STORED|STORED|VALUE a 7 4|xymz|END|",
    ),
];

// Lists, sets and maps.
pub(crate) const ROWS_OF_COLLECTIONS: [(&str, &str); 9] = [
    // A list that trims its tail: it is read at its ends and past them, and then filled from both.
    (
        "lop create l 0 0 5|lop insert l -1 1|a|lop insert l -1 1|b|lop insert l -1 1|c|lop insert l -1 1|d|lop insert l -1 1|e|lop get l -1..-3|lop get l 3..9|lop insert l 6 1|f|lop insert l 0 1|f|lop insert l 5 1|g|lop get l 0..-1|",
        "CREATED|STORED|STORED|STORED|STORED|STORED|VALUE 0 3|1 e|1 d|1 c|END|VALUE 0 2|1 d|1 e|END|OUT_OF_RANGE|STORED|OUT_OF_RANGE|VALUE 0 5|1 f|1 a|1 b|1 c|1 d|END|",
    ),
    // A list that refuses what is too much.
    (
        "lop create l 0 0 2 error|lop insert l -1 1|a|lop insert l -1 1|b|lop insert l 0 1|c|",
        "CREATED|STORED|STORED|OVERFLOWED|",
    ),
    // A set that is made by its first element, and goes with its last.
    (
        "sop insert s 1 create 0 0 2|a|sop insert s 1|b|sop insert s 1|a|sop insert s 1|c|sop exist s 1|b|sop get s 1 delete|sop get s 0 drop|sop get s 0|",
        "CREATED_STORED|STORED|ELEMENT_EXISTS|OVERFLOWED|EXIST|VALUE 0 1|1 a|DELETED|VALUE 0 1|1 b|DELETED_DROPPED|NOT_FOUND|",
    ),
    // A map whose fields are read by name and all together.
    (
        "mop insert m f1 1 create 0 0 0|a|mop insert m f2 1|b|mop update m f1 2|cc|mop get m 5 2|f2 f1|mop get m 0 0|",
        "CREATED_STORED|STORED|UPDATED|VALUE 0 2|f2 1 b|f1 2 cc|END|VALUE 0 2|f1 2 cc|f2 1 b|END|",
    ),
    // A field that is named twice counts once.
    (
        "mop insert m f 1 create 0 0 0|a|mop insert m g 1|b|mop get m 5 3|g f g|",
        "CREATED_STORED|STORED|VALUE 0 2|g 1 b|f 1 a|END|",
    ),
    // An upsert puts a field or replaces its value.
    (
        "mop upsert m f1 1 create 0 0 0|a|mop upsert m f1 2|bb|mop upsert m f2 1|c|mop get m 0 0|version|",
        "CREATED_STORED|REPLACED|STORED|VALUE 0 2|f1 2 bb|f2 1 c|END|VERSION arcus-profile-2|",
    ),
    // Key-value commands on a list.
    (
        "lop create l 0 0 0|set l 0 0 1|x|get l|incr l 1|delete l|",
        "CREATED|TYPE_MISMATCH|END|TYPE_MISMATCH|DELETED|",
    ),
    // An element has 32,768 bytes at most.
    (
        "sop insert s 32769 create 0 0 0|{32769x}|sop get s 0|",
        "CLIENT_ERROR too large value|NOT_FOUND|",
    ),
    (
        "sop insert s 32768 create 0 0 0|{32768x}|sop get s 0|",
        "CREATED_STORED|VALUE 0 1|32768 {32768x}|END|",
    ),
];

// What commands for items of any kind do with collections, and those for one kind with the others.
const OTHER_KINDS: [(&str, &str); 12] = [
    (
        "lop create l 5 0 0|sop create s 6 0 0|mop create m 7 0 0|",
        "CREATED|CREATED|CREATED|",
    ),
    (
        "set l 0 0 1|x|add s 0 0 1|x|replace m 0 0 1|x|",
        "TYPE_MISMATCH|TYPE_MISMATCH|TYPE_MISMATCH|",
    ),
    (
        "append s 0 0 1|x|prepend m 0 0 1|x|cas l 0 0 1 0|x|",
        "TYPE_MISMATCH|TYPE_MISMATCH|TYPE_MISMATCH|",
    ),
    (
        "incr s 1|decr m 1 0 0 5|incr l 0|",
        "TYPE_MISMATCH|TYPE_MISMATCH|TYPE_MISMATCH|",
    ),
    // Retrievals pass over them, and making them has no cas unique.
    (
        "set k 1 0 1|x|get l k s m|mget 7 4|m l k s|gets s k m|",
        "STORED|VALUE k 1 1|x|END|VALUE k 1 1|x|END|VALUE k 1 1 1|x|END|",
    ),
    (
        "lop create k 0 0 0|sop create l 0 0 0|mop create m 0 0 0|",
        "EXISTS|EXISTS|EXISTS|",
    ),
    (
        "sop insert m 1 create 0 0 0|x|mop insert s f 1 create 0 0 0|x|lop insert m 0 1 create 0 0 0|x|",
        "TYPE_MISMATCH|TYPE_MISMATCH|TYPE_MISMATCH|",
    ),
    (
        "lop get s 0|sop get m 1|mop get l 0 0|",
        "TYPE_MISMATCH|TYPE_MISMATCH|TYPE_MISMATCH|",
    ),
    (
        "touch l -1|touch s 0|touch m 100|touch n 0|",
        "TOUCHED|TOUCHED|TOUCHED|NOT_FOUND|",
    ),
    (
        "delete s|delete s|sop create s 0 0 0|",
        "DELETED|NOT_FOUND|CREATED|",
    ),
    // The sticky list goes too.
    ("sop insert s 1|x|flush_all|", "STORED|OK|"),
    (
        "lop get l 0|sop get s 0|mop get m 0 0|get k|",
        "NOT_FOUND|NOT_FOUND|NOT_FOUND|END|",
    ),
];

// On a cache of 1 MiB.
const ROWS_OF_ONE_MIB: [(&str, &str); 3] = [
    // The cache is full to its last byte with a and b. What was used last stays, and b is evicted.
    (
        "set a 0 0 500000|{500000x}|set b 0 0 548446|{548446y}|get a|set c 0 0 0||get b|get a|",
        "STORED|STORED|VALUE a 0 500000|{500000x}|END|STORED|END|VALUE a 0 500000|{500000x}|END|",
    ),
    // Both are sticky: nothing can be evicted, and both stay.
    (
        "set a 0 -1 500000|{500000x}|set b 0 -1 548446|{548446y}|set c 0 0 0||get a b c|",
        "STORED|STORED|SERVER_ERROR out of memory|VALUE a 0 500000|{500000x}|VALUE b 0 548446|{548446y}|END|",
    ),
    // A sticky item stays, though it was used before the one that is evicted.
    (
        "set a 0 0 1|x|touch a -1|set b 0 0 1048445|{1048445y}|set c 0 0 0||get a|get b|",
        "STORED|TOUCHED|STORED|STORED|VALUE a 0 1|x|END|END|",
    ),
];

// The words, what is sent and what is answered, on a cache of 1 MiB with a share for sticky items.
const ROWS_OF_SHARES: [(&[&str], &str, &str); 6] = [
    // Half of the limit: a takes 500,065 of 524,288 bytes, and b fits with 24,223 and not with 24,224. A touch that would
    // pass the share is refused, and one that leaves it makes room.
    (
        &["session", "--limit", "1", "--sticky", "50"],
        "set a 0 -1 500000|{500000x}|set b 0 -1 24159|{24159y}|set b 0 -1 24158|{24158y}|set c 0 0 0||touch c -1|touch a 0|touch c -1|get c|",
        "STORED|SERVER_ERROR out of memory|STORED|STORED|SERVER_ERROR out of memory|TOUCHED|TOUCHED|VALUE c 0 0||END|",
    ),
    // No share at all.
    (
        &["session", "--sticky=0", "--limit=1"],
        "set a 0 -1 0||get a|set a 0 0 0||touch a -1|get a|",
        "SERVER_ERROR out of memory|END|STORED|SERVER_ERROR out of memory|VALUE a 0 0||END|",
    ),
    // A sticky item that takes the place of another is charged what it is larger.
    (
        &["session", "--sticky", "50", "--limit", "1"],
        "set a 0 -1 500000|{500000x}|set a 0 -1 524223|{524223y}|set a 0 -1 524224|{524224z}|incr a 1|append a 0 0 1|y|",
        "STORED|STORED|SERVER_ERROR out of memory|CLIENT_ERROR cannot increment or decrement non-numeric value|SERVER_ERROR out of memory|",
    ),
    // The share is no limit of the others, and evicting them makes no room in it.
    (
        &["session", "--limit=1", "--sticky=50"],
        "set a 0 0 600000|{600000x}|set b 0 -1 524224|{524224y}|set b 0 -1 100000|{100000y}|get a|set b 0 -1 500000|{500000y}|get a|",
        "STORED|SERVER_ERROR out of memory|STORED|VALUE a 0 600000|{600000x}|END|STORED|END|",
    ),
    // Collections that are made sticky, or get to be.
    (
        &["session", "--limit", "1", "--sticky", "0"],
        "lop create l 0 -1 0|lop create l 0 0 0|touch l -1|sop insert s 1 create 0 -1 0|x|lop get l 0|sop get s 0|",
        "SERVER_ERROR out of memory|CREATED|SERVER_ERROR out of memory|SERVER_ERROR out of memory|NOT_FOUND_ELEMENT|NOT_FOUND|",
    ),
    // The list of 162 bytes and a of 524,126 fill the share. The list grows where it is no longer sticky, and is then too
    // large to be sticky again.
    (
        &["session", "--limit", "1", "--sticky", "50"],
        "lop insert l 0 1 create 0 -1 0|x|set a 0 -1 524061|{524061y}|lop insert l 0 0||touch l 0|lop insert l 0 0||touch l -1|lop get l 0..1|",
        "CREATED_STORED|STORED|SERVER_ERROR out of memory|TOUCHED|STORED|SERVER_ERROR out of memory|VALUE 0 2|0 |1 x|END|",
    ),
];

#[test]
fn sticky_items_keep_to_their_share(rt: HostRuntime) -> Result<(), Fail> {
    for (words, input, output) in ROWS_OF_SHARES {
        let setting = Setting { words, ..DEFAULT };
        expect(&rt, rt.alloc(), setting, input, output, Status::Done)?;
    }
    Ok(())
}

#[test]
fn each_row_is_answered(rt: HostRuntime) -> Result<(), Fail> {
    for (input, output) in ROWS {
        for setting in [DEFAULT, BYTE_BY_BYTE] {
            expect(&rt, rt.alloc(), setting, input, output, Status::Done)?;
        }
    }
    for (input, output) in ROWS_OF_ONE_MIB {
        expect(&rt, rt.alloc(), ONE_MIB, input, output, Status::Done)?;
    }
    Ok(())
}

#[test]
fn each_row_on_a_collection_is_answered(rt: HostRuntime) -> Result<(), Fail> {
    for setting in [DEFAULT, BYTE_BY_BYTE] {
        expect_rows(&rt, rt.alloc(), setting, &ROWS_OF_COLLECTIONS)?;
    }
    converse(&rt, rt.alloc(), DEFAULT, &OTHER_KINDS)?;
    Ok(())
}

// The input ends within a block; and a line that is too long ends the session.
#[test]
fn sessions_end_early(rt: HostRuntime) -> Result<(), Fail> {
    let cut = Status::CutInput(16);
    expect(&rt, rt.alloc(), DEFAULT, "set a 0 0 9|abc", "", cut)?;
    assert_eq!(rt; cut.exit_status(), 8);
    let answer = "CLIENT_ERROR line too long|";
    expect(
        &rt,
        rt.alloc(),
        DEFAULT,
        "{65536x}",
        answer,
        Status::LineTooLong,
    )?;
    assert_eq!(rt; Status::LineTooLong.exit_status(), 9);
    Ok(())
}

// The second pull fails, after a whole unit; and a push fails.
#[test]
fn faults_end_the_session(rt: HostRuntime) -> Result<(), Fail> {
    let second_pull = Setting {
        failing_pulls: &[1],
        ..DEFAULT
    };
    let input = "set a 5 0 3|abc|";
    expect(
        &rt,
        rt.alloc(),
        second_pull,
        input,
        "STORED|",
        Status::ReadFault,
    )?;
    let first_push = Setting {
        failing_pushes: &[0],
        ..DEFAULT
    };
    let input = "set a 5 0 3|abc|get a|";
    expect(&rt, rt.alloc(), first_push, input, "", Status::WriteFault)?;
    // The first pull brings the line with its block, whose text is sent before the second.
    let second_push = Setting {
        most: 18,
        failing_pushes: &[1],
        ..DEFAULT
    };
    expect(
        &rt,
        rt.alloc(),
        second_push,
        input,
        "STORED|",
        Status::WriteFault,
    )?;
    Ok(())
}

#[test]
fn other_words_are_refused(rt: HostRuntime) -> Result<(), Fail> {
    let rows: [(&[&str], usize); 12] = [
        (&[], 0),
        (&["sessions"], 0),
        (&["--limit", "1"], 0),
        (&["session", "-"], 1),
        (&["session", "--limit"], 2),
        (&["session", "--limit", "0"], 2),
        (&["session", "--limit", "4097"], 2),
        (&["session", "--limit=064"], 1),
        (&["session", "--limit", "1", "--limit", "1"], 3),
        (&["session", "--sticky"], 2),
        (&["session", "--sticky", "101"], 2),
        (&["session", "--sticky=50", "--limit=1", "--sticky=50"], 3),
    ];
    for (words, place) in rows {
        let setting = Setting { words, ..DEFAULT };
        expect(
            &rt,
            rt.alloc(),
            setting,
            "get a|",
            "",
            Status::BadWords(place),
        )?;
    }
    Ok(())
}

// Values of 0 bytes, of the most bytes that there may be, and of one more.
#[test]
fn values_have_a_limit(rt: HostRuntime) -> Result<(), Fail> {
    for (input, output) in [
        ("set a 0 0 0||get b|", "STORED|END|"),
        ("set a 0 0 1048576|{1048576x}|get b|", "STORED|END|"),
        (
            "set a 0 0 1048577|{1048577x}|get b|",
            "CLIENT_ERROR too large value|END|",
        ),
        (
            "set a 0 0 1048576|{1048576x}|append a 0 0 1|y|get b|",
            "STORED|CLIENT_ERROR too large value|END|",
        ),
        (
            "set a 3 0 1048575|{1048575x}|append a 0 0 1|y|get a|",
            "STORED|STORED|VALUE a 3 1048576|{1048575x1y}|END|",
        ),
        (
            "set a 3 0 1048575|{1048575x}|prepend a 0 0 2|yy|prepend a 0 0 1|y|get a|",
            "STORED|CLIENT_ERROR too large value|STORED|VALUE a 3 1048576|{1y1048575x}|END|",
        ),
    ] {
        expect(&rt, rt.alloc(), DEFAULT, input, output, Status::Done)?;
    }
    Ok(())
}

// The seconds at which the requests come, what is asked then, and what is answered.
const TIMES: [(&[u32], &str, &str); 15] = [
    // So many seconds from now, 30 days at most.
    (&[1000, 1010], "set a 0 10 1|x|get a|", "STORED|END|"),
    (
        &[1000, 1009],
        "set a 0 10 1|x|get a|",
        "STORED|VALUE a 0 1|x|END|",
    ),
    (
        &[1000, 2_592_999, 2_593_000],
        "set a 0 2592000 1|x|get a|get a|",
        "STORED|VALUE a 0 1|x|END|END|",
    ),
    // Above that, the second itself.
    (
        &[1000, 2_592_000, 2_592_001],
        "set a 0 2592001 1|x|get a|get a|",
        "STORED|VALUE a 0 1|x|END|END|",
    ),
    // Below -1 at once.
    (&[0], "set a 0 -2 1|x|get a|", "STORED|END|"),
    // Lines that are no request, and a bad block, do not ask for the second.
    (
        &[1000, 1009, 1010],
        "set a 0 10 1|x|get|got|set a 0 0 1|xyzget a|get a|",
        "STORED|CLIENT_ERROR bad command line format|ERROR unknown command|CLIENT_ERROR bad data chunk|VALUE a 0 1|x|END|END|",
    ),
    // A clock that goes back makes nothing younger, whatever request came with the greatest second.
    (
        &[1000, 1010, 5],
        "set a 0 10 1|x|version|get a|",
        "STORED|VERSION arcus-profile-2|END|",
    ),
    // touch gives a new expiry, and an expired item is none.
    (
        &[1000, 1005, 1014, 1015],
        "set a 0 10 1|x|touch a 10|get a|touch a 0|",
        "STORED|TOUCHED|VALUE a 0 1|x|END|NOT_FOUND|",
    ),
    // A count keeps the expiry of its item; an item that has expired is stored anew.
    (
        &[1000, 1009, 1010, 1010, 1010],
        "set n 5 10 1|7|incr n 1|incr n 1|add n 6 0 1|3|get n|",
        "STORED|8|NOT_FOUND|STORED|VALUE n 6 1|3|END|",
    ),
    // A list, whose elements do not change when it expires.
    (
        &[1000, 1009, 1009, 1010],
        "lop create l 0 10 0|lop insert l 0 1|x|lop get l 0|lop get l 0|",
        "CREATED|STORED|VALUE 0 1|1 x|END|NOT_FOUND|",
    ),
    // touch gives a collection a new expiry, and says nothing of one that has expired.
    (
        &[1000, 1005, 1010, 1014, 1015],
        "sop insert s 1 create 0 10 0|a|touch s 10|sop exist s 1|a|sop get s 0|touch s 0|",
        "CREATED_STORED|TOUCHED|EXIST|VALUE 0 1|1 a|END|NOT_FOUND|",
    ),
    // A map that has expired is none: it is made anew, with the element that the insert brings alone.
    (
        &[1000, 1001, 1010, 1010],
        "mop insert m f 1 create 0 10 0|a|mop insert m g 1|b|mop insert m f 1 create 3 0 0|c|mop get m 0 0|",
        "CREATED_STORED|STORED|CREATED_STORED|VALUE 3 1|f 1 c|END|",
    ),
    // One that expires at once.
    (
        &[0],
        "lop insert l 0 1 create 0 -2 0|x|lop get l 0|lop create l 0 -2 0|lop create l 0 0 0|lop get l 0|",
        "CREATED_STORED|NOT_FOUND|CREATED|CREATED|NOT_FOUND_ELEMENT|",
    ),
    // Where an item has expired, one of another kind may be stored.
    (
        &[1000, 1010],
        "set a 0 10 1|x|sop insert a 1 create 0 0 0|y|sop get a 1|",
        "STORED|CREATED_STORED|VALUE 0 1|1 y|END|",
    ),
    (
        &[1000, 1009, 1010],
        "lop create a 0 10 0|set a 0 0 1|x|set a 0 0 1|x|get a|",
        "CREATED|TYPE_MISMATCH|STORED|VALUE a 0 1|x|END|",
    ),
];

#[test]
fn items_expire(rt: HostRuntime) -> Result<(), Fail> {
    for (seconds, input, output) in TIMES {
        let setting = Setting { seconds, ..DEFAULT };
        expect(&rt, rt.alloc(), setting, input, output, Status::Done)?;
    }
    Ok(())
}

// The text does not depend on the pieces in which the input comes, within lines, blocks and line ends.
#[test]
fn pieces_do_not_matter(rt: HostRuntime) -> Result<(), Fail> {
    for most in [1, 2, 3, 5, 7, 11, 16_384, AT_ONCE] {
        let setting = Setting { most, ..DEFAULT };
        let input =
            "set a 1 0 14|END|get a|12|set b 0 0 2 noreply|abcd|got|mget 3 2|a b|quit|get a|";
        let output =
            "STORED|ERROR unknown command|ERROR unknown command|VALUE a 1 14|END|get a|12|END|";
        expect(&rt, rt.alloc(), setting, input, output, Status::Done)?;
    }
    Ok(())
}

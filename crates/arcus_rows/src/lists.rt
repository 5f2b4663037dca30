//! Lists: what each `lop` command is answered, and what the list holds then.

use crate::harness::{DEFAULT, add_text, bytes_of, converse, expect_bytes, run_on};
use arcus_tool::Status;
use std::test::Fail;

// Where no list is held, where it is not readable, and where it is empty.
const WITHOUT_ELEMENTS: [(&str, &str); 11] = [
    (
        "lop get l 0|lop delete l 0..-1 drop|lop insert l 0 1|x|",
        "NOT_FOUND|NOT_FOUND|NOT_FOUND|",
    ),
    // Items of other kinds, also one that is not readable.
    (
        "set k 0 0 1|x|sop create s 0 0 0 unreadable|",
        "STORED|CREATED|",
    ),
    ("lop create k 0 0 0|lop create s 0 0 0|", "EXISTS|EXISTS|"),
    (
        "lop insert k 0 1|x|lop insert s 9 1 create 0 0 0|x|",
        "TYPE_MISMATCH|TYPE_MISMATCH|",
    ),
    (
        "lop delete k 0|lop delete s 0..9 drop|",
        "TYPE_MISMATCH|TYPE_MISMATCH|",
    ),
    (
        "lop get k 0|lop get s 0 drop|",
        "TYPE_MISMATCH|TYPE_MISMATCH|",
    ),
    // A list that is not readable takes inserts and deletes. No read is looked at further.
    (
        "lop create r 0 0 0 error unreadable|lop get r 0|lop insert r 0 1|x|",
        "CREATED|UNREADABLE|STORED|",
    ),
    ("lop get r 0..9|lop get r 0 drop|", "UNREADABLE|UNREADABLE|"),
    (
        "lop delete r 0 drop|lop get r 0|",
        "DELETED_DROPPED|NOT_FOUND|",
    ),
    // An empty list has no element to read or to delete, and is not dropped then.
    (
        "lop create e 0 0 0|lop get e 0|lop get e 0..-1|lop delete e -1|lop delete e 0..9 drop|",
        "CREATED|NOT_FOUND_ELEMENT|NOT_FOUND_ELEMENT|NOT_FOUND_ELEMENT|NOT_FOUND_ELEMENT|",
    ),
    // Its only place is the first one, which is the last one.
    (
        "lop insert e 1 1|x|lop insert e -2 1|x|lop insert e -1 1|x|lop get e 0|",
        "OUT_OF_RANGE|OUT_OF_RANGE|STORED|VALUE 0 1|1 x|END|",
    ),
];

// Lists that are made by an insert.
const CREATION: [(&str, &str); 6] = [
    // An index that is no place of an empty list: nothing is made.
    (
        "lop insert l 1 1 create 0 0 0|x|lop insert l -2 1 create 0 0 0|x|lop get l 0|",
        "OUT_OF_RANGE|OUT_OF_RANGE|NOT_FOUND|",
    ),
    (
        "lop insert l 0 1 create 7 0 2 error|a|lop get l 0|",
        "CREATED_STORED|VALUE 7 1|1 a|END|",
    ),
    // Where it is there already, the attributes count for nothing.
    (
        "lop insert l -1 1 create 9 0 1 head_trim unreadable|b|lop get l 0..1|lop insert l 0 1|c|",
        "STORED|VALUE 7 2|1 a|1 b|END|OVERFLOWED|",
    ),
    (
        "lop insert n -1 0 create 0 0 0 unreadable||lop get n 0|lop insert n -1 0||lop delete n 0|",
        "CREATED_STORED|UNREADABLE|STORED|DELETED|",
    ),
    // Where no action is named, a full list trims its tail.
    (
        "lop insert d 0 1 create 0 0 1|a|lop insert d 0 1|b|lop insert d 1 1|c|lop get d 0|",
        "CREATED_STORED|STORED|OUT_OF_RANGE|VALUE 0 1|1 b|END|",
    ),
    (
        "lop insert d -1 1|c|lop insert d -2 1|d|lop get d 0..9|",
        "STORED|STORED|VALUE 0 1|1 d|END|",
    ),
];

// Full lists, by their actions.
const FULL: [(&str, &str); 14] = [
    (
        "lop create e 0 0 2 error|lop insert e -1 1|a|lop insert e -1 1|b|",
        "CREATED|STORED|STORED|",
    ),
    (
        "lop insert e 0 1|c|lop insert e 1 1|c|lop insert e 2 1|c|lop insert e -1 1|c|",
        "OVERFLOWED|OVERFLOWED|OVERFLOWED|OVERFLOWED|",
    ),
    // An index that is no place is refused as such, full or not.
    (
        "lop insert e 3 1|c|lop insert e -4 1|c|lop get e 0..-1|",
        "OUT_OF_RANGE|OUT_OF_RANGE|VALUE 0 2|1 a|1 b|END|",
    ),
    (
        "lop create h 0 0 3 head_trim|lop insert h 0 1|a|lop insert h 1 1|b|lop insert h 2 1|c|",
        "CREATED|STORED|STORED|STORED|",
    ),
    // At index 0 the tail is trimmed, and at -1 the head.
    (
        "lop insert h 0 1|x|lop get h 0..-1|",
        "STORED|VALUE 0 3|1 x|1 a|1 b|END|",
    ),
    (
        "lop insert h -1 1|y|lop get h 0..-1|",
        "STORED|VALUE 0 3|1 a|1 b|1 y|END|",
    ),
    // At any other index it is the action's end: z b y, b y w and v y w.
    (
        "lop insert h 1 1|z|lop insert h 3 1|w|lop insert h -3 1|v|lop get h 0..-1|",
        "STORED|STORED|STORED|VALUE 0 3|1 v|1 y|1 w|END|",
    ),
    // An element that would itself be trimmed is refused.
    (
        "lop insert h -4 1|u|lop insert h 4 1|u|lop insert h -5 1|u|lop get h 0..-1|",
        "OUT_OF_RANGE|OUT_OF_RANGE|OUT_OF_RANGE|VALUE 0 3|1 v|1 y|1 w|END|",
    ),
    (
        "lop create t 0 0 3 tail_trim|lop insert t -1 1|c|lop insert t -2 1|b|lop insert t -3 1|a|",
        "CREATED|STORED|STORED|STORED|",
    ),
    (
        "lop insert t 0 1|x|lop get t 0..-1|",
        "STORED|VALUE 0 3|1 x|1 a|1 b|END|",
    ),
    (
        "lop insert t -1 1|y|lop get t 0..-1|",
        "STORED|VALUE 0 3|1 a|1 b|1 y|END|",
    ),
    // a z b, a z w and v a z.
    (
        "lop insert t 1 1|z|lop insert t -2 1|w|lop insert t -4 1|v|lop get t 0..-1|",
        "STORED|STORED|STORED|VALUE 0 3|1 v|1 a|1 z|END|",
    ),
    (
        "lop insert t 3 1|u|lop insert t 4 1|u|lop insert t -5 1|u|lop get t 0..-1|",
        "OUT_OF_RANGE|OUT_OF_RANGE|OUT_OF_RANGE|VALUE 0 3|1 v|1 a|1 z|END|",
    ),
    // One that has lost an element is full no more.
    (
        "lop delete t 1|lop insert t 2 1|u|lop get t 0..-1|",
        "DELETED|STORED|VALUE 0 3|1 v|1 z|1 u|END|",
    ),
];

// Parts of a list of five elements.
const RANGES: [(&str, &str); 12] = [
    (
        "lop create l 3 0 5|lop insert l -1 1|a|lop insert l -1 1|b|lop insert l -1 1|c|lop insert l -1 1|d|lop insert l -1 1|e|",
        "CREATED|STORED|STORED|STORED|STORED|STORED|",
    ),
    // Upwards, downwards, and from one place to itself.
    ("lop get l 0..2|", "VALUE 3 3|1 a|1 b|1 c|END|"),
    ("lop get l -3..-1|", "VALUE 3 3|1 c|1 d|1 e|END|"),
    ("lop get l 3..1|", "VALUE 3 3|1 d|1 c|1 b|END|"),
    ("lop get l -1..0|", "VALUE 3 5|1 e|1 d|1 c|1 b|1 a|END|"),
    ("lop get l 2..-3|", "VALUE 3 1|1 c|END|"),
    // What the list does not have is cut off, and the direction stays.
    (
        "lop get l 3..9|lop get l 9..3|",
        "VALUE 3 2|1 d|1 e|END|VALUE 3 2|1 e|1 d|END|",
    ),
    (
        "lop get l -9..1|lop get l 1..-9|",
        "VALUE 3 2|1 a|1 b|END|VALUE 3 2|1 b|1 a|END|",
    ),
    (
        "lop get l 5..9|lop get l -9..-6|lop get l 9..5|",
        "NOT_FOUND_ELEMENT|NOT_FOUND_ELEMENT|NOT_FOUND_ELEMENT|",
    ),
    // One index is not cut to the list.
    (
        "lop get l 4|lop get l -5|",
        "VALUE 3 1|1 e|END|VALUE 3 1|1 a|END|",
    ),
    (
        "lop get l 5|lop get l -6|",
        "NOT_FOUND_ELEMENT|NOT_FOUND_ELEMENT|",
    ),
    (
        "lop delete l 5|lop delete l -6|lop delete l 7..9 drop|lop get l 5 drop|",
        "NOT_FOUND_ELEMENT|NOT_FOUND_ELEMENT|NOT_FOUND_ELEMENT|NOT_FOUND_ELEMENT|",
    ),
];

// What goes, and when the list goes with it.
const REMOVAL: [(&str, &str); 9] = [
    (
        "lop create l 0 0 0|lop insert l 0 1|a|lop insert l 1 1|b|lop insert l 2 1|c|lop insert l 3 1|d|lop insert l 4 1|e|",
        "CREATED|STORED|STORED|STORED|STORED|STORED|",
    ),
    (
        "lop delete l 2..1|lop get l 0..-1|",
        "DELETED|VALUE 0 3|1 a|1 d|1 e|END|",
    ),
    (
        "lop get l -1..-2 delete|lop get l 0..-1|",
        "VALUE 0 2|1 e|1 d|DELETED|VALUE 0 1|1 a|END|",
    ),
    // An empty list stays.
    (
        "lop get l 0..9 delete|lop get l 0|lop insert l 0 1|f|",
        "VALUE 0 1|1 a|DELETED|NOT_FOUND_ELEMENT|STORED|",
    ),
    ("lop delete l -1|lop create l 0 0 0|", "DELETED|EXISTS|"),
    // With `drop` it goes, where no element is left.
    (
        "lop insert l 0 1|a|lop insert l 0 1|b|lop get l 0 drop|lop delete l -1..-1 drop|lop get l 0|",
        "STORED|STORED|VALUE 0 1|1 b|DELETED|DELETED_DROPPED|NOT_FOUND|",
    ),
    (
        "lop insert l 0 1 create 0 0 0|a|lop insert l 1 1|b|lop delete l 0 drop|lop get l 9..0 drop|lop delete l 0|",
        "CREATED_STORED|STORED|DELETED|VALUE 0 1|1 b|DELETED_DROPPED|NOT_FOUND|",
    ),
    // Elements of any bytes, and of none.
    (
        "lop insert l 0 5 create 0 0 0|END||lop insert l -1 0||lop get l 0..1|",
        "CREATED_STORED|STORED|VALUE 0 2|5 END||0 |END|",
    ),
    ("lop get l -1 drop|", "VALUE 0 1|0 |DELETED|"),
];

#[test]
fn lists_without_elements(rt: HostRuntime) -> Result<(), Fail> {
    converse(&rt, rt.alloc(), DEFAULT, &WITHOUT_ELEMENTS)?;
    converse(&rt, rt.alloc(), DEFAULT, &CREATION)?;
    Ok(())
}

#[test]
fn full_lists_do_what_their_action_says(rt: HostRuntime) -> Result<(), Fail> {
    converse(&rt, rt.alloc(), DEFAULT, &FULL)?;
    Ok(())
}

#[test]
fn parts_of_lists_are_read_and_removed(rt: HostRuntime) -> Result<(), Fail> {
    converse(&rt, rt.alloc(), DEFAULT, &RANGES)?;
    converse(&rt, rt.alloc(), DEFAULT, &REMOVAL)?;
    Ok(())
}

// A maxcount of 0 stands for 4,000.
#[test]
fn a_list_may_hold_4000_elements(rt: HostRuntime) -> Result<(), Fail> {
    let alloc = rt.alloc();
    let mut input = bytes_of(alloc, "lop create l 0 0 0 error|")?;
    for _ in 0..3999 {
        add_text(&mut input, "lop insert l -1 0 noreply||")?;
    }
    add_text(
        &mut input,
        "lop insert l -1 1|x|lop insert l -1 1|y|lop get l -1|lop get l 4000|",
    )?;
    let wanted = bytes_of(
        alloc,
        "CREATED|STORED|OVERFLOWED|VALUE 0 1|1 x|END|NOT_FOUND_ELEMENT|",
    )?;
    let played = run_on(&rt, alloc, DEFAULT, input)?;
    expect_bytes(&rt, "4,001 inserts", played.world.sink.bytes(), &wanted);
    assert_eq!(rt; played.status, Status::Done);
    Ok(())
}

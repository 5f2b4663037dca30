//! Sets: what each `sop` command is answered, and what the set holds then.

use crate::harness::{DEFAULT, converse};
use std::test::Fail;

// Where no set is held, where it is not readable, and where it is empty.
const WITHOUT_ELEMENTS: [(&str, &str); 11] = [
    (
        "sop get s 0|sop exist s 1|x|sop delete s 1|x|sop insert s 1|x|",
        "NOT_FOUND|NOT_FOUND|NOT_FOUND|NOT_FOUND|",
    ),
    // Items of other kinds, also one that is not readable.
    (
        "set k 0 0 1|x|mop create m 0 0 0 unreadable|",
        "STORED|CREATED|",
    ),
    ("sop create k 0 0 0|sop create m 0 0 0|", "EXISTS|EXISTS|"),
    (
        "sop insert k 1 create 0 0 0|x|sop insert m 1|x|",
        "TYPE_MISMATCH|TYPE_MISMATCH|",
    ),
    (
        "sop delete k 1|x|sop delete m 1 drop|x|",
        "TYPE_MISMATCH|TYPE_MISMATCH|",
    ),
    (
        "sop exist k 1|x|sop exist m 1|x|",
        "TYPE_MISMATCH|TYPE_MISMATCH|",
    ),
    (
        "sop get k 0|sop get m 0 drop|",
        "TYPE_MISMATCH|TYPE_MISMATCH|",
    ),
    // A set that is not readable takes inserts and deletes, which tell what it holds. It answers no read.
    (
        "sop insert r 1 create 0 0 0 unreadable|a|sop insert r 1|b|sop insert r 1|a|",
        "CREATED_STORED|STORED|ELEMENT_EXISTS|",
    ),
    (
        "sop get r 1|sop get r 1 delete|sop exist r 1|a|",
        "UNREADABLE|UNREADABLE|UNREADABLE|",
    ),
    (
        "sop delete r 1|x|sop delete r 1 drop|a|sop delete r 1 drop|b|sop exist r 1|b|",
        "NOT_FOUND_ELEMENT|DELETED|DELETED_DROPPED|NOT_FOUND|",
    ),
    // An empty set is not dropped where nothing goes.
    (
        "sop create e 0 0 0|sop get e 0|sop get e 1 drop|sop exist e 0||sop delete e 0 drop||sop get e 0|",
        "CREATED|NOT_FOUND_ELEMENT|NOT_FOUND_ELEMENT|NOT_EXIST|NOT_FOUND_ELEMENT|NOT_FOUND_ELEMENT|",
    ),
];

// What a set holds, in the order of insertion.
const ELEMENTS: [(&str, &str); 13] = [
    (
        "sop insert s 1 create 4 0 3 error|a|sop insert s 2|bb|sop insert s 0||",
        "CREATED_STORED|STORED|STORED|",
    ),
    // The set is full. A value that it holds is told first, and attributes count for nothing.
    (
        "sop insert s 1|c|sop insert s 2|bb|sop insert s 1 create 0 0 9|c|",
        "OVERFLOWED|ELEMENT_EXISTS|OVERFLOWED|",
    ),
    (
        "sop exist s 2|bb|sop exist s 0||sop exist s 1|b|sop exist s 2|BB|",
        "EXIST|EXIST|NOT_EXIST|NOT_EXIST|",
    ),
    // So many from the first one on, and all for 0.
    ("sop get s 0|", "VALUE 4 3|1 a|2 bb|0 |END|"),
    (
        "sop get s 1|sop get s 2|",
        "VALUE 4 1|1 a|END|VALUE 4 2|1 a|2 bb|END|",
    ),
    (
        "sop get s 3|sop get s 4|",
        "VALUE 4 3|1 a|2 bb|0 |END|VALUE 4 3|1 a|2 bb|0 |END|",
    ),
    // The rest keeps its order, and what is inserted again comes last.
    (
        "sop delete s 1|a|sop insert s 1|a|sop get s 0|",
        "DELETED|STORED|VALUE 4 3|2 bb|0 |1 a|END|",
    ),
    (
        "sop delete s 1|b|sop delete s 1 drop|x|",
        "NOT_FOUND_ELEMENT|NOT_FOUND_ELEMENT|",
    ),
    (
        "sop get s 1 drop|sop get s 9 delete|sop get s 0|",
        "VALUE 4 1|2 bb|DELETED|VALUE 4 2|0 |1 a|DELETED|NOT_FOUND_ELEMENT|",
    ),
    // An empty set stays.
    (
        "sop insert s 1|d|sop delete s 1|d|sop create s 0 0 0|",
        "STORED|DELETED|EXISTS|",
    ),
    // With `drop` it goes, where no element is left.
    (
        "sop insert s 1|d|sop insert s 1|e|sop delete s 1 drop|d|sop delete s 1 drop|e|sop exist s 1|e|",
        "STORED|STORED|DELETED|DELETED_DROPPED|NOT_FOUND|",
    ),
    (
        "sop insert s 1 create 0 0 0|d|sop insert s 1|e|sop get s 1 drop|sop get s 0 drop|sop get s 0|",
        "CREATED_STORED|STORED|VALUE 0 1|1 d|DELETED|VALUE 0 1|1 e|DELETED_DROPPED|NOT_FOUND|",
    ),
    // Elements of any bytes.
    (
        "sop insert s 4 create 0 0 0|a|b|sop exist s 4|a|b|sop exist s 1|a|sop get s 0|",
        "CREATED_STORED|EXIST|NOT_EXIST|VALUE 0 1|4 a|b|END|",
    ),
];

#[test]
fn sets_without_elements(rt: HostRuntime) -> Result<(), Fail> {
    converse(&rt, rt.alloc(), DEFAULT, &WITHOUT_ELEMENTS)?;
    Ok(())
}

#[test]
fn sets_hold_each_value_once(rt: HostRuntime) -> Result<(), Fail> {
    converse(&rt, rt.alloc(), DEFAULT, &ELEMENTS)?;
    Ok(())
}

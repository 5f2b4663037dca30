//! Maps: what each `mop` command is answered, and what the map holds then.

use crate::harness::{DEFAULT, converse};
use std::test::Fail;

// Where no map is held, where it is not readable, and where it is empty.
const WITHOUT_FIELDS: [(&str, &str); 11] = [
    (
        "mop get m 0 0|mop get m 1 1|f|mop delete m 0 0|mop delete m 1 1 drop|f|",
        "NOT_FOUND|NOT_FOUND|NOT_FOUND|NOT_FOUND|",
    ),
    (
        "mop insert m f 1|x|mop update m f 1|x|mop upsert m f 1|x|",
        "NOT_FOUND|NOT_FOUND|NOT_FOUND|",
    ),
    // Items of other kinds, also one that is not readable.
    (
        "set k 0 0 1|x|lop create l 0 0 0 unreadable|",
        "STORED|CREATED|",
    ),
    ("mop create k 0 0 0|mop create l 0 0 0|", "EXISTS|EXISTS|"),
    (
        "mop insert k f 1 create 0 0 0|x|mop update l f 1|x|mop upsert k f 1 create 0 0 0|x|",
        "TYPE_MISMATCH|TYPE_MISMATCH|TYPE_MISMATCH|",
    ),
    (
        "mop delete k 0 0|mop delete l 1 1 drop|f|mop get k 1 1|f|mop get l 0 0|",
        "TYPE_MISMATCH|TYPE_MISMATCH|TYPE_MISMATCH|TYPE_MISMATCH|",
    ),
    // A map that is not readable takes changes, which tell what it holds. It answers no read.
    (
        "mop insert r f 1 create 0 0 0 unreadable|a|mop insert r f 1|b|mop upsert r f 1|b|mop update r f 1|c|mop upsert r g 1|d|",
        "CREATED_STORED|ELEMENT_EXISTS|REPLACED|UPDATED|STORED|",
    ),
    (
        "mop get r 1 1|f|mop get r 1 1|x|mop get r 0 0 drop|",
        "UNREADABLE|UNREADABLE|UNREADABLE|",
    ),
    (
        "mop delete r 1 1|x|mop delete r 1 1 drop|f|mop delete r 0 0 drop|mop get r 0 0|",
        "NOT_FOUND_ELEMENT|DELETED|DELETED_DROPPED|NOT_FOUND|",
    ),
    // An empty map is not dropped where nothing goes.
    (
        "mop create e 0 0 0|mop get e 0 0|mop get e 1 1 drop|f|mop delete e 0 0 drop|mop delete e 1 1 drop|f|",
        "CREATED|NOT_FOUND_ELEMENT|NOT_FOUND_ELEMENT|NOT_FOUND_ELEMENT|NOT_FOUND_ELEMENT|",
    ),
    (
        "mop update e f 1|x|mop upsert e f 1|x|mop get e 0 0|",
        "NOT_FOUND_ELEMENT|STORED|VALUE 0 1|f 1 x|END|",
    ),
];

// What a map holds, in the order of insertion.
const FIELDS: [(&str, &str); 14] = [
    (
        "mop insert m f 1 create 2 0 3 error|a|mop insert m g 1|b|mop insert m h 0||",
        "CREATED_STORED|STORED|STORED|",
    ),
    // The map is full.
    (
        "mop insert m i 1|x|mop upsert m i 1 create 0 0 9|x|mop update m i 1|x|",
        "OVERFLOWED|OVERFLOWED|NOT_FOUND_ELEMENT|",
    ),
    // A field that it holds is told first; its value is replaced in its place.
    (
        "mop insert m g 1|x|mop upsert m g 2|cc|mop update m f 3|ddd|mop get m 0 0|",
        "ELEMENT_EXISTS|REPLACED|UPDATED|VALUE 2 3|f 3 ddd|g 2 cc|h 0 |END|",
    ),
    // In the order in which fields are named: one that is named twice counts at its first place, and an unknown one not.
    ("mop get m 3 2|h f|", "VALUE 2 2|h 0 |f 3 ddd|END|"),
    ("mop get m 9 5|g x g f g|", "VALUE 2 2|g 2 cc|f 3 ddd|END|"),
    // However many spaces there are.
    ("mop get m 7 2|  g  f |", "VALUE 2 2|g 2 cc|f 3 ddd|END|"),
    (
        "mop get m 3 2|x F|mop delete m 1 1 drop|x|",
        "NOT_FOUND_ELEMENT|NOT_FOUND_ELEMENT|",
    ),
    // The rest keeps its order, and what is inserted again comes last.
    (
        "mop delete m 7 4|f x f y|mop insert m f 1|e|mop get m 0 0|",
        "DELETED|STORED|VALUE 2 3|g 2 cc|h 0 |f 1 e|END|",
    ),
    (
        "mop get m 3 2 delete|f g|mop get m 0 0|",
        "VALUE 2 2|f 1 e|g 2 cc|DELETED|VALUE 2 1|h 0 |END|",
    ),
    // With `drop` the map goes, where no field is left.
    (
        "mop get m 3 2 drop|h x|mop get m 0 0|",
        "VALUE 2 1|h 0 |DELETED_DROPPED|NOT_FOUND|",
    ),
    // Without it an empty map stays.
    (
        "mop insert m f 1 create 0 0 0|a|mop insert m g 1|b|mop get m 0 0 delete|mop get m 0 0|",
        "CREATED_STORED|STORED|VALUE 0 2|f 1 a|g 1 b|DELETED|NOT_FOUND_ELEMENT|",
    ),
    (
        "mop insert m f 1|a|mop delete m 0 0|mop create m 0 0 0|",
        "STORED|DELETED|EXISTS|",
    ),
    (
        "mop insert m f 1|a|mop insert m g 1|b|mop get m 1 1 drop|f|mop delete m 00 0 drop|mop delete m 0 0|",
        "STORED|STORED|VALUE 0 1|f 1 a|DELETED|DELETED_DROPPED|NOT_FOUND|",
    ),
    // An upsert makes a map as an insert does.
    (
        "mop upsert m f 1 create 5 0 1|a|mop upsert m g 1 create 0 0 9|b|mop upsert m f 0 create 0 0 9||mop get m 0 0 drop|mop get m 0 0|",
        "CREATED_STORED|OVERFLOWED|REPLACED|VALUE 5 1|f 0 |DELETED_DROPPED|NOT_FOUND|",
    ),
];

#[test]
fn maps_without_fields(rt: HostRuntime) -> Result<(), Fail> {
    converse(&rt, rt.alloc(), DEFAULT, &WITHOUT_FIELDS)?;
    Ok(())
}

#[test]
fn maps_hold_each_field_once(rt: HostRuntime) -> Result<(), Fail> {
    converse(&rt, rt.alloc(), DEFAULT, &FIELDS)?;
    Ok(())
}

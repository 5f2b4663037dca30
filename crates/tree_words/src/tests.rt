//! Lines and what they spell, worked by hand from the grammar.

use crate::trees::{arith, count, create, delete, get, insert, update, upsert};
use crate::{AttrCommand, TreeCommand, TreeHead, attrs, pair};
use Action::{Error, LargestSilentTrim, LargestTrim, SmallestSilentTrim, SmallestTrim};
use Answer::{NoReply, Pipe, Plain};
use At::{B, N};
use BitOp::{And, Or, Xor};
use Changed::{Combined, Kept, Put, Removed};
use CompOp::{Eq, Ge, Gt, Le, Lt, Ne};
use Take::{Delete, Drop, Keep};
use arc_core::{
    Action, Answer, BitOp, Bkey, BkeyRange, CollCommand, CollHead, CompOp, CreateArgs, Eflag,
    EflagChange, Filter, FlagWords, Kind, Take, TreeRead, WordIter,
};
use std::alloc::{AllocError, Global};
use std::process::Abort;
use std::test::Fail;

// A bkey.
#[derive(Clone, Copy)]
enum At {
    N(u64),
    B(&'static [u8]),
}

// Flags, action and readability of a tree that is made; its exptime is -1 and its maxcount 7.
type Made = (u32, Action, bool);

// A filter: place, operand, comparison, and values.
type Where = (
    u8,
    Option<(BitOp, &'static [u8])>,
    CompOp,
    &'static [&'static [u8]],
);

// What becomes of a flag.
#[derive(Clone, Copy)]
enum Changed {
    Kept,
    Removed,
    Put(&'static [u8]),
    Combined(u8, BitOp, &'static [u8]),
}

fn is_bkey(bkey: &Bkey, at: At) -> bool {
    match (bkey, at) {
        (Bkey::Number(number), N(wanted)) => *number == wanted,
        (Bkey::Bytes(bytes), B(wanted)) => bytes.bytes() == wanted,
        _ => false,
    }
}

fn is_range(range: &BkeyRange, first: At, last: At) -> bool {
    is_bkey(&range.first, first) && is_bkey(&range.last, last)
}

fn is_flag(flag: &Option<Eflag>, wanted: Option<&[u8]>) -> bool {
    match (flag, wanted) {
        (Some(flag), Some(wanted)) => flag.bytes() == wanted,
        (None, None) => true,
        _ => false,
    }
}

fn is_operand(bits: &Option<(BitOp, Eflag)>, wanted: Option<(BitOp, &[u8])>) -> bool {
    match (bits, wanted) {
        (Some((op, operand)), Some((wanted_op, wanted))) => {
            *op == wanted_op && operand.bytes() == wanted
        }
        (None, None) => true,
        _ => false,
    }
}

fn are_values(values: &FlagWords<'_>, wanted: &[&[u8]]) -> bool {
    let mut flags = values.iter();
    for value in wanted {
        match flags.next() {
            Some(flag) if flag.bytes() == *value => {}
            _ => return false,
        }
    }
    flags.next().is_none()
}

fn is_filter(filter: &Option<Filter<'_>>, wanted: Option<Where>) -> bool {
    match (filter, wanted) {
        (Some(filter), Some((fwhere, bits, comp, values))) => {
            filter.fwhere == fwhere
                && is_operand(&filter.bits, bits)
                && filter.comp == comp
                && are_values(&filter.values, values)
        }
        (None, None) => true,
        _ => false,
    }
}

fn is_read(
    read: &TreeRead<'_>,
    ends: (At, At),
    filter: Option<Where>,
    counted: (u32, u32),
) -> bool {
    is_range(&read.range, ends.0, ends.1)
        && is_filter(&read.filter, filter)
        && (read.offset, read.count) == counted
}

fn args_of(made: Made) -> CreateArgs {
    let (flags, action, readable) = made;
    CreateArgs {
        flags,
        exptime: -1,
        maxcount: 7,
        action,
        readable,
    }
}

fn is_made(args: &Option<CreateArgs>, made: Option<Made>) -> bool {
    match (args, made) {
        (Some(args), Some(made)) => *args == args_of(made),
        (None, None) => true,
        _ => false,
    }
}

// Words behind `bop create`, and the tree that is made.
const CREATES: [(&[u8], Made, Answer); 5] = [
    (b"t 0 -1 7", (0, SmallestTrim, true), Plain),
    (b"t 1 -1 07 error noreply", (1, Error, true), NoReply),
    (
        b"t 2 -01 7 largest_trim unreadable",
        (2, LargestTrim, false),
        Plain,
    ),
    (
        b"t 4294967295 -1 7 smallest_silent_trim unreadable noreply",
        (4_294_967_295, SmallestSilentTrim, false),
        NoReply,
    ),
    (
        b"t 0 -1 7 largest_silent_trim",
        (0, LargestSilentTrim, true),
        Plain,
    ),
];

// Words behind `bop insert` and `bop upsert`: bkey, flag, length, the tree that is made, `getrim`, and the answer.
type Inserted = (At, Option<&'static [u8]>, u32, Option<Made>, bool, Answer);

const INSERTS: [(&[u8], Inserted); 10] = [
    (b"t 0 0", (N(0), None, 0, None, false, Plain)),
    (
        b"t 18446744073709551615 2147483647",
        (
            N(18_446_744_073_709_551_615),
            None,
            2_147_483_647,
            None,
            false,
            Plain,
        ),
    ),
    (
        b"t 0x00 3 noreply",
        (B(&[0]), None, 3, None, false, NoReply),
    ),
    (
        b"t 0xAbCd 0xeF 3 pipe",
        (B(&[0xab, 0xcd]), Some(&[0xef]), 3, None, false, Pipe),
    ),
    (
        b"t 5 0x0102 3 getrim",
        (N(5), Some(&[1, 2]), 3, None, true, Plain),
    ),
    (
        b"t 5 3 create 0 -1 7",
        (N(5), None, 3, Some((0, SmallestTrim, true)), false, Plain),
    ),
    (
        b"t 5 0x01 3 create 1 -1 7 error unreadable pipe",
        (N(5), Some(&[1]), 3, Some((1, Error, false)), false, Pipe),
    ),
    (
        b"t 5 3 create 1 -1 7 largest_trim getrim",
        (N(5), None, 3, Some((1, LargestTrim, true)), true, Plain),
    ),
    (
        b"create 00000000000000000005 0x000102030405060708090a0b0c0d0e0f101112131415161718191a1b1c1d1e 3 ",
        (
            N(5),
            Some(&[
                0, 1, 2, 3, 4, 5, 6, 7, 8, 9, 10, 11, 12, 13, 14, 15, 16, 17, 18, 19, 20, 21, 22,
                23, 24, 25, 26, 27, 28, 29, 30,
            ]),
            3,
            None,
            false,
            Plain,
        ),
    ),
    (
        b" noreply  5 3 noreply",
        (N(5), None, 3, None, false, NoReply),
    ),
];

// Words that `bop insert` and `bop upsert` do not have.
const BAD_INSERTS: [&[u8]; 17] = [
    b"t",
    b"t 5",
    b"t 5 0x01",
    b"t 5 0x01 0x02 3",
    b"t 5 3 0x01",
    b"t 0x001 3",
    b"t 0x 3",
    b"t 0X01 3",
    b"t 0x000102030405060708090a0b0c0d0e0f101112131415161718191a1b1c1d1e1f 3",
    b"t 5 0x000102030405060708090a0b0c0d0e0f101112131415161718191a1b1c1d1e1f 3",
    b"t 18446744073709551616 3",
    b"t 000000000000000000005 3",
    b"t 5 2147483648",
    b"t 5 3 create 0 -1",
    b"t 5 3 create 0 -1 7 head_trim",
    b"t 5 3 getrim noreply",
    b"t 5 3 getrim create 0 -1 7",
];

// Words behind `bop update`: the change, the length of the new value, and the answer; the bkey is 5.
const UPDATES: [(&[u8], Changed, Option<u32>, Answer); 15] = [
    (b"t 5 3", Kept, Some(3), Plain),
    (b"t 5 0", Kept, Some(0), Plain),
    (b"t 5 00 noreply", Kept, Some(0), NoReply),
    (b"t 5 -1 pipe", Kept, None, Pipe),
    (b"t 5 2147483647", Kept, Some(2_147_483_647), Plain),
    (b"t 5 0 3", Removed, Some(3), Plain),
    (b"t 5 0 0 pipe", Removed, Some(0), Pipe),
    (b"t 5 0 -1", Removed, None, Plain),
    (b"t 5 0xAb 3", Put(&[0xab]), Some(3), Plain),
    (b"t 5 0x0102 -1 noreply", Put(&[1, 2]), None, NoReply),
    (b"t 5 0 & 0x0F 3", Combined(0, And, &[15]), Some(3), Plain),
    (b"t 5 00 | 0x01 -1", Combined(0, Or, &[1]), None, Plain),
    (
        b"t 5 30 ^ 0x01 0 pipe",
        Combined(30, Xor, &[1]),
        Some(0),
        Pipe,
    ),
    (
        b"t 05 1 & 0x0102 2",
        Combined(1, And, &[1, 2]),
        Some(2),
        Plain,
    ),
    (b"0 5 0 0", Removed, Some(0), Plain),
];

const BAD_UPDATES: [&[u8]; 16] = [
    b"t 5",
    b"t 5 -01",
    b"t 5 -0",
    b"t 5 -2",
    b"t 5 2147483648",
    b"t 5 00 3",
    b"t 5 1 3",
    b"t 5 0x01",
    b"t 5 0x0 3",
    b"t 5 0x01 0x02 3",
    b"t 5 31 & 0x01 3",
    b"t 5 0 & 0x01",
    b"t 5 0 & 01 3",
    b"t 5 0 EQ 0x01 3",
    b"t 5 0 & 0x01 EQ 0x01 3",
    b"t 5..6 3",
];

// A range, a filter and numbers behind it, as they stand in `bop get`, `bop delete` and `bop count`.
const FILTERS: [(&[u8], (At, At), Option<Where>); 12] = [
    (b"t 0", (N(0), N(0)), None),
    (
        b"t 5..18446744073709551615",
        (N(5), N(18_446_744_073_709_551_615)),
        None,
    ),
    (b"t 9..1", (N(9), N(1)), None),
    (b"t 0xAb", (B(&[0xab]), B(&[0xab])), None),
    (b"t 0x00..0xfF00", (B(&[0]), B(&[255, 0])), None),
    (b"t 5 0 EQ 0x01", (N(5), N(5)), Some((0, None, Eq, &[&[1]]))),
    (
        b"t 5 30 NE 0x01,0x02,0x02",
        (N(5), N(5)),
        Some((30, None, Ne, &[&[1], &[2], &[2]])),
    ),
    (
        b"t 5..6 007 LT 0x0102",
        (N(5), N(6)),
        Some((7, None, Lt, &[&[1, 2]])),
    ),
    (
        b"t 5..6 1 LE 0xFf",
        (N(5), N(6)),
        Some((1, None, Le, &[&[255]])),
    ),
    (
        b"t 5..6 1 & 0x0f GT 0x01",
        (N(5), N(6)),
        Some((1, Some((And, &[15])), Gt, &[&[1]])),
    ),
    (
        b"t 5..6 1 | 0x0f0F GE 0x0102",
        (N(5), N(6)),
        Some((1, Some((Or, &[15, 15])), Ge, &[&[1, 2]])),
    ),
    (
        b"t 5 0 ^ 0x01 EQ 0x02,0x03",
        (N(5), N(5)),
        Some((0, Some((Xor, &[1])), Eq, &[&[2], &[3]])),
    ),
];

// Ranges and filters that there are not.
const BAD_FILTERS: [&[u8]; 26] = [
    b"t",
    b"t 5.6",
    b"t 5...6",
    b"t 5..",
    b"t ..5",
    b"t 5..6..7",
    b"t 5..0x06",
    b"t 0x05..6",
    b"t -1",
    b"t 5 31 EQ 0x01",
    b"t 5 -1 EQ 0x01",
    b"t 5 EQ 0x01",
    b"t 5 0 EQ",
    b"t 5 0 eq 0x01",
    b"t 5 0 EQ 01",
    b"t 5 0 EQ 0x01,",
    b"t 5 0 EQ 0x01,0x0102",
    b"t 5 0 EQ 0x01, 0x02",
    b"t 5 0 LT 0x01,0x02",
    b"t 5 0 GE 0x01,0x01",
    b"t 5 0 & EQ 0x01",
    b"t 5 0 & 0x01",
    b"t 5 0 & 0x0101 EQ 0x01",
    b"t 5 0 | 0x01 NE 0x0101,0x0102",
    b"t 5 0 + 0x01 EQ 0x01",
    b"t 5 0 & 0x01 & 0x01 EQ 0x01",
];

// What may stand behind in `bop get`: offset and count, and what becomes of the elements.
const GET_ENDS: [(&[u8], (u32, u32), Take); 7] = [
    (b"", (0, 0), Keep),
    (b" 3", (0, 3), Keep),
    (
        b" 4294967295 4294967295",
        (4_294_967_295, 4_294_967_295),
        Keep,
    ),
    (b" 0 02 delete", (0, 2), Delete),
    (b" 7 drop", (0, 7), Drop),
    (b" delete", (0, 0), Delete),
    (b" drop ", (0, 0), Drop),
];

const BAD_GET_ENDS: [&[u8]; 7] = [
    b" 1 2 3",
    b" 4294967296",
    b" 1 4294967296",
    b" drop delete",
    b" drop 1",
    b" noreply",
    b" 1 0x01",
];

// What may stand behind in `bop delete`: a count, `drop`, and how the answer is sent.
const DELETE_ENDS: [(&[u8], u32, bool, Answer); 6] = [
    (b"", 0, false, Plain),
    (b" 3", 3, false, Plain),
    (b" 4294967295 drop", 4_294_967_295, true, Plain),
    (b" drop noreply", 0, true, NoReply),
    (b" 007 drop pipe", 7, true, Pipe),
    (b" noreply", 0, false, NoReply),
];

const BAD_DELETE_ENDS: [&[u8]; 5] = [
    b" 1 2",
    b" 4294967296",
    b" delete",
    b" noreply drop",
    b" getrim",
];

// Words behind `bop incr` and `bop decr`: delta, initial number, flag, and answer; the bkey is 5.
const ARITHS: [(&[u8], (u64, Option<u64>, Option<&[u8]>), Answer); 5] = [
    (b"t 5 0", (0, None, None), Plain),
    (
        b"t 5 18446744073709551615 pipe",
        (18_446_744_073_709_551_615, None, None),
        Pipe,
    ),
    (b"t 5 1 00", (1, Some(0), None), Plain),
    (
        b"t 5 1 18446744073709551615 0xfF",
        (1, Some(18_446_744_073_709_551_615), Some(&[255])),
        Plain,
    ),
    (b"t 5 1 2 0x01 noreply", (1, Some(2), Some(&[1])), NoReply),
];

const BAD_ARITHS: [&[u8]; 7] = [
    b"t 5",
    b"t 5 -1",
    b"t 5 18446744073709551616",
    b"t 5 1 18446744073709551616",
    b"t 5 1 0x01",
    b"t 5 1 2 3",
    b"t 5 1 2 0x01 0x02",
];

fn is_create(words: &[u8], made: Made, sent: Answer) -> bool {
    match create(WordIter::of(words)) {
        Some(CollHead::Collection { command, answer }) => match command {
            CollCommand::Create { kind, key, args } => {
                kind == Kind::Tree
                    && key.bytes() == b"t".as_slice()
                    && args == args_of(made)
                    && answer == sent
            }
            _ => false,
        },
        _ => false,
    }
}

fn is_insert(head: Option<TreeHead<'_>>, wanted: Inserted) -> bool {
    let (at, flag, number, made, trims, sent) = wanted;
    let Some(TreeHead { command, answer }) = head else {
        return false;
    };
    match command {
        TreeCommand::TreeInsert {
            bkey,
            eflag,
            len,
            create,
            getrim,
            ..
        }
        | TreeCommand::TreeUpsert {
            bkey,
            eflag,
            len,
            create,
            getrim,
            ..
        } => {
            is_bkey(&bkey, at)
                && is_flag(&eflag, flag)
                && len == number
                && is_made(&create, made)
                && getrim == trims
                && answer == sent
        }
        _ => false,
    }
}

fn is_upsert(words: &[u8]) -> bool {
    match upsert(WordIter::of(words)) {
        Some(
            TreeHead {
                command: TreeCommand::TreeUpsert { .. },
                ..
            },
        ) => true,
        _ => false,
    }
}

#[test]
fn reads_lines_that_put(rt: HostRuntime) -> Result<(), Fail> {
    for (words, made, answer) in &CREATES {
        assert!(rt; is_create(words, *made, *answer), "{words:?}");
    }
    assert!(rt; create(WordIter::of(b"t 0 -1 7 tail_trim")).is_none());
    assert!(rt; create(WordIter::of(b"t 0 -1 7 pipe")).is_none());
    for (words, inserted) in &INSERTS {
        assert!(rt;
            is_insert(insert(WordIter::of(words)), *inserted),
            "{words:?}"
        );
        assert!(rt;
            is_insert(upsert(WordIter::of(words)), *inserted),
            "{words:?}"
        );
        assert!(rt; is_upsert(words), "{words:?}");
    }
    for words in &BAD_INSERTS {
        assert!(rt; insert(WordIter::of(words)).is_none(), "{words:?}");
        assert!(rt; upsert(WordIter::of(words)).is_none(), "{words:?}");
    }
    Ok(())
}

fn is_change(change: &EflagChange, wanted: Changed) -> bool {
    match (change, wanted) {
        (EflagChange::Keep, Kept) => true,
        (EflagChange::Remove, Removed) => true,
        (EflagChange::Put(flag), Put(bytes)) => flag.bytes() == bytes,
        (EflagChange::Combine(place, op, operand), Combined(at, by, bytes)) => {
            *place == at && *op == by && operand.bytes() == bytes
        }
        _ => false,
    }
}

fn is_update(words: &[u8], wanted: Changed, number: Option<u32>, sent: Answer) -> bool {
    let Some(TreeHead { command, answer }) = update(WordIter::of(words)) else {
        return false;
    };
    match command {
        TreeCommand::TreeUpdate {
            bkey,
            change,
            len,
            ..
        } => {
            is_bkey(&bkey, N(5)) && is_change(&change, wanted) && len == number && answer == sent
        }
        _ => false,
    }
}

fn is_arith(
    words: &[u8],
    counts_up: bool,
    wanted: (u64, Option<u64>, Option<&[u8]>),
    sent: Answer,
) -> bool {
    match arith(counts_up, WordIter::of(words)) {
        Some(
            TreeHead {
                command: TreeCommand::TreeArith {
                    up,
                    bkey,
                    delta,
                    initial,
                    eflag,
                    ..
                },
                answer,
            },
        ) => {
            up == counts_up
                && is_bkey(&bkey, N(5))
                && (delta, initial) == (wanted.0, wanted.1)
                && is_flag(&eflag, wanted.2)
                && answer == sent
        }
        _ => false,
    }
}

#[test]
fn reads_lines_that_change(rt: HostRuntime) -> Result<(), Fail> {
    for (words, change, len, answer) in &UPDATES {
        assert!(rt; is_update(words, *change, *len, *answer), "{words:?}");
    }
    for words in &BAD_UPDATES {
        assert!(rt; update(WordIter::of(words)).is_none(), "{words:?}");
    }
    for (words, wanted, answer) in &ARITHS {
        assert!(rt; is_arith(words, true, *wanted, *answer), "{words:?}");
        assert!(rt; is_arith(words, false, *wanted, *answer), "{words:?}");
    }
    for words in &BAD_ARITHS {
        assert!(rt; arith(true, WordIter::of(words)).is_none(), "{words:?}");
    }
    Ok(())
}

fn is_get(
    words: &[u8],
    ends: (At, At),
    filter: Option<Where>,
    counted: (u32, u32),
    taken: Take,
) -> bool {
    let Some(TreeHead { command, answer }) = get(WordIter::of(words)) else {
        return false;
    };
    match command {
        TreeCommand::TreeGet { read, take, .. } => {
            is_read(&read, ends, filter, counted) && take == taken && answer == Plain
        }
        _ => false,
    }
}

fn is_delete(
    words: &[u8],
    read_is: ((At, At), Option<Where>, u32),
    dropped: bool,
    sent: Answer,
) -> bool {
    let (ends, filter, number) = read_is;
    let Some(TreeHead { command, answer }) = delete(WordIter::of(words)) else {
        return false;
    };
    match command {
        TreeCommand::TreeDelete {
            read,
            drop_empty,
            ..
        } => {
            is_read(&read, ends, filter, (0, number)) && drop_empty == dropped && answer == sent
        }
        _ => false,
    }
}

fn is_count(words: &[u8], ends: (At, At), wanted: Option<Where>) -> bool {
    let Some(TreeHead { command, answer }) = count(WordIter::of(words)) else {
        return false;
    };
    match command {
        TreeCommand::TreeCount { range, filter, .. } => {
            is_range(&range, ends.0, ends.1) && is_filter(&filter, wanted) && answer == Plain
        }
        _ => false,
    }
}

fn joined(alloc: Global, front: &[u8], back: &[u8]) -> Result<Vec<u8>, AllocError> {
    let mut line = Vec::from_slice(alloc, front)?;
    line.extend_from_slice(back)?;
    Ok(line)
}

#[test]
fn reads_ranges_filters_and_numbers(rt: HostRuntime) -> Result<(), Fail> {
    let alloc = rt.alloc();
    for (front, ends, filter) in &FILTERS {
        assert!(rt; is_count(front, *ends, *filter), "{front:?}");
        for (back, counted, take) in &GET_ENDS {
            let words = joined(alloc, front, back)?;
            assert!(rt;
                is_get(&words, *ends, *filter, *counted, *take),
                "{front:?} {back:?}"
            );
        }
        for back in &BAD_GET_ENDS {
            let words = joined(alloc, front, back)?;
            assert!(rt; get(WordIter::of(&words)).is_none(), "{front:?} {back:?}");
        }
        for (back, number, dropped, answer) in &DELETE_ENDS {
            let words = joined(alloc, front, back)?;
            let read = (*ends, *filter, *number);
            assert!(rt;
                is_delete(&words, read, *dropped, *answer),
                "{front:?} {back:?}"
            );
        }
        for back in &BAD_DELETE_ENDS {
            let words = joined(alloc, front, back)?;
            assert!(rt;
                delete(WordIter::of(&words)).is_none(),
                "{front:?} {back:?}"
            );
        }
        assert!(rt; count(WordIter::of(&joined(alloc, front, b" 1")?)).is_none());
    }
    for words in &BAD_FILTERS {
        assert!(rt; get(WordIter::of(words)).is_none(), "{words:?}");
        assert!(rt; delete(WordIter::of(words)).is_none(), "{words:?}");
        assert!(rt; count(WordIter::of(words)).is_none(), "{words:?}");
    }
    Ok(())
}

// A count by so many values.
fn with_values(alloc: Global, number: usize) -> Result<Vec<u8>, AllocError> {
    let mut line = Vec::from_slice(alloc, b"t 1..9 0 EQ 0x01")?;
    for _ in 1..number {
        line.extend_from_slice(b",0x02")?;
    }
    Ok(line)
}

#[test]
fn reads_100_values_and_16_attributes(rt: HostRuntime) -> Result<(), Fail> {
    let alloc = rt.alloc();
    assert!(rt; count(WordIter::of(&with_values(alloc, 100)?)).is_some());
    assert!(rt; count(WordIter::of(&with_values(alloc, 101)?)).is_none());
    let names = b"k a b c d e f g h i j k l m n o p";
    assert!(rt; are_names(names, 16) && are_names(b"k", 0) && are_names(b"k =", 1));
    assert!(rt; attrs::getattr(WordIter::of(&joined(alloc, names, b" q")?)).is_none());
    assert!(rt; attrs::getattr(WordIter::of(b"")).is_none());
    let pairs = b"k a=1 b= =c d==2 e= f= g= h= i= j= k= l= m= n= o= p=";
    assert!(rt; are_pairs(pairs, 16) && are_pairs(b"k a=1", 1));
    assert!(rt; attrs::setattr(WordIter::of(&joined(alloc, pairs, b" q=")?)).is_none());
    assert!(rt; attrs::setattr(WordIter::of(b"k")).is_none());
    assert!(rt; attrs::setattr(WordIter::of(b"k a=1 b")).is_none());
    assert!(rt; is_pair(b"a=1", b"a", b"1") && is_pair(b"=c", b"", b"c"));
    assert!(rt; is_pair(b"d==2", b"d", b"=2") && is_pair(b"b=", b"b", b""));
    assert!(rt; pair(b"abc").is_none());
    Ok(())
}

fn are_names(line: &[u8], number: usize) -> bool {
    match attrs::getattr(WordIter::of(line)) {
        Some(AttrCommand::GetAttr { key, names }) => key.bytes() == b"k".as_slice()
            && names.iter().count() == number,
        _ => false,
    }
}

fn are_pairs(line: &[u8], number: usize) -> bool {
    match attrs::setattr(WordIter::of(line)) {
        Some(AttrCommand::SetAttr { key, pairs }) => key.bytes() == b"k".as_slice()
            && pairs.iter().count() == number,
        _ => false,
    }
}

fn is_pair(word: &[u8], wanted_name: &[u8], wanted_value: &[u8]) -> bool {
    match pair(word) {
        Some((name, value)) => name == wanted_name && value == wanted_value,
        None => false,
    }
}

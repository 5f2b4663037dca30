//! Filters over the flags of a few elements, changes of flags, and how many values a filter may have.
use crate::{EflagMismatch, changed, passes};
use arc_core::{BitOp, CompOp, Eflag, EflagChange, Filter, FlagWords};
use std::process::Abort;

#[test]
fn selects_elements_by_the_low_bits(rt: HostRuntime) {
    // `0 & 0x0f EQ 0x01,0x02` over elements with the flags 0x11, 0x22 and 0x33, and one without a flag.
    for (flag, is_equal) in [
        (Some(Eflag::of(&[0x11])), true),
        (Some(Eflag::of(&[0x22])), true),
        (Some(Eflag::of(&[0x33])), false),
        (None, false),
    ] {
        for (comp, expected) in [(CompOp::Eq, is_equal), (CompOp::Ne, !is_equal)] {
            let filter = Filter {
                fwhere: 0,
                bits: Some((BitOp::And, Eflag::of(&[0x0f]))),
                comp,
                values: values(&rt, "0x01,0x02"),
            };
            assert_eq!(rt; passes(&filter, &flag), expected, "{comp:?} at {flag:?}");
        }
    }
}

#[test]
fn compares_the_part_byte_by_byte(rt: HostRuntime) {
    // The flag, and whether its part of two bytes at byte 1 passes EQ, NE, LT, LE, GT and GE against 0x0203.
    for (flag, expected) in [
        (None, [false, true, false, false, false, false]),
        (
            Some(Eflag::of(&[2, 3])),
            [false, true, false, false, false, false],
        ),
        (
            Some(Eflag::of(&[9, 2, 3])),
            [true, false, false, true, false, true],
        ),
        (
            Some(Eflag::of(&[9, 2, 3, 9])),
            [true, false, false, true, false, true],
        ),
        (
            Some(Eflag::of(&[2, 3, 0])),
            [false, true, false, false, true, true],
        ),
        (
            Some(Eflag::of(&[9, 1, 255])),
            [false, true, true, true, false, false],
        ),
        (
            Some(Eflag::of(&[9, 2, 2])),
            [false, true, true, true, false, false],
        ),
    ] {
        let comps = [
            CompOp::Eq,
            CompOp::Ne,
            CompOp::Lt,
            CompOp::Le,
            CompOp::Gt,
            CompOp::Ge,
        ];
        for (comp, expected) in comps.iter().zip(expected) {
            let filter = Filter {
                fwhere: 1,
                bits: None,
                comp: *comp,
                values: values(&rt, "0x0203"),
            };
            assert_eq!(rt; passes(&filter, &flag), expected, "{comp:?} at {flag:?}");
        }
    }
}

#[test]
fn changes_flags(rt: HostRuntime) {
    // `0 | 0xf0` on 0x0f, then `0`, and then `0 & 0x01`
    let or = EflagChange::Combine(0, BitOp::Or, Eflag::of(&[0xf0]));
    check_change(&rt, &or, &[0x0f], Ok(Some(Eflag::of(&[0xff]))));
    check_change(&rt, &EflagChange::Remove, &[0xff], Ok(None));
    let and = EflagChange::Combine(0, BitOp::And, Eflag::of(&[0x01]));
    check_change(&rt, &and, &[], Err(EflagMismatch));
    // beyond the last byte, and up to a byte beyond it
    let second = EflagChange::Combine(1, BitOp::And, Eflag::of(&[0x01]));
    check_change(&rt, &second, &[0x0f], Err(EflagMismatch));
    let two = EflagChange::Combine(0, BitOp::And, Eflag::of(&[1, 1]));
    check_change(&rt, &two, &[0x0f], Err(EflagMismatch));
    // the bytes before and behind the operand stay
    let xor = EflagChange::Combine(1, BitOp::Xor, Eflag::of(&[0xff]));
    check_change(&rt, &xor, &[1, 2, 3], Ok(Some(Eflag::of(&[1, 0xfd, 3]))));
    check_change(&rt, &EflagChange::Keep, &[1], Ok(Some(Eflag::of(&[1]))));
    check_change(&rt, &EflagChange::Keep, &[], Ok(None));
    let put = EflagChange::Put(Eflag::of(&[7, 8]));
    check_change(&rt, &put, &[], Ok(Some(Eflag::of(&[7, 8]))));
    check_change(&rt, &put, &[1], Ok(Some(Eflag::of(&[7, 8]))));
}

// Checks what a change makes of the flag of these bytes, or of an element without a flag where there are none.
fn check_change(
    rt: &impl Abort,
    change: &EflagChange,
    bytes: &[u8],
    expected: Result<Option<Eflag>, EflagMismatch>,
) {
    let flag = match bytes.len() {
        1..=31 => Some(Eflag::of(bytes)),
        _ => None,
    };
    assert_eq!(rt; changed(change, &flag), expected, "{change:?} at {bytes:?}");
}

#[test]
fn reads_one_to_a_hundred_values(rt: HostRuntime) {
    let mut word = [b','; 505];
    for i in 0..101 {
        word[5 * i..5 * i + 4].copy_from_slice(b"0x01");
    }
    for (len, count) in [(4, Some(1)), (499, Some(100)), (500, None), (504, None)] {
        assert_eq!(rt; value_count(&word[..len]), count, "{len} bytes");
    }
    for word in [
        "",
        "0x",
        "0x0",
        "0x01,",
        ",0x01",
        "0x01,0x0203",
        "0x01,02",
        "0x01 0x02",
    ] {
        assert_eq!(rt; value_count(word.as_bytes()), None, "{word}");
    }
}

// How many filter values a word spells, if it spells any.
fn value_count(word: &[u8]) -> Option<u32> {
    let mut count: u32 = 0;
    for _ in FlagWords::read(word)?.iter() {
        count = count.saturating_add(1);
    }
    Some(count)
}

// The filter values that a word spells.
fn values<'a>(rt: &impl Abort, word: &'a str) -> FlagWords<'a> {
    FlagWords::read(word.as_bytes()).expect(rt, "a list of filter values")
}

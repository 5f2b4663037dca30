//! Values at and past the limits, worked by hand.
ghost use Rattle.std.specs.Prelude.{◌≤◌, IfOk, vec_len};

use crate::{JoinFault, KvItem, NotNumeric, counted};
use arc_core::{Expiry, NoMemory};
use std::alloc::Global;
use std::process::Abort;
use std::test::Fail;

// A value, whether it is counted up, by how much, and the number then, if there is one.
const COUNTS: [(&[u8], bool, u64, Option<u64>); 26] = [
    (b"0", true, 0, Some(0)),
    (b"5", true, 3, Some(8)),
    (b"5", false, 3, Some(2)),
    (b"5", false, 5, Some(0)),
    (b"5", false, 6, Some(0)),
    (b"0", false, u64::MAX, Some(0)),
    (b"99", true, 1, Some(100)),
    (b"18446744073709551614", true, 1, Some(u64::MAX)),
    (b"18446744073709551615", true, 0, Some(u64::MAX)),
    (b"18446744073709551615", true, 1, Some(0)),
    (b"18446744073709551615", true, u64::MAX, Some(u64::MAX - 1)),
    (b"18446744073709551615", false, u64::MAX, Some(0)),
    (b"18446744073709551615", false, 1, Some(u64::MAX - 1)),
    (b"18446744073709551616", true, 0, None),
    (b"18446744073709551616", false, 1, None),
    (b"99999999999999999999", true, 1, None),
    (b"00000000000000000007", true, 1, Some(8)),
    (b"000000000000000000007", true, 1, None),
    (b"", true, 1, None),
    (b" 5", true, 1, None),
    (b"5 ", true, 1, None),
    (b"+5", true, 1, None),
    (b"-5", false, 1, None),
    (b"5a", true, 1, None),
    (b"0x5", true, 1, None),
    (b"5\r\n", true, 1, None),
];

#[test]
fn counts_up_and_down(rt: HostRuntime) {
    for (value, up, delta, number) in COUNTS {
        assert_eq!(rt; counted(value, up, delta), number.ok_or(NotNumeric));
    }
}

// How many bytes stand in the value, in front of it and behind it, and whether they are too long together.
const JOINS: [(usize, usize, usize, bool); 10] = [
    (0, 0, 0, false),
    (1_048_576, 0, 0, false),
    (1_048_576, 1, 0, true),
    (1_048_576, 0, 1, true),
    (1_048_575, 1, 0, false),
    (1_048_575, 0, 1, false),
    (1_048_575, 1, 1, true),
    (0, 1_048_576, 0, false),
    (1, 0, 1_048_576, true),
    (1_048_576, 1_048_576, 1_048_576, true),
];

#[test]
fn joins_up_to_the_limit(rt: HostRuntime) -> Result<(), Fail> {
    for (value, front, back, too_long) in JOINS {
        let value = filled(&rt, rt.alloc(), b'v', value)?;
        let front = filled(&rt, rt.alloc(), b'f', front)?;
        let back = filled(&rt, rt.alloc(), b'b', back)?;
        let item = KvItem::new(rt.alloc(), 0, Expiry::Never, 0, &value)?;
        let len = front.len() + value.len() + back.len();
        match item.joined(&front, &back, 1) {
            Ok(joined) => assert!(rt; !too_long && joined.value.bytes().len() == len),
            Err(fault) => assert!(rt; too_long && fault == JoinFault::TooLong(len)),
        }
    }
    Ok(())
}

// So many equal bytes, of which a value has room.
fn filled(rt: &impl Abort, alloc: Global, byte: u8, len: usize) -> Result<Vec<u8>, NoMemory>
    ensures { IfOk result (λ bytes. vec_len bytes ≤ 1048576) }
{
    assert!(rt; len <= 1_048_576);
    Ok(vec![in alloc; byte; len]?)
}

#[test]
fn keeps_flags_and_expiry_beside_the_joined_value(rt: HostRuntime) -> Result<(), Fail> {
    let item = KvItem::new(rt.alloc(), 4_000_000_000, Expiry::At(77), 9, b"mid")?;
    assert!(rt; item.value.bytes() == b"mid".as_slice());
    assert!(rt; item.flags == 4_000_000_000 && item.unique == 9);
    assert_eq!(rt; item.expiry, Expiry::At(77));
    let rows: [(&[u8], &[u8], &[u8]); 4] = [
        (b"", b"", b"mid"),
        (b"front ", b"", b"front mid"),
        (b"", b" back\r\n", b"mid back\r\n"),
        (b"a", b"z", b"amidz"),
    ];
    for (front, back, value) in rows {
        let Ok(joined) = item.joined(front, back, 10) else {
            panic!(rt; "not joined");
        };
        assert!(rt; joined.value.bytes() == value);
        assert!(rt; joined.flags == 4_000_000_000 && joined.unique == 10);
        assert_eq!(rt; joined.expiry, Expiry::At(77));
    }
    Ok(())
}

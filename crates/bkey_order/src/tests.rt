//! Words at the limits, what is wrong with others, and the texts of bkeys and flags.
use crate::BkeyFault::{BadDigit, Empty, OddDigits, TooBig, TooLong};
use crate::{print_bkey, print_eflag, read_bkey, read_eflag};
use arc_core::{Bkey, Eflag, ShortBytes};
use std::process::Abort;

#[test]
fn names_what_is_wrong(rt: HostRuntime) {
    // The word, and what is wrong with it as a bkey and as a flag.
    for (word, bkey_fault, eflag_fault) in [
        ("", Empty, Empty),
        ("0x", Empty, Empty),
        ("0xg", BadDigit(2), BadDigit(2)),
        ("0x0g1", BadDigit(3), BadDigit(3)),
        ("0x0", OddDigits, OddDigits),
        ("0x001", OddDigits, OddDigits),
        ("0X00", BadDigit(1), BadDigit(0)),
        ("x00", BadDigit(0), BadDigit(0)),
        ("-1", BadDigit(0), BadDigit(0)),
        ("12a4b", BadDigit(2), BadDigit(0)),
        // 31 bytes and a half, 32 bytes, and 32 bytes of which the last digit is none
        (
            "0x000102030405060708090a0b0c0d0e0f101112131415161718191a1b1c1d1e1",
            OddDigits,
            OddDigits,
        ),
        (
            "0x000102030405060708090a0b0c0d0e0f101112131415161718191a1b1c1d1e1f",
            TooLong,
            TooLong,
        ),
        (
            "0x000102030405060708090a0b0c0d0e0f101112131415161718191a1b1c1d1e1.",
            BadDigit(65),
            BadDigit(65),
        ),
        // 21 digits, and 21 bytes of which the last is no digit
        ("000000000000000000001", TooLong, BadDigit(0)),
        ("00000000000000000000a", BadDigit(20), BadDigit(0)),
        ("18446744073709551616", TooBig, BadDigit(0)),
        ("99999999999999999999", TooBig, BadDigit(0)),
    ] {
        assert_eq!(rt;
            read_bkey(word.as_bytes()),
            Err(bkey_fault),
            "{word} as a bkey"
        );
        assert_eq!(rt;
            read_eflag(word.as_bytes()),
            Err(eflag_fault),
            "{word} as a flag"
        );
    }
}

#[test]
fn reads_and_prints_numbers(rt: HostRuntime) {
    for (word, number, text) in [
        ("0", 0, "0"),
        ("01", 1, "1"),
        ("1", 1, "1"),
        ("00000000000000000007", 7, "7"),
        (
            "18446744073709551615",
            18_446_744_073_709_551_615,
            "18446744073709551615",
        ),
    ] {
        check_bkey(&rt, word, Bkey::Number(number), text);
    }
}

#[test]
fn reads_and_prints_bytes(rt: HostRuntime) {
    check_bytes(&rt, "0x00", &[0], "0x00");
    check_bytes(&rt, "0x0000", &[0, 0], "0x0000");
    check_bytes(&rt, "0xFf0aB1", &[255, 10, 177], "0xff0ab1");
    let longest = "0x0102030405060708090a0b0c0d0e0f101112131415161718191a1b1c1d1e1f";
    let bytes = [
        1, 2, 3, 4, 5, 6, 7, 8, 9, 10, 11, 12, 13, 14, 15, 16, 17, 18, 19, 20, 21, 22, 23, 24, 25,
        26, 27, 28, 29, 30, 31,
    ];
    check_bytes(&rt, longest, &bytes, longest);
}

// Checks that a word is read as a byte bkey and as a flag of these bytes, and that both are printed as the text.
fn check_bytes(rt: &impl Abort, word: &str, bytes: &[u8], text: &str) {
    assert!(rt; !bytes.is_empty() && bytes.len() < 32);
    check_bkey(rt, word, Bkey::Bytes(ShortBytes::of(bytes)), text);
    let flag = Eflag::of(bytes);
    assert_eq!(rt; read_eflag(word.as_bytes()), Ok(flag));
    let mut out = [b'.'; 64];
    let len = print_eflag(&flag, &mut out);
    check_text(rt, &out, len, text);
}

// Checks that a word is read as a bkey, which is printed as the text.
fn check_bkey(rt: &impl Abort, word: &str, bkey: Bkey, text: &str) {
    assert_eq!(rt; read_bkey(word.as_bytes()), Ok(bkey));
    let mut out = [b'.'; 64];
    let len = print_bkey(&bkey, &mut out);
    check_text(rt, &out, len, text);
}

// Checks that a text stands at the front, and what was there before behind it.
fn check_text(rt: &impl Abort, out: &[u8; 64], len: usize, text: &str) {
    assert_eq!(rt; len, text.len());
    assert!(rt; out.starts_with(text.as_bytes()));
    assert!(rt; out.iter().skip(len).all(|byte| *byte == b'.'));
}

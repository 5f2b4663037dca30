//! Input that is wrong: what is answered, and that nothing of what follows is lost.

use crate::harness::{
    BYTE_BY_BYTE, DEFAULT, ONE_MIB, add_text, bytes_of, expect, expect_bytes, expect_rows, run_on,
};
use arcus_tool::Status;
use std::alloc::{AllocError, Global};
use std::process::Abort;
use std::sync::Wait;
use std::test::Fail;
use std::thread::Threads;

// Lines whose first word is a command, and whose further words do not spell it: words that are missing or too many, and
// numbers past their limits.
const BAD_FORMAT: [&str; 117] = [
    // set, add, replace, append, prepend: <key> <flags> <exptime> <bytes> [noreply]
    "set",
    "set a",
    "set a 0",
    "set a 0 0",
    "set a 0 0 noreply",
    "set a 0 0 1 x",
    "set a 0 0 1 0",
    "set a 0 0 1 Noreply",
    "set a 0 0 1 noreply x",
    "set a 0 0 1 noreply noreply",
    "add",
    "add a",
    "add a 0",
    "add a 0 0",
    "add a 0 0 1 x",
    "replace",
    "replace a",
    "replace a 0",
    "replace a 0 0",
    "replace a 0 0 1 x",
    "append",
    "append a",
    "append a 0 0",
    "append a 0 0 1 x",
    "prepend",
    "prepend a",
    "prepend a 0 0",
    "prepend a 0 0 1 x",
    // Flags are below 2^32, exptimes from -2^31 to 2^32 - 1, lengths of blocks below 2^31.
    "set a 4294967296 0 1",
    "set a -1 0 1",
    "set a +1 0 1",
    "set a x 0 1",
    "set a 1x 0 1",
    "set a 000000000000000000000 0 1",
    "set a 0 4294967296 1",
    "set a 0 -2147483649 1",
    "set a 0 - 1",
    "set a 0 --1 1",
    "set a 0 +1 1",
    "set a 0 1- 1",
    "set a 0 x 1",
    "set a 0 0 2147483648",
    "set a 0 0 18446744073709551617",
    "set a 0 0 -1",
    "set a 0 0 1.0",
    "set a 0 0 0x1",
    "add a 4294967296 0 1",
    "replace a 0 4294967296 1",
    "append a 0 -2147483649 1",
    "prepend a 0 0 2147483648",
    // Keys have 16,000 bytes at most, none of which is a control byte or 127.
    "set {16001x} 0 0 1",
    "set a\tb 0 0 1",
    "set a\x7f 0 0 1",
    // cas: <key> <flags> <exptime> <bytes> <unique> [noreply], where the unique is below 2^64
    "cas",
    "cas a",
    "cas a 0 0",
    "cas a 0 0 1",
    "cas a 0 0 1 noreply",
    "cas a 0 0 1 1 1",
    "cas a 0 0 1 1 noreply noreply",
    "cas a 0 0 1 18446744073709551616",
    "cas a 0 0 1 -1",
    "cas a 0 0 1 x",
    "cas a 4294967296 0 1 1",
    "cas a 0 4294967296 1 1",
    "cas a 0 0 2147483648 1",
    // get, gets: <key> [<key> ..]
    "get",
    "get  ",
    "get {16001x}",
    "get a b\x01",
    "get a\r",
    "gets",
    "gets a {16001x}",
    // mget: <lenkeys> <numkeys>, with 1 to 1,000 keys
    "mget",
    "mget 1",
    "mget 0 1",
    "mget 1 0",
    "mget 2147483648 1",
    "mget 1999 1001",
    "mget -1 1",
    "mget 1 x",
    "mget 1 1 1",
    "mget 1 1 noreply",
    // incr, decr: <key> <delta> [<flags> <exptime> <initial>] [noreply]
    "incr",
    "incr n",
    "incr n noreply",
    "incr n -1",
    "incr n x",
    "incr n 18446744073709551616",
    "incr n 000000000000000000001",
    "incr n 1 0",
    "incr n 1 0 0",
    "incr n 1 0 0 noreply",
    "incr n 1 0 0 5 6",
    "incr n 1 noreply 0",
    "incr n 1 0 0 5 noreply x",
    "incr n 1 4294967296 0 5",
    "incr n 1 0 4294967296 5",
    "incr n 1 0 0 18446744073709551616",
    "decr",
    "decr n",
    "decr n 18446744073709551616",
    "decr n 1 0 -2147483649 5",
    // delete: <key> [0] [noreply]
    "delete",
    "delete a 1",
    "delete a 00",
    "delete a 0 0",
    "delete a noreply 0",
    "delete noreply noreply noreply",
    // touch: <key> <exptime> [noreply]
    "touch a",
    "touch a noreply",
    "touch a 4294967296",
    "touch a -2147483649",
    "touch a 0 0",
    // flush_all [noreply], version, quit
    "flush_all 0",
    "version noreply",
    "quit noreply",
];

// The same for commands on lists.
const BAD_LIST_FORMAT: [&str; 45] = [
    // lop create: <key> <flags> <exptime> <maxcount> [<action>] [unreadable] [noreply]
    "lop create",
    "lop create l",
    "lop create l 0 0",
    "lop create l 0 0 noreply",
    "lop create l 4294967296 0 0",
    "lop create l 0 4294967296 0",
    "lop create l 0 -2147483649 0",
    "lop create l 0 0 4294967296",
    "lop create l 0 0 -1",
    "lop create l 0 0 0 smallest_trim",
    "lop create l 0 0 0 Error",
    "lop create l 0 0 0 unreadable error",
    "lop create l 0 0 0 error error",
    "lop create l 0 0 0 noreply unreadable",
    // lop insert: <key> <index> <bytes> [create ..] [noreply|pipe]
    "lop insert",
    "lop insert l 0",
    "lop insert l x 1",
    "lop insert l 2147483648 1",
    "lop insert l -2147483649 1",
    "lop insert l 0..1 1",
    "lop insert l 0 2147483648",
    "lop insert l 0 -1",
    "lop insert l 0 1 error",
    "lop insert l 0 1 create",
    "lop insert l 0 1 create 0 0",
    "lop insert l 0 1 create 4294967296 0 0",
    "lop insert l 0 1 create 0 0 0 largest_trim",
    "lop insert l 0 1 noreply create 0 0 0",
    "lop insert l 0 1 pipe noreply",
    // lop delete: <key> <index or range> [drop] [noreply|pipe]
    "lop delete l",
    "lop delete l 0..",
    "lop delete l ..1",
    "lop delete l 0...1",
    "lop delete l 0.1",
    "lop delete l 0 1",
    "lop delete l 0..2147483648",
    "lop delete l -2147483649..0",
    "lop delete l 0 delete",
    "lop delete l 0 noreply drop",
    "lop delete l 0 pipe drop",
    // lop get: <key> <index or range> [delete|drop]
    "lop get l",
    "lop get l -",
    "lop get l 2147483648",
    "lop get l 0 drop delete",
    "lop get l 0 drop noreply",
];

// The same for commands on sets and maps.
const BAD_SET_OR_MAP_FORMAT: [&str; 42] = [
    "sop create s 0 0 0 tail_trim",
    // sop insert: <key> <bytes> [create ..] [noreply|pipe]
    "sop insert s",
    "sop insert s x",
    "sop insert s 2147483648",
    "sop insert s 1 1",
    "sop insert s 1 create 0 0 0 head_trim",
    "sop insert {16001s} 1",
    // sop delete: <key> <bytes> [drop] [noreply|pipe]
    "sop delete s",
    "sop delete s 1 delete",
    "sop delete s 1 create 0 0 0",
    // sop exist: <key> <bytes> [pipe]
    "sop exist s",
    "sop exist s 1 drop",
    "sop exist s 1 noreply",
    // sop get: <key> <count> [delete|drop]
    "sop get s",
    "sop get s -1",
    "sop get s 4294967296",
    "sop get s 0..1",
    "sop get s 1 noreply",
    "mop create m 0 0 0 smallest_trim",
    // mop insert, mop upsert: <key> <field> <bytes> [create ..] [noreply|pipe], with fields of 250 bytes at most
    "mop insert m f",
    "mop insert m f 2147483648",
    "mop insert m {251f} 1",
    "mop insert m f\tg 1",
    "mop insert m f 1 create 0 0 0 tail_trim",
    "mop upsert m f",
    "mop upsert m {251f} 1",
    "mop upsert m f 1 drop",
    // mop update: <key> <field> <bytes> [noreply|pipe]
    "mop update m f",
    "mop update m {251f} 1",
    "mop update m f 1 create 0 0 0",
    // mop delete: <key> <lenfields> <numfields> [drop] [noreply|pipe], with 1 to 50,000 fields, or 0 0
    "mop delete m 1",
    "mop delete m 0 1",
    "mop delete m 1 0",
    "mop delete m 2147483648 1",
    "mop delete m 100001 50001",
    "mop delete m 1 1 delete",
    // mop get: <key> <lenfields> <numfields> [delete|drop]
    "mop get m",
    "mop get m 0",
    "mop get m 0 1",
    "mop get m 1 0",
    "mop get m 100001 50001",
    "mop get m 1 1 noreply",
];

// Lines that open a run by their first word and their last one, and whose words between spell nothing: a command that
// cannot be piped, or one with words that are missing or too many.
const BAD_PIPED_FORMAT: [&str; 14] = [
    "lop create l 0 0 0 pipe",
    "sop create s 0 0 0 noreply pipe",
    "lop get l 0 pipe",
    "sop get s 0 pipe",
    "mop get m 0 0 drop pipe",
    "lop insert pipe",
    "lop insert l 0 pipe",
    "lop insert l 0 1 noreply pipe",
    "lop insert l 0 1 pipe pipe",
    "lop insert l 0 1 create 0 0 pipe",
    "lop delete l 0 delete pipe",
    "sop insert s pipe",
    "sop exist s 1 noreply pipe",
    "mop update m pipe",
];

// Lines that open a run so, and are no command.
const UNKNOWN_PIPED: [&str; 6] = [
    "lop pipe",
    "bop pipe",
    "lop  LOP  pipe",
    "lop move l 0 pipe",
    "sop update s 1 pipe",
    "mop exist m f 1 pipe",
];

// Lines without a word, and lines whose first word is no command, or of which the first two are none.
const UNKNOWN: [&str; 22] = [
    "",
    "   ",
    "\t",
    "x",
    "SET a 0 0 1",
    "Get a",
    "QUIT",
    "sett a 0 0 1",
    "noreply",
    "flush_al",
    "stats",
    "bop",
    "set\ta 0 0 1",
    "lop",
    "lop move l 0",
    "lop GET l 0",
    "sop update s 1",
    "mop exist m 1",
    "bop get b 0",
    "insert lop l 0 1",
    "pipe",
    "lops insert l 0 1 pipe",
];

// Each of the lines has this answer, and the line behind it is read as a line: no block is taken.
fn expect_refused<R: Abort + Threads + Wait + Sync>(
    rt: &R,
    alloc: Global,
    lines: &[&str],
    answer: &str,
) -> Result<(), AllocError> {
    for line in lines {
        let input = format!(in alloc; "{line}|version|")?;
        let output = format!(in alloc; "{answer}|VERSION arcus-profile-2|")?;
        expect(rt, alloc, DEFAULT, &input, &output, Status::Done)?;
    }
    Ok(())
}

#[test]
fn bad_lines_are_answered(rt: HostRuntime) -> Result<(), Fail> {
    let answer = "CLIENT_ERROR bad command line format";
    expect_refused(&rt, rt.alloc(), &BAD_FORMAT, answer)?;
    expect_refused(&rt, rt.alloc(), &UNKNOWN, "ERROR unknown command")?;
    Ok(())
}

#[test]
fn bad_lines_on_collections_are_answered(rt: HostRuntime) -> Result<(), Fail> {
    let answer = "CLIENT_ERROR bad command line format";
    expect_refused(&rt, rt.alloc(), &BAD_LIST_FORMAT, answer)?;
    expect_refused(&rt, rt.alloc(), &BAD_SET_OR_MAP_FORMAT, answer)?;
    Ok(())
}

// They are the one command of their run, and the line behind it breaks it off.
#[test]
fn bad_piped_lines_are_answered(rt: HostRuntime) -> Result<(), Fail> {
    let answer = "RESPONSE 1|CLIENT_ERROR bad command line format|PIPE_ERROR bad error";
    expect_refused(&rt, rt.alloc(), &BAD_PIPED_FORMAT, answer)?;
    let answer = "RESPONSE 1|ERROR unknown command|PIPE_ERROR bad error";
    expect_refused(&rt, rt.alloc(), &UNKNOWN_PIPED, answer)?;
    Ok(())
}

// Input that is right up to the limits, and bad blocks. Each session comes to its end.
const ANSWERED: [(&str, &str); 53] = [
    // Numbers at their limits.
    (
        "set a 4294967295 0 1|x|get a|",
        "STORED|VALUE a 4294967295 1|x|END|",
    ),
    (
        "set a 00000000004294967295 0 01|x|get a|",
        "STORED|VALUE a 4294967295 1|x|END|",
    ),
    ("set a 0 4294967295 1|x|get a|", "STORED|VALUE a 0 1|x|END|"),
    ("set a 0 -2147483648 1|x|get a|", "STORED|END|"),
    ("set a 0 -0 1|x|get a|", "STORED|VALUE a 0 1|x|END|"),
    ("set a 0 -01 1|x|get a|", "STORED|VALUE a 0 1|x|END|"),
    ("cas a 0 0 1 18446744073709551615|x|", "NOT_FOUND|"),
    ("incr n 18446744073709551615|", "NOT_FOUND|"),
    (
        "incr n 1 4294967295 0 18446744073709551615|get n|",
        "18446744073709551615|VALUE n 4294967295 20|18446744073709551615|END|",
    ),
    (
        "decr n 7 3 0 00000000000000000005|get n|",
        "5|VALUE n 3 1|5|END|",
    ),
    ("incr n 1 0 -2147483648 5|get n|", "5|END|"),
    ("touch a 4294967295|", "NOT_FOUND|"),
    ("touch a -2147483648|", "NOT_FOUND|"),
    ("delete a 0|", "NOT_FOUND|"),
    (
        "  set  a   5 0 1 |x| get   a |",
        "STORED|VALUE a 5 1|x|END|",
    ),
    // Keys of one byte and of 16,000, and a block of keys.
    (
        "set {16000k} 0 0 1|x|get {16000k}|mget 16000 1|{16000k}|",
        "STORED|VALUE {16000k} 0 1|x|END|VALUE {16000k} 0 1|x|END|",
    ),
    ("set ключ 0 0 2|ж|get ключ|", "STORED|VALUE ключ 0 2|ж|END|"),
    (
        "set a 0 0 1|x|mget 1048576 1|{1048575 }a|version|",
        "STORED|VALUE a 0 1|x|END|VERSION arcus-profile-2|",
    ),
    (
        "mget 1048577 1|{1048576 }a|version|",
        "CLIENT_ERROR too large value|VERSION arcus-profile-2|",
    ),
    // noreply is a word like others where it is none.
    ("get noreply|", "END|"),
    (
        "set noreply 0 0 1|x|get a noreply|",
        "STORED|VALUE noreply 0 1|x|END|",
    ),
    ("gets noreply noreply|", "END|"),
    ("delete noreply|", "NOT_FOUND|"),
    ("incr noreply 1|", "NOT_FOUND|"),
    ("touch noreply 0|", "NOT_FOUND|"),
    // A bad block among good commands: too long by one, too short, without its line end, and too long by three.
    (
        "set a 0 0 1|x|set b 0 0 3|abcd|get a b|",
        "STORED|CLIENT_ERROR bad data chunk|ERROR unknown command|VALUE a 0 1|x|END|",
    ),
    (
        "set a 0 0 1|x|set a 0 0 3|b|get a|get a|",
        "STORED|CLIENT_ERROR bad data chunk|ERROR unknown command|VALUE a 0 1|x|END|",
    ),
    (
        "set a 0 0 1|x|set b 0 0 1|y\nget a|get a|",
        "STORED|CLIENT_ERROR bad data chunk|ERROR unknown command|VALUE a 0 1|x|END|",
    ),
    (
        "set a 0 0 1|x|set b 0 0 2|abcdget a|get b|",
        "STORED|CLIENT_ERROR bad data chunk|VALUE a 0 1|x|END|END|",
    ),
    // A block that is too large is passed over, whatever its bytes are.
    (
        "set a 0 0 1|x|set a 0 0 1048577|{1048577y}zzget a|",
        "STORED|CLIENT_ERROR too large value|VALUE a 0 1|x|END|",
    ),
    // A block of keys with a key too few or too many, with a bad byte, with a key that is too long, without a key, and
    // too long by one.
    (
        "mget 3 2|abc|version|",
        "CLIENT_ERROR bad data chunk|VERSION arcus-profile-2|",
    ),
    (
        "mget 3 1|a b|version|",
        "CLIENT_ERROR bad data chunk|VERSION arcus-profile-2|",
    ),
    (
        "mget 3 1|a\tb|version|",
        "CLIENT_ERROR bad data chunk|VERSION arcus-profile-2|",
    ),
    (
        "mget 4 2|a|b|version|",
        "CLIENT_ERROR bad data chunk|VERSION arcus-profile-2|",
    ),
    (
        "mget 16001 1|{16001k}|version|",
        "CLIENT_ERROR bad data chunk|VERSION arcus-profile-2|",
    ),
    (
        "mget 3 1|   |version|",
        "CLIENT_ERROR bad data chunk|VERSION arcus-profile-2|",
    ),
    (
        "mget 1 1|ab|version|",
        "CLIENT_ERROR bad data chunk|ERROR unknown command|VERSION arcus-profile-2|",
    ),
    (
        "set a 0 0 1|x|mget 6 3|  a a |version|",
        "STORED|CLIENT_ERROR bad data chunk|VERSION arcus-profile-2|",
    ),
    (
        "set a 0 0 1|x|mget 6 2|  a a |version|",
        "STORED|VALUE a 0 1|x|VALUE a 0 1|x|END|VERSION arcus-profile-2|",
    ),
    // A head with noreply has no text, whatever happens to it.
    (
        "set a 0 0 1 noreply|xyzversion|",
        "VERSION arcus-profile-2|",
    ),
    (
        "set a 0 0 1 noreply|xy|version|",
        "ERROR unknown command|VERSION arcus-profile-2|",
    ),
    ("set a 0 0 1048577 noreply|{1048577x}|get a|", "END|"),
    (
        "add a 0 0 1|x|add a 0 0 1 noreply|y|get a|",
        "STORED|VALUE a 0 1|x|END|",
    ),
    (
        "replace a 0 0 1 noreply|x|append a 0 0 1 noreply|x|prepend a 0 0 1 noreply|x|cas a 0 0 1 1 noreply|x|get a|",
        "END|",
    ),
    (
        "set a 0 0 1|x|cas a 0 0 1 2 noreply|y|incr a 1 noreply|decr a 1 noreply|get a|",
        "STORED|VALUE a 0 1|x|END|",
    ),
    (
        "set a 0 0 1048576|{1048576x}|append a 0 0 1 noreply|y|version|",
        "STORED|VERSION arcus-profile-2|",
    ),
    (
        "delete a noreply|delete a 0 noreply|touch a 0 noreply|incr a 1 noreply|flush_all noreply|get a|",
        "END|",
    ),
    (
        "incr n 1 6 0 9 noreply|decr n 2 noreply|touch n -1 noreply|get n|delete n noreply|get n|",
        "VALUE n 6 1|7|END|END|",
    ),
    // quit ends the session, and nothing behind it is handled.
    ("set a 0 0 1|x|quit|get a|", "STORED|"),
    ("sett|  quit |get a|", "ERROR unknown command|"),
    (
        "set a 0 0 1|xyzquit\nget a|",
        "CLIENT_ERROR bad data chunk|",
    ),
    (
        "quit now|quit|set a 0 0 9|ab",
        "CLIENT_ERROR bad command line format|",
    ),
    ("quit|{65536x}", ""),
];

#[test]
fn bad_input_loses_nothing(rt: HostRuntime) -> Result<(), Fail> {
    for (input, output) in ANSWERED {
        expect(&rt, rt.alloc(), DEFAULT, input, output, Status::Done)?;
        if input.len() < 100 {
            expect(&rt, rt.alloc(), BYTE_BY_BYTE, input, output, Status::Done)?;
        }
    }
    // A store for which there is no room has no text either.
    expect(
        &rt,
        rt.alloc(),
        ONE_MIB,
        "set a 0 -1 1048511|{1048511x}|set b 0 0 0 noreply||append a 0 0 1 noreply|x|get b|set b 0 0 0||",
        "STORED|END|SERVER_ERROR out of memory|",
        Status::Done,
    )?;
    Ok(())
}

// The same on lists, sets and maps.
const ANSWERED_ON_COLLECTIONS: [(&str, &str); 24] = [
    // Numbers at their limits.
    (
        "lop create l 4294967295 4294967295 4294967295|lop insert l 0 1|x|lop get l -2147483648..2147483647|",
        "CREATED|STORED|VALUE 4294967295 1|1 x|END|",
    ),
    (
        "lop create l 0 -2147483648 0 head_trim unreadable|lop get l 0|",
        "CREATED|NOT_FOUND|",
    ),
    (
        "lop create l 0 0 0|lop insert l 2147483647 1|x|lop insert l -2147483648 1|x|lop get l 2147483647|lop delete l -2147483648|",
        "CREATED|OUT_OF_RANGE|OUT_OF_RANGE|NOT_FOUND_ELEMENT|NOT_FOUND_ELEMENT|",
    ),
    (
        "lop insert l -0 01 create 00 -0 00|x|lop get l 00..-01|",
        "CREATED_STORED|VALUE 0 1|1 x|END|",
    ),
    (
        "sop insert s 1 create 0 0 1|x|sop get s 4294967295|",
        "CREATED_STORED|VALUE 0 1|1 x|END|",
    ),
    // A field has 250 bytes at most, on its line and in its block.
    (
        "mop insert m {250f} 1 create 0 0 0|x|mop get m 250 1|{250f}|",
        "CREATED_STORED|VALUE 0 1|{250f} 1 x|END|",
    ),
    (
        "mop get m 251 1|{251f}|mop delete m 251 1|{251f}|version|",
        "CLIENT_ERROR bad data chunk|CLIENT_ERROR bad data chunk|VERSION arcus-profile-2|",
    ),
    // A block of fields with a field too few or too many, with a bad byte, without a field, and too long by one.
    (
        "mop get m 3 3|f g|mop get m 3 1|f g|mop delete m 3 3|f g|mop delete m 3 1 drop|f g|version|",
        "CLIENT_ERROR bad data chunk|CLIENT_ERROR bad data chunk|CLIENT_ERROR bad data chunk|CLIENT_ERROR bad data chunk|VERSION arcus-profile-2|",
    ),
    (
        "mop get m 3 2|f\tg|mop get m 3 1|   |mop get m 3 2|f gh|version|",
        "CLIENT_ERROR bad data chunk|CLIENT_ERROR bad data chunk|CLIENT_ERROR bad data chunk|ERROR unknown command|VERSION arcus-profile-2|",
    ),
    // It has 1,048,576 bytes at most.
    (
        "mop get m 1048576 1|{1048575 }f|mop get m 1048577 1|{1048576 }f|version|",
        "NOT_FOUND|CLIENT_ERROR too large value|VERSION arcus-profile-2|",
    ),
    // An element has 32,768 bytes at most. One that is too large is passed over, whatever its bytes are.
    (
        "lop create l 0 0 0|lop insert l 0 32768|{32768x}|lop insert l 0 32769|{32769y}zzlop get l 0..1|",
        "CREATED|STORED|CLIENT_ERROR too large value|VALUE 0 1|32768 {32768x}|END|",
    ),
    (
        "sop insert s 32769|{32769x}|sop exist s 32769|{32769x}|sop delete s 32769 drop|{32769x}|version|",
        "CLIENT_ERROR too large value|CLIENT_ERROR too large value|CLIENT_ERROR too large value|VERSION arcus-profile-2|",
    ),
    (
        "mop insert m f 32769|{32769x}|mop update m f 32769|{32769x}|mop upsert m f 32769|{32769x}|version|",
        "CLIENT_ERROR too large value|CLIENT_ERROR too large value|CLIENT_ERROR too large value|VERSION arcus-profile-2|",
    ),
    (
        "mop upsert m f 32768 create 0 0 0|{32768x}|mop update m f 32768|{32768y}|mop get m 1 1 drop|f|",
        "CREATED_STORED|UPDATED|VALUE 0 1|f 32768 {32768y}|DELETED_DROPPED|",
    ),
    // An element whose block does not end where it should.
    (
        "lop insert l 0 1 create 0 0 0|xy|sop insert s 2 create 0 0 0|x|lop get l 0|sop get s 0|",
        "CLIENT_ERROR bad data chunk|ERROR unknown command|CLIENT_ERROR bad data chunk|ERROR unknown command|NOT_FOUND|",
    ),
    // Behind a line that is no request a block is read as lines.
    (
        "lop insert l 0 1 create 0 0|x|lop get l 0|",
        "CLIENT_ERROR bad command line format|ERROR unknown command|NOT_FOUND|",
    ),
    (
        "sop insert s 1 piped|version|mop get m 0 1|f|",
        "CLIENT_ERROR bad command line format|VERSION arcus-profile-2|CLIENT_ERROR bad command line format|ERROR unknown command|",
    ),
    // `0 0` has no block.
    (
        "mop get m 0 0|version|mop delete m 00 00 drop|version|",
        "NOT_FOUND|VERSION arcus-profile-2|NOT_FOUND|VERSION arcus-profile-2|",
    ),
    // A head with noreply has no text, whatever happens to it.
    (
        "lop create l 0 0 0 error unreadable noreply|lop insert l 0 1 noreply|a|lop delete l 5 noreply|lop get l 0|lop delete l 0 drop noreply|lop get l 0|",
        "UNREADABLE|NOT_FOUND|",
    ),
    (
        "sop create s 0 0 0 noreply|sop insert s 1 create 0 0 0 noreply|a|sop delete s 1 noreply|x|sop get s 0|sop delete s 1 drop noreply|a|sop get s 0|",
        "VALUE 0 1|1 a|END|NOT_FOUND|",
    ),
    (
        "mop insert m f 1 create 0 0 0 noreply|a|mop update m f 1 noreply|b|mop upsert m g 1 noreply|c|mop delete m 1 1 noreply|f|mop delete m 1 2 noreply|g|mop get m 0 0|",
        "VALUE 0 1|g 1 c|END|",
    ),
    (
        "mop insert m f 32769 noreply|{32769x}|sop insert s 1 create 0 0 0 noreply|xyzversion|sop get s 0|",
        "VERSION arcus-profile-2|NOT_FOUND|",
    ),
    // Words of the grammar as keys and fields.
    (
        "lop delete noreply 0|sop insert noreply 1 create 0 0 0|x|mop get noreply 7 1|noreply|sop get noreply 0|",
        "NOT_FOUND|CREATED_STORED|TYPE_MISMATCH|VALUE 0 1|1 x|END|",
    ),
    (
        "mop insert drop create 6 create 0 0 0|create|mop get drop 6 1 drop|create|",
        "CREATED_STORED|VALUE 0 1|create 6 create|DELETED_DROPPED|",
    ),
];

#[test]
fn bad_input_on_collections_loses_nothing(rt: HostRuntime) -> Result<(), Fail> {
    expect_rows(&rt, rt.alloc(), DEFAULT, &ANSWERED_ON_COLLECTIONS)?;
    Ok(())
}

// Input that ends within a unit, what is answered before, and how many bytes of the unit came; and lines at the limit.
const CUT: [(&str, &str, Status); 17] = [
    ("quit", "", Status::CutInput(4)),
    ("quit\r", "", Status::CutInput(5)),
    (" ", "", Status::CutInput(1)),
    (
        "version|get a",
        "VERSION arcus-profile-2|",
        Status::CutInput(5),
    ),
    (
        "get|get a\r",
        "CLIENT_ERROR bad command line format|",
        Status::CutInput(6),
    ),
    ("set a 0 0 1|", "", Status::CutInput(13)),
    ("set a 0 0 1|x", "", Status::CutInput(14)),
    ("set a 0 0 1|x\r", "", Status::CutInput(15)),
    ("set a 0 0 1\nx\r", "", Status::CutInput(14)),
    // Within the block of a head with noreply.
    ("set a 0 0 9 noreply|abc", "", Status::CutInput(24)),
    // Within a block that would be passed over, and within one of the most bytes that a line can name.
    ("set a 0 0 1048577|{1000x}", "", Status::CutInput(1019)),
    (
        "set a 0 0 2147483647|{200000x}",
        "",
        Status::CutInput(200_022),
    ),
    ("mget 2147483647 1000|abc", "", Status::CutInput(25)),
    // Within an element, and within a block of fields.
    ("lop insert l 0 3|ab", "", Status::CutInput(20)),
    (
        "mop get m 0 0|mop get m 3 2|f",
        "NOT_FOUND|",
        Status::CutInput(16),
    ),
    // A line has 65,536 bytes with its end.
    ("get a{65529 }|get a{65530 }\n", "END|END|", Status::Done),
    (
        "get a{65530 }|get a|",
        "CLIENT_ERROR line too long|",
        Status::LineTooLong,
    ),
];

#[test]
fn cut_input_is_told(rt: HostRuntime) -> Result<(), Fail> {
    for (input, output, status) in CUT {
        expect(&rt, rt.alloc(), DEFAULT, input, output, status)?;
        expect(&rt, rt.alloc(), BYTE_BY_BYTE, input, output, status)?;
    }
    Ok(())
}

// A line with so many keys `k` behind the text.
fn with_keys(alloc: Global, text: &str, keys: usize) -> Result<Vec<u8>, AllocError> {
    let mut bytes = bytes_of(alloc, text)?;
    for _ in 0..keys {
        bytes.extend_from_slice(b" k")?;
    }
    add_text(&mut bytes, "|version|")?;
    Ok(bytes)
}

// A retrieval names 1,000 keys at most, on its line and in its block; a key that is named twice is found twice. A command
// on a map names 50,000 fields at most.
#[test]
fn so_many_keys_and_fields_are_named(rt: HostRuntime) -> Result<(), Fail> {
    let alloc = rt.alloc();
    for (text, keys, found, ending) in [
        ("set k 0 0 0||get", 1000, 1000, "END|"),
        (
            "set k 0 0 0||get",
            1001,
            0,
            "CLIENT_ERROR bad command line format|",
        ),
        ("set k 0 0 0||mget 2000 1000|", 1000, 1000, "END|"),
        (
            "set k 0 0 0||mget 2000 999|",
            1000,
            0,
            "CLIENT_ERROR bad data chunk|",
        ),
        (
            "set k 0 0 0||mop get k 100000 50000|",
            50_000,
            0,
            "TYPE_MISMATCH|",
        ),
        (
            "set k 0 0 0||mop delete k 100000 49999|",
            50_000,
            0,
            "CLIENT_ERROR bad data chunk|",
        ),
    ] {
        let played = run_on(&rt, alloc, DEFAULT, with_keys(alloc, text, keys)?)?;
        let mut wanted = bytes_of(alloc, "STORED|")?;
        for _ in 0..found {
            add_text(&mut wanted, "VALUE k 0 0||")?;
        }
        add_text(&mut wanted, ending)?;
        add_text(&mut wanted, "VERSION arcus-profile-2|")?;
        expect_bytes(&rt, text, played.world.sink.bytes(), &wanted);
        assert_eq!(rt; played.status, Status::Done);
    }
    Ok(())
}

//! Runs of piped commands: what is answered, what is executed, and where a run ends.

use crate::harness::{DEFAULT, ONE_MIB, Setting, expect};
use crate::turning::{
    EVERY_SECOND, Manner, STEADY, desk_of, expect_of, expect_turns, link_of, turns,
};
use arc_core::End;
use arcus_tool::Status;
use pipe_session::Session;
use std::alloc::{AllocError, Global};
use std::test::Fail;

// What is sent, what is answered, and how the session ends.
type Row = (&'static str, &'static str, End);

// Values that a set takes once each: one that was put twice would be answered otherwise.
const SET: Row = (
    "sop insert s 1 create 0 0 0 pipe|a|sop insert s 1 pipe|b|sop insert s 1|c|sop get s 0|",
    "RESPONSE 3|CREATED_STORED|STORED|STORED|END|VALUE 0 3|1 a|1 b|1 c|END|",
    End::Ended,
);

// A line that lacks its number is no request and has no block. The last command is read with its block, and not executed.
const FAILED: Row = (
    "lop create q 0 0 0|lop insert q 0 1 pipe|x|lop insert q 9 x pipe|lop insert q 0 1|y|lop get q 0..-1|",
    "CREATED|RESPONSE 2|STORED|CLIENT_ERROR bad command line format|PIPE_ERROR bad error|VALUE 0 1|1 x|END|",
    End::Ended,
);

// A retrieval breaks a run off, and is answered behind it.
const BROKEN_OFF: Row = (
    "sop create s 0 0 0|sop insert s 1 pipe|a|get x|",
    "CREATED|RESPONSE 1|STORED|PIPE_ERROR bad error|END|",
    End::Ended,
);

// The end of the input breaks it off.
const LEFT_OPEN: Row = (
    "lop create l 0 0 0|lop insert l 0 1 pipe|x|",
    "CREATED|RESPONSE 1|STORED|PIPE_ERROR bad error|",
    End::Ended,
);

// The input ends within a unit of a second run.
const CUT: Row = (
    "sop insert s 1 create 0 0 0 pipe|a|sop insert s 1|b|sop insert s 1 pipe|c|sop insert s 1 pipe|d",
    "RESPONSE 2|CREATED_STORED|STORED|END|RESPONSE 1|STORED|PIPE_ERROR bad error|",
    End::Cut(22),
);

// A block that does not end where it should, in a run with a silent command behind it.
const SPOILED: Row = (
    "sop insert s 1 create 0 0 0 pipe|a|sop insert s 1 noreply|xyzsop insert s 1|b|sop get s 0|quit|",
    "RESPONSE 2|CREATED_STORED|CLIENT_ERROR bad data chunk|PIPE_ERROR bad error|STORED|VALUE 0 2|1 a|1 b|END|",
    End::Quit,
);

/// Rows on runs of each kind.
pub(crate) const RUNS: [Row; 6] = [SET, FAILED, BROKEN_OFF, LEFT_OPEN, CUT, SPOILED];

// Each command of a run is executed, and has a line among the statuses.
const EXECUTED: [Row; 8] = [
    SET,
    (
        "lop create l 0 0 0|lop insert l -1 1 pipe|a|lop insert l -1 1 pipe|b|lop insert l -1 1|c|lop get l 0..-1|",
        "CREATED|RESPONSE 3|STORED|STORED|STORED|END|VALUE 0 3|1 a|1 b|1 c|END|",
        End::Ended,
    ),
    // All commands that may be piped.
    (
        "lop insert l -1 1 create 0 0 0 pipe|a|lop delete l 5 pipe|sop insert s 1 create 0 0 0 pipe|x|sop exist s 1 pipe|x|sop exist s 1 pipe|y|sop delete s 1 drop pipe|x|mop insert m f 1 create 0 0 0 pipe|a|mop update m f 1 pipe|b|mop upsert m f 1 pipe|c|mop upsert m g 1 pipe|d|mop delete m 1 1 pipe|f|mop delete m 0 0 drop|lop get l 0|sop get s 0|mop get m 0 0|",
        "RESPONSE 12|CREATED_STORED|NOT_FOUND_ELEMENT|CREATED_STORED|EXIST|NOT_EXIST|DELETED_DROPPED|CREATED_STORED|UPDATED|REPLACED|STORED|DELETED|DELETED_DROPPED|END|VALUE 0 1|1 a|END|NOT_FOUND|NOT_FOUND|",
        End::Ended,
    ),
    // What is refused by what is held fails no run.
    (
        "set k 0 0 1|x|lop create l 0 0 1 error|lop insert k 0 1 pipe|a|lop insert n 0 1 pipe|a|lop insert l 9 1 pipe|a|lop insert l 0 1 pipe|a|lop insert l 0 1 pipe|b|lop delete l 3 pipe|sop exist k 1 pipe|x|lop insert l -1 1|c|",
        "STORED|CREATED|RESPONSE 8|TYPE_MISMATCH|NOT_FOUND|OUT_OF_RANGE|STORED|OVERFLOWED|NOT_FOUND_ELEMENT|TYPE_MISMATCH|OVERFLOWED|END|",
        End::Ended,
    ),
    (
        "sop create u 0 0 0 unreadable|sop exist u 1 pipe|x|sop insert u 1 pipe|x|sop insert u 1 pipe|x|sop exist u 1|x|",
        "CREATED|RESPONSE 4|UNREADABLE|STORED|ELEMENT_EXISTS|UNREADABLE|END|",
        End::Ended,
    ),
    // The question whether a set has a value may be a run's last command.
    (
        "sop insert s 1 create 0 0 0 pipe|a|sop exist s 1|a|sop exist s 1|b|",
        "RESPONSE 2|CREATED_STORED|EXIST|END|NOT_EXIST|",
        End::Ended,
    ),
    // Two runs, and a command by itself.
    (
        "lop insert l -1 1 create 0 0 0 pipe|a|lop insert l -1 1|b|lop insert l -1 1 pipe|c|lop insert l -1 1|d|lop insert l -1 1|e|lop get l 0..-1|",
        "RESPONSE 2|CREATED_STORED|STORED|END|RESPONSE 2|STORED|STORED|END|STORED|VALUE 0 5|1 a|1 b|1 c|1 d|1 e|END|",
        End::Ended,
    ),
    // Words are separated by spaces, however many, and lines may end with LF alone.
    (
        " lop  insert l 0 1 create 0 0 0   pipe \na|lop insert l 0 1\nb|",
        "RESPONSE 2|CREATED_STORED|STORED|END|",
        End::Ended,
    ),
];

// A status that tells an error fails its run, and is told with the others. What follows in the run is read, not executed,
// and has no status.
const FAILURES: [Row; 9] = [
    FAILED,
    SPOILED,
    // A line that is no command. A block behind it is read as one.
    (
        "lop create l 0 0 0|lop insert l 0 1 pipe|a|lop move l 0 pipe|lop insert l 0 9 pipe|version||lop insert l 0 1 pipe|b|lop delete l 0|lop get l 0..-1|",
        "CREATED|RESPONSE 2|STORED|ERROR unknown command|PIPE_ERROR bad error|VALUE 0 1|1 a|END|",
        End::Ended,
    ),
    // A block that is too long by one: the LF left over is an empty line, and the run's last.
    (
        "lop create l 0 0 0|lop insert l 0 1 pipe|a|lop insert l 0 1 pipe|xy|lop insert l 0 1|b|lop get l 0..-1|",
        "CREATED|RESPONSE 2|STORED|CLIENT_ERROR bad data chunk|PIPE_ERROR bad error|STORED|VALUE 0 2|1 b|1 a|END|",
        End::Ended,
    ),
    // One that takes all that was sent.
    (
        "lop create l 0 0 0|lop insert l 0 1 pipe|a|lop insert l 0 1 pipe|xyzlop insert l 0 1|b|lop get l 0..-1|",
        "CREATED|RESPONSE 2|STORED|CLIENT_ERROR bad data chunk|PIPE_ERROR bad error|VALUE 0 1|1 a|END|",
        End::Ended,
    ),
    // An element that is too large is passed over, whatever its bytes are.
    (
        "lop create l 0 0 0|lop insert l 0 1 pipe|a|lop insert l 0 32769 pipe|{32769z}zzlop insert l 0 1|b|lop get l 0..-1|",
        "CREATED|RESPONSE 2|STORED|CLIENT_ERROR too large value|PIPE_ERROR bad error|VALUE 0 1|1 a|END|",
        End::Ended,
    ),
    // A block that is not the fields which its line names.
    (
        "mop insert m f 1 create 0 0 0 pipe|a|mop delete m 3 1 pipe|f g|mop delete m 0 0 drop|mop get m 0 0|",
        "RESPONSE 2|CREATED_STORED|CLIENT_ERROR bad data chunk|PIPE_ERROR bad error|VALUE 0 1|f 1 a|END|",
        End::Ended,
    ),
    // A command that cannot be piped opens a run by its first word and its last one.
    (
        "sop create s 0 0 0 pipe|sop exist s 1|a|sop get s 0|",
        "RESPONSE 1|CLIENT_ERROR bad command line format|PIPE_ERROR bad error|NOT_FOUND|",
        End::Ended,
    ),
    (
        "lop pipe|lop pipe|bop pipe|version|",
        "RESPONSE 1|ERROR unknown command|PIPE_ERROR bad error|VERSION arcus-profile-2|",
        End::Ended,
    ),
];

// Words that are `pipe` and say nothing of a run, since they are no last words of commands on collections.
const NO_RUNS: [Row; 6] = [
    (
        "get pipe|gets a pipe|delete pipe|incr pipe 1|",
        "END|END|NOT_FOUND|NOT_FOUND|",
        End::Ended,
    ),
    (
        "lop create pipe 0 0 0|lop insert pipe 0 1|x|lop get pipe 0|lop delete pipe 0 drop|",
        "CREATED|STORED|VALUE 0 1|1 x|END|DELETED_DROPPED|",
        End::Ended,
    ),
    (
        "mop insert m pipe 1 create 0 0 0|x|mop get m 4 1|pipe|",
        "CREATED_STORED|VALUE 0 1|pipe 1 x|END|",
        End::Ended,
    ),
    (
        "pipe|lop|insert lop pipe|set a 0 0 1 pipe|version|",
        "ERROR unknown command|ERROR unknown command|ERROR unknown command|CLIENT_ERROR bad command line format|VERSION arcus-profile-2|",
        End::Ended,
    ),
    (
        "lop insert l 0 1 pipe noreply|version|",
        "CLIENT_ERROR bad command line format|VERSION arcus-profile-2|",
        End::Ended,
    ),
    // A key that is `pipe`, and behind it the word that opens a run.
    (
        "lop insert pipe 0 1 pipe|x|lop insert pipe 0 1|x|",
        "RESPONSE 2|NOT_FOUND|NOT_FOUND|END|",
        End::Ended,
    ),
];

// Every second pull and push answers `Again`, and some of the other pushes take one byte.
const HALTING: Manner<'static> = Manner {
    again_pulls: &EVERY_SECOND,
    again_pushes: &EVERY_SECOND,
    partial_pushes: &[1, 5, 9, 13],
    ..STEADY
};

#[test]
fn runs_are_answered(rt: HostRuntime) -> Result<(), Fail> {
    for manner in [STEADY, HALTING] {
        for row in EXECUTED {
            expect_turns(&rt, rt.alloc(), manner, row)?;
        }
        for row in FAILURES {
            expect_turns(&rt, rt.alloc(), manner, row)?;
        }
        for row in NO_RUNS {
            expect_turns(&rt, rt.alloc(), manner, row)?;
        }
    }
    Ok(())
}

// A run in which one command was executed.
const OPEN: &str = "lop insert l 0 1 create 0 0 0 pipe|a|";

// What the session answers by itself, or a command that might be piped, is the run's last: what is sent, its status and how
// the run's answer ends, and what is answered behind it.
const LASTS: [(&str, &str); 14] = [
    ("lop insert l 1 1|b|", "STORED|END|"),
    ("lop delete l 0 drop|", "DELETED_DROPPED|END|"),
    // No command, and an empty line.
    (
        "bogus|version|",
        "ERROR unknown command|PIPE_ERROR bad error|VERSION arcus-profile-2|",
    ),
    ("|get a|", "ERROR unknown command|PIPE_ERROR bad error|END|"),
    // No request.
    (
        "set a 0 0|get a|",
        "CLIENT_ERROR bad command line format|PIPE_ERROR bad error|END|",
    ),
    (
        "lop insert l 0 1 pipe noreply|get a|",
        "CLIENT_ERROR bad command line format|PIPE_ERROR bad error|END|",
    ),
    (
        "sop exist l 1 noreply|get a|",
        "CLIENT_ERROR bad command line format|PIPE_ERROR bad error|END|",
    ),
    // Blocks that end wrongly, also where the line says `noreply`.
    (
        "set a 0 0 1|xyzget a|",
        "CLIENT_ERROR bad data chunk|PIPE_ERROR bad error|END|",
    ),
    (
        "set a 0 0 1 noreply|xyzget a|",
        "CLIENT_ERROR bad data chunk|PIPE_ERROR bad error|END|",
    ),
    (
        "lop insert l 0 1 noreply|xyzlop get l 0..-1|",
        "CLIENT_ERROR bad data chunk|PIPE_ERROR bad error|VALUE 0 1|1 a|END|",
    ),
    // Blocks that are too large.
    (
        "set a 0 0 1048577|{1048577z}zzget a|",
        "CLIENT_ERROR too large value|PIPE_ERROR bad error|END|",
    ),
    (
        "sop insert s 32769 noreply|{32769z}zzget a|",
        "CLIENT_ERROR too large value|PIPE_ERROR bad error|END|",
    ),
    // Blocks that are not the keys and fields that their lines name.
    (
        "mget 3 1|a b|get a|",
        "CLIENT_ERROR bad data chunk|PIPE_ERROR bad error|END|",
    ),
    (
        "mop get m 3 1|f g|get a|",
        "CLIENT_ERROR bad data chunk|PIPE_ERROR bad error|END|",
    ),
];

// What ends a run from outside, what it is answered, and how the session ends.
const FROM_OUTSIDE: [Row; 27] = [
    ("", "", End::Ended),
    ("quit|version|", "", End::Quit),
    ("get a|", "END|", End::Ended),
    ("gets pipe|", "END|", End::Ended),
    ("mget 3 2|a b|", "END|", End::Ended),
    ("version|", "VERSION arcus-profile-2|", End::Ended),
    ("set a 0 0 1|x|", "STORED|", End::Ended),
    (
        "set a 0 0 1 noreply|x|get a|",
        "VALUE a 0 1|x|END|",
        End::Ended,
    ),
    ("incr n 1|", "NOT_FOUND|", End::Ended),
    ("delete l|lop get l 0|", "DELETED|NOT_FOUND|", End::Ended),
    ("touch l 0|", "TOUCHED|", End::Ended),
    ("flush_all|lop get l 0|", "OK|NOT_FOUND|", End::Ended),
    ("lop create l 0 0 0|", "EXISTS|", End::Ended),
    ("mop create m 0 0 0|", "CREATED|", End::Ended),
    (
        "sop create s 0 0 0 noreply|sop get s 0|",
        "NOT_FOUND_ELEMENT|",
        End::Ended,
    ),
    ("lop get l 0|", "VALUE 0 1|1 a|END|", End::Ended),
    (
        "lop get l 0 drop|",
        "VALUE 0 1|1 a|DELETED_DROPPED|",
        End::Ended,
    ),
    ("sop get l 0|", "TYPE_MISMATCH|", End::Ended),
    ("mop get l 1 1|f|", "TYPE_MISMATCH|", End::Ended),
    // A change that has no answer is executed behind the run, and what comes next opens another one.
    (
        "lop insert l -1 1 noreply|b|lop get l 0..1|",
        "VALUE 0 2|1 a|1 b|END|",
        End::Ended,
    ),
    (
        "lop delete l 0 noreply|lop delete l 0 pipe|lop delete l 0|",
        "RESPONSE 2|NOT_FOUND_ELEMENT|NOT_FOUND_ELEMENT|END|",
        End::Ended,
    ),
    (
        "sop insert s 1 create 0 0 0 noreply|x|sop get s 0|",
        "VALUE 0 1|1 x|END|",
        End::Ended,
    ),
    // The input ends within a line, within the block of a command that is piped and of one that is not, and within one that
    // is passed over.
    ("lop insert l 0 1", "", End::Cut(16)),
    ("lop insert l 0 1 pipe|b", "", End::Cut(24)),
    ("lop insert l 0 1|b\r", "", End::Cut(20)),
    ("set a 0 0 1048577|zz", "", End::Cut(21)),
    ("{65536y}", "CLIENT_ERROR line too long|", End::LineTooLong),
];

// Runs that are open, and what they are answered where they are broken off: one without a failure, one that has failed, and
// one that goes on behind its failure.
const OPEN_RUNS: [(&str, &str); 3] = [
    ("", "RESPONSE 1|CREATED_STORED|PIPE_ERROR bad error|"),
    (
        "lop pipe|",
        "RESPONSE 2|CREATED_STORED|ERROR unknown command|PIPE_ERROR bad error|",
    ),
    (
        "lop insert l pipe|lop delete l 0 pipe|lop insert l 0 1 pipe|b|",
        "RESPONSE 2|CREATED_STORED|CLIENT_ERROR bad command line format|PIPE_ERROR bad error|",
    ),
];

#[test]
fn runs_have_a_last_command(rt: HostRuntime) -> Result<(), Fail> {
    let alloc = rt.alloc();
    for (ending, answer) in LASTS {
        let input = format!(in alloc; "{OPEN}{ending}")?;
        let output = format!(in alloc; "RESPONSE 2|CREATED_STORED|{answer}")?;
        for manner in [STEADY, HALTING] {
            let row = (input.as_str(), output.as_str(), End::Ended);
            expect_turns(&rt, alloc, manner, row)?;
        }
    }
    Ok(())
}

#[test]
fn runs_are_broken_off(rt: HostRuntime) -> Result<(), Fail> {
    let alloc = rt.alloc();
    for (more, answer) in OPEN_RUNS {
        for (ending, behind, end) in FROM_OUTSIDE {
            let input = format!(in alloc; "{OPEN}{more}{ending}")?;
            let output = format!(in alloc; "{answer}{behind}")?;
            for manner in [STEADY, HALTING] {
                let row = (input.as_str(), output.as_str(), end);
                expect_turns(&rt, alloc, manner, row)?;
            }
        }
    }
    Ok(())
}

// The program's session answers the same, and tells how it ended.
#[test]
fn the_program_answers_runs(rt: HostRuntime) -> Result<(), Fail> {
    for (row, status) in [
        (SET, Status::Done),
        (FAILED, Status::Done),
        (BROKEN_OFF, Status::Done),
        (LEFT_OPEN, Status::Done),
        (SPOILED, Status::Done),
        (CUT, Status::CutInput(22)),
    ] {
        let (input, output, _) = row;
        for most in [1, 16_384] {
            let setting = Setting { most, ..DEFAULT };
            expect(&rt, rt.alloc(), setting, input, output, status)?;
        }
    }
    // A run's answer goes out with the other texts of its pull.
    let one_push = Setting {
        failing_pushes: &[1],
        ..DEFAULT
    };
    for (input, output, _) in [SET, FAILED, BROKEN_OFF, SPOILED] {
        expect(&rt, rt.alloc(), one_push, input, output, Status::Done)?;
    }
    // Where nothing can be evicted, want of room fails a run.
    expect(
        &rt,
        rt.alloc(),
        ONE_MIB,
        "set a 0 -1 1048511|{1048511x}|lop insert l 0 1 create 0 0 0 pipe|x|set a 0 0 0||lop insert l 0 1 create 0 0 0 pipe|x|lop insert l 0 1|y|",
        "STORED|RESPONSE 1|SERVER_ERROR out of memory|PIPE_ERROR bad error|STORED|RESPONSE 2|CREATED_STORED|STORED|END|",
        Status::Done,
    )?;
    Ok(())
}

// So many times this text, and another one behind.
fn repeated(
    alloc: Global,
    front: &str,
    number: usize,
    text: &str,
    behind: &str,
) -> Result<String, AllocError> {
    let mut all = String::from_str(alloc, front)?;
    for _ in 0..number {
        all.push_str(text)?;
    }
    all.push_str(behind)?;
    Ok(all)
}

// So many inserts that are piped, what follows them, how many of the inserts were executed, and what is answered behind
// their statuses. Each answer has 500 statuses: the inserts' and, where it is one of the first 500, that of the line behind.
const LONG_RUNS: [(usize, &str, usize, &str); 14] = [
    // The 500th command is the last one, or the one behind it is.
    (
        499,
        "lop insert p -1 1|x|lop get p 499|lop get p 500|",
        500,
        "END|VALUE 0 1|1 x|END|NOT_FOUND_ELEMENT|",
    ),
    (
        500,
        "lop insert p -1 1|x|lop get p 499|lop get p 500|",
        500,
        "PIPE_ERROR command overflow|VALUE 0 1|1 x|END|NOT_FOUND_ELEMENT|",
    ),
    (
        501,
        "lop insert p -1 1|x|lop get p 499|lop get p 500|",
        500,
        "PIPE_ERROR command overflow|VALUE 0 1|1 x|END|NOT_FOUND_ELEMENT|",
    ),
    // Without a last command.
    (500, "", 500, "PIPE_ERROR bad error|"),
    (501, "", 500, "PIPE_ERROR command overflow|"),
    (502, "", 500, "PIPE_ERROR command overflow|"),
    (
        500,
        "version|",
        500,
        "PIPE_ERROR bad error|VERSION arcus-profile-2|",
    ),
    (
        501,
        "version|",
        500,
        "PIPE_ERROR command overflow|VERSION arcus-profile-2|",
    ),
    (501, "quit|version|", 500, "PIPE_ERROR command overflow|"),
    // The change without an answer that breaks the run off is executed.
    (
        500,
        "lop insert p 0 1 noreply|y|lop get p 500|",
        500,
        "PIPE_ERROR bad error|VALUE 0 1|1 x|END|",
    ),
    // The line behind 500 is not looked at: neither one that is no command, nor one that is marked.
    (
        500,
        "bogus|version|",
        500,
        "PIPE_ERROR command overflow|VERSION arcus-profile-2|",
    ),
    (
        500,
        "lop pipe|version|",
        500,
        "PIPE_ERROR command overflow|VERSION arcus-profile-2|",
    ),
    // The 500th fails the run, and that stays so however many follow.
    (
        499,
        "bogus|version|",
        499,
        "ERROR unknown command|PIPE_ERROR bad error|VERSION arcus-profile-2|",
    ),
    (
        499,
        "lop pipe|lop insert p 0 1 pipe|x|lop insert p 0 1 pipe|x|lop insert p 0 1|x|lop get p 499|",
        499,
        "ERROR unknown command|PIPE_ERROR bad error|NOT_FOUND_ELEMENT|",
    ),
];

#[test]
fn runs_have_500_commands_at_most(rt: HostRuntime) -> Result<(), Fail> {
    let alloc = rt.alloc();
    for (number, ending, stored, answer) in LONG_RUNS {
        let piped = "lop insert p -1 1 pipe|x|";
        let input = repeated(alloc, "lop create p 0 0 0|", number, piped, ending)?;
        let output = repeated(alloc, "CREATED|RESPONSE 500|", stored, "STORED|", answer)?;
        expect(&rt, alloc, DEFAULT, &input, &output, Status::Done)?;
    }
    Ok(())
}

// The pushes that take one byte, beside those that answer `Again`.
const PARTIAL_PUSHES: [&[u64]; 2] = [&[], &[1, 3]];

// Texts that wait and the answer to a run, and two such answers, have more than 16,384 bytes together.
#[test]
fn long_answers_go_on(rt: HostRuntime) -> Result<(), Fail> {
    let alloc = rt.alloc();
    let last = "lop delete l 0|";
    let piped = "lop delete l 0 pipe|";
    let versions = repeated(alloc, "lop create l 0 0 0|", 400, "version|", "")?;
    let one = repeated(alloc, &versions, 499, piped, last)?;
    let input = repeated(alloc, &one, 499, piped, last)?;
    let status = "NOT_FOUND_ELEMENT|";
    let versions = repeated(
        alloc,
        "CREATED|",
        400,
        "VERSION arcus-profile-2|",
        "RESPONSE 500|",
    )?;
    let one = repeated(alloc, &versions, 500, status, "END|RESPONSE 500|")?;
    let output = repeated(alloc, &one, 500, status, "END|")?;
    for partial_pushes in PARTIAL_PUSHES {
        let manner = Manner {
            again_pushes: &[0, 2, 4],
            partial_pushes,
            ..STEADY
        };
        let row = (input.as_str(), output.as_str(), End::Ended);
        expect_turns(&rt, alloc, manner, row)?;
    }
    Ok(())
}

// Input behind which a pull fails, and what was sent: a run that is open then is not answered, nor is one that has failed.
const FAILING_PULLS: [(&str, &str); 4] = [
    ("lop create l 0 0 0|lop insert l 0 1 pipe|x|", "CREATED|"),
    (
        "sop insert s 1 create 0 0 0 pipe|a|sop insert s 1|b|sop insert s 1 pipe|c|",
        "RESPONSE 2|CREATED_STORED|STORED|END|",
    ),
    ("version|lop pipe|lop pipe|", "VERSION arcus-profile-2|"),
    ("version|lop pipe|lop ins", "VERSION arcus-profile-2|"),
];

// The push of a run's answer that fails, at once or behind its first byte, and what was sent.
const FAILING_PUSHES: [(u64, &[u64], &str); 2] = [(0, &[], ""), (1, &[0], "R")];

#[test]
fn faults_leave_runs_open(rt: HostRuntime) -> Result<(), Fail> {
    for (input, output) in FAILING_PULLS {
        let manner = Manner {
            failing_pulls: &[1],
            ..STEADY
        };
        expect_turns(&rt, rt.alloc(), manner, (input, output, End::ReadFault))?;
    }
    for (push, partial_pushes, output) in FAILING_PUSHES {
        let manner = Manner {
            failing_pushes: &[push],
            partial_pushes,
            ..STEADY
        };
        expect_turns(&rt, rt.alloc(), manner, (SET.0, output, End::WriteFault))?;
    }
    Ok(())
}

// No run is open on a session's next link, however it left the one before.
#[test]
fn no_run_outlives_its_link(rt: HostRuntime) -> Result<(), Fail> {
    let alloc = rt.alloc();
    let mut session = Session::new(alloc)?;
    let failing = Manner {
        failing_pulls: &[1],
        ..STEADY
    };
    for (input, output) in FAILING_PULLS {
        let row = (input, output, End::ReadFault);
        expect_of(&rt, alloc, &mut session, failing, row)?;
        session.fresh();
        expect_of(&rt, alloc, &mut session, STEADY, SET)?;
        session.fresh();
    }
    // Three turns: a pull, and two commands of a run of three.
    let mut link = link_of(alloc, SET.0, STEADY)?;
    let mut desk = desk_of(alloc)?;
    let turned = turns(&mut session, &mut desk, &mut link, 3);
    assert_eq!(rt; turned.end, None);
    assert!(rt; link.sent().is_empty());
    session.fresh();
    expect_of(&rt, alloc, &mut session, STEADY, FAILED)?;
    Ok(())
}

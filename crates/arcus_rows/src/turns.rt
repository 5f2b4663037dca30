//! A session by turns: what it sends and how it ends, whatever its link does between.

use crate::turning::{
    EVERY_SECOND, Manner, STEADY, desk_of, expect_of, expect_turns, link_of, turns,
};
use arc_core::End;
use pipe_session::Session;
use std::test::Fail;

// What is sent, what is answered, and how the session ends.
type Row = (&'static str, &'static str, End);

// Two units: a line with a block, of 18 bytes, and a line of 7.
const STORE_AND_GET: Row = (
    "set a 5 0 3|abc|get a|",
    "STORED|VALUE a 5 3|abc|END|",
    End::Ended,
);

// A list that trims its tail: it is read at its ends and past them, and then filled from both.
const LIST: Row = (
    "lop create l 0 0 5|lop insert l -1 1|a|lop insert l -1 1|b|lop insert l -1 1|c|lop insert l -1 1|d|lop insert l -1 1|e|lop get l -1..-3|lop get l 3..9|lop insert l 6 1|f|lop insert l 0 1|f|lop insert l 5 1|g|lop get l 0..-1|",
    "CREATED|STORED|STORED|STORED|STORED|STORED|VALUE 0 3|1 e|1 d|1 c|END|VALUE 0 2|1 d|1 e|END|OUT_OF_RANGE|STORED|OUT_OF_RANGE|VALUE 0 5|1 f|1 a|1 b|1 c|1 d|END|",
    End::Ended,
);

// A value of more than 16,384 bytes has no room among the texts that wait: it is sent by itself, twice.
const LONG_VALUE: Row = (
    "set a 0 0 16385|{16385x}|get a|get a|version|",
    "STORED|VALUE a 0 16385|{16385x}|END|VALUE a 0 16385|{16385x}|END|VERSION arcus-profile-2|",
    End::Ended,
);

const ROWS: [Row; 11] = [
    STORE_AND_GET,
    LIST,
    LONG_VALUE,
    // Texts that together have more than 16,384 bytes, each of which has room by itself.
    (
        "set a 0 0 5000|{5000x}|get a|get a|get a|get a|get a|version|",
        "STORED|VALUE a 0 5000|{5000x}|END|VALUE a 0 5000|{5000x}|END|VALUE a 0 5000|{5000x}|END|VALUE a 0 5000|{5000x}|END|VALUE a 0 5000|{5000x}|END|VERSION arcus-profile-2|",
        End::Ended,
    ),
    (
        "set a 0 0 1 noreply|x|get a|",
        "VALUE a 0 1|x|END|",
        End::Ended,
    ),
    // A block that does not end where it should; the LF left over is an empty line.
    (
        "set a 0 0 3|abcd|get a|",
        "CLIENT_ERROR bad data chunk|ERROR unknown command|END|",
        End::Ended,
    ),
    ("sett|  quit |get a|", "ERROR unknown command|", End::Quit),
    ("set a 0 0 1|x|quit|get a|", "STORED|", End::Quit),
    ("set a 0 0 9|abc", "", End::Cut(16)),
    ("version|get a", "VERSION arcus-profile-2|", End::Cut(5)),
    (
        "version|{65536x}",
        "VERSION arcus-profile-2|CLIENT_ERROR line too long|",
        End::LineTooLong,
    ),
];

// Each row as it is, and where every second pull and push answers `Again` and some of the other pushes take one byte.
#[test]
fn rows_are_answered_by_turns(rt: HostRuntime) -> Result<(), Fail> {
    let manner = Manner {
        again_pulls: &EVERY_SECOND,
        again_pushes: &EVERY_SECOND,
        partial_pushes: &[1, 5, 9, 13],
        ..STEADY
    };
    for row in ROWS {
        let steady = expect_turns(&rt, rt.alloc(), STEADY, row)?;
        let turned = expect_turns(&rt, rt.alloc(), manner, row)?;
        assert_eq!(rt; steady.agains, 0);
        assert!(rt; turned.agains > 0);
    }
    Ok(())
}

// The pulls and the pushes that are to be made again, how many turns there are, and how many answer `Again`. Each of the
// two units comes in a piece of its own, and has a turn; so have each pull that brings bytes, and the end. A call that is
// to be made again costs one turn more, where it is made: there are three pulls and two pushes.
const MADE_AGAIN: [(&[u64], &[u64], u64, u64); 9] = [
    (&[], &[], 5, 0),
    (&[0], &[], 6, 1),
    (&[1], &[], 6, 1),
    (&[2], &[], 6, 1),
    (&[3], &[], 5, 0),
    (&[], &[0], 6, 1),
    (&[], &[1], 6, 1),
    (&[], &[2], 5, 0),
    (&[1], &[1], 7, 2),
];

#[test]
fn each_call_is_made_again(rt: HostRuntime) -> Result<(), Fail> {
    for (again_pulls, again_pushes, turns, agains) in MADE_AGAIN {
        let manner = Manner {
            lengths: &[18],
            again_pulls,
            again_pushes,
            ..STEADY
        };
        let turned = expect_turns(&rt, rt.alloc(), manner, STORE_AND_GET)?;
        assert_eq!(rt; (turned.turns, turned.agains), (turns, agains));
    }
    Ok(())
}

// The pushes that are to be made again, and the one between them that takes one byte.
const LONG_TEXT_PUSHES: [(&[u64], &[u64]); 4] = [
    (&[0, 2], &[1]),
    (&[1, 3], &[2]),
    (&[2, 4], &[3]),
    (&[3, 5], &[4]),
];

#[test]
fn long_texts_go_on(rt: HostRuntime) -> Result<(), Fail> {
    for (again_pushes, partial_pushes) in LONG_TEXT_PUSHES {
        let manner = Manner {
            again_pushes,
            partial_pushes,
            ..STEADY
        };
        let turned = expect_turns(&rt, rt.alloc(), manner, LONG_VALUE)?;
        assert_eq!(rt; turned.agains, 2);
    }
    Ok(())
}

// Three units in pieces of their own, whose texts take a push each.
const THREE: &str = "version|version|version|";

// The pushes that fail and those that take one byte, and what was sent.
const FAILING_PUSHES: [(u64, &[u64], &str); 4] = [
    (0, &[], ""),
    (1, &[], "VERSION arcus-profile-2|"),
    (2, &[], "VERSION arcus-profile-2|VERSION arcus-profile-2|"),
    (1, &[0], "V"),
];

// The first piece of the input, the pull that fails, and what was sent: the texts of all units that came before.
const FAILING_PULLS: [(usize, u64, &str); 5] = [
    (9, 0, ""),
    (9, 1, "VERSION arcus-profile-2|"),
    (17, 1, "VERSION arcus-profile-2|"),
    (18, 1, "VERSION arcus-profile-2|VERSION arcus-profile-2|"),
    (
        9,
        2,
        "VERSION arcus-profile-2|VERSION arcus-profile-2|VERSION arcus-profile-2|",
    ),
];

#[test]
fn faults_end_a_session(rt: HostRuntime) -> Result<(), Fail> {
    for (push, partial_pushes, output) in FAILING_PUSHES {
        let manner = Manner {
            lengths: &[9, 9],
            failing_pushes: &[push],
            partial_pushes,
            ..STEADY
        };
        let row = (THREE, output, End::WriteFault);
        expect_turns(&rt, rt.alloc(), manner, row)?;
    }
    for (length, pull, output) in FAILING_PULLS {
        let manner = Manner {
            lengths: &[length],
            failing_pulls: &[pull],
            ..STEADY
        };
        let row = (THREE, output, End::ReadFault);
        expect_turns(&rt, rt.alloc(), manner, row)?;
    }
    Ok(())
}

// Whatever a session has done, for another link it does as one that has just begun.
#[test]
fn a_session_begins_anew(rt: HostRuntime) -> Result<(), Fail> {
    let alloc = rt.alloc();
    let mut session = Session::new(alloc)?;
    for row in ROWS {
        expect_of(&rt, alloc, &mut session, STEADY, row)?;
        session.fresh();
        expect_of(&rt, alloc, &mut session, STEADY, STORE_AND_GET)?;
        session.fresh();
    }
    // A push has taken one byte of a long text, and the next one has failed.
    let manner = Manner {
        failing_pushes: &[2],
        partial_pushes: &[1],
        ..STEADY
    };
    let row = (LONG_VALUE.0, "STORED|V", End::WriteFault);
    expect_of(&rt, alloc, &mut session, manner, row)?;
    session.fresh();
    expect_of(&rt, alloc, &mut session, STEADY, STORE_AND_GET)?;
    session.fresh();
    // It has pulled three units and handled one, whose text it owes.
    let mut link = link_of(alloc, THREE, STEADY)?;
    let mut desk = desk_of(alloc)?;
    let turned = turns(&mut session, &mut desk, &mut link, 2);
    assert_eq!(rt; turned.end, None);
    assert!(rt; link.sent().is_empty());
    session.fresh();
    expect_of(&rt, alloc, &mut session, STEADY, STORE_AND_GET)?;
    Ok(())
}

//! How a session is worked by turns: over a cache, a link and a clock in memory.

use crate::harness::{bytes_of, expect_bytes};
use arc_core::{End, LinkCalls, ListClock, MemoryLink};
use cache_engine::{Cache, Settings};
use pipe_session::{Direct, Session, Turn};
use std::alloc::{AllocError, Global};
use std::process::Abort;
use std::test::Fail;

/// How a link answers, beside its input. Calls are counted from 0, pulls and pushes apart.
#[derive(Clone, Copy)]
pub(crate) struct Manner<'a> {
    /// The lengths of the pieces in which the input comes; the rest comes at once.
    pub lengths: &'a [usize],
    /// The pulls that fail.
    pub failing_pulls: &'a [u64],
    /// The pulls that answer `Again`.
    pub again_pulls: &'a [u64],
    /// The pushes that fail.
    pub failing_pushes: &'a [u64],
    /// The pushes that answer `Again`.
    pub again_pushes: &'a [u64],
    /// The pushes that take one byte.
    pub partial_pushes: &'a [u64],
}

/// All at once, without a fault, and never to be asked again.
pub(crate) const STEADY: Manner<'static> = Manner {
    lengths: &[],
    failing_pulls: &[],
    again_pulls: &[],
    failing_pushes: &[],
    again_pushes: &[],
    partial_pushes: &[],
};

/// Every second call, from the first on.
pub(crate) const EVERY_SECOND: [u64; 12] = [0, 2, 4, 6, 8, 10, 12, 14, 16, 18, 20, 22];

/// How a session went.
#[derive(Clone, Copy, Debug, PartialEq, Eq)]
pub(crate) struct Turned {
    /// How it ended; `None` where it was not over by then.
    pub end: Option<End>,
    /// How many turns were worked.
    pub turns: u64,
    /// How many of them answered `Again`.
    pub agains: u64,
}

/// A link from which the bytes come for which this text stands.
pub(crate) fn link_of(
    alloc: Global,
    input: &str,
    manner: Manner<'_>,
) -> Result<MemoryLink, AllocError> {
    let calls = LinkCalls {
        failing_pulls: manner.failing_pulls.to_vec(alloc)?,
        again_pulls: manner.again_pulls.to_vec(alloc)?,
        failing_pushes: manner.failing_pushes.to_vec(alloc)?,
        again_pushes: manner.again_pushes.to_vec(alloc)?,
        partial_pushes: manner.partial_pushes.to_vec(alloc)?,
    };
    let lengths = manner.lengths.to_vec(alloc)?;
    Ok(MemoryLink::new(alloc, bytes_of(alloc, input)?, lengths, calls))
}

/// A cache of 64 MiB, of which a session has the sole use.
pub(crate) fn desk_of(alloc: Global) -> Result<Direct<Cache>, Fail> {
    let settings = Settings::of_mib(64).ok_or("64 MiB is a limit")?;
    let executor = Cache::new(alloc, settings)?;
    Ok(Direct { executor })
}

/// Works the session on the link until it is over, at second 0, and so many turns at most.
pub(crate) fn turns(
    session: &mut Session,
    desk: &mut Direct<Cache>,
    link: &mut MemoryLink,
    most: u64,
) -> Turned {
    let mut clock = ListClock::new(&[0]);
    let mut turned = Turned {
        end: None,
        turns: 0,
        agains: 0,
    };
    for _ in 0..most {
        if session.is_over() {
            break;
        }
        turned.turns = turned.turns.saturating_add(1);
        match session.turn(desk, link, &mut clock) {
            Turn::More => (),
            Turn::Again => turned.agains = turned.agains.saturating_add(1),
            Turn::Over(end) => turned.end = Some(end),
        }
    }
    turned
}

/// Works the session on an empty cache and a link of this manner, and asks for that output and that end.
pub(crate) fn expect_of(
    rt: &impl Abort,
    alloc: Global,
    session: &mut Session,
    manner: Manner<'_>,
    row: (&str, &str, End),
) -> Result<Turned, Fail> {
    let (input, output, end) = row;
    let mut desk = desk_of(alloc)?;
    let mut link = link_of(alloc, input, manner)?;
    let turned = turns(session, &mut desk, &mut link, 10_000);
    expect_bytes(rt, input, link.sent(), &bytes_of(alloc, output)?);
    assert_eq!(rt; turned.end, Some(end), "{input}");
    assert!(rt; session.is_over());
    Ok(turned)
}

/// The same with a session that has just begun.
pub(crate) fn expect_turns(
    rt: &impl Abort,
    alloc: Global,
    manner: Manner<'_>,
    row: (&str, &str, End),
) -> Result<Turned, Fail> {
    let mut session = Session::new(alloc)?;
    expect_of(rt, alloc, &mut session, manner, row)
}

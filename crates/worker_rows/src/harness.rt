//! Links and caches for the tests. In the texts of rows `|` stands for CR LF.
ghost use Rattle.std.specs.Prelude.{◌≡◌, Some, IfOk};

use arc_core::{End, LinkCalls, ListClock, MemoryLink};
use cache_engine::{Cache, Settings};
use pipe_session::{Direct, Session};
use std::alloc::{AllocError, Global};
use std::process::Abort;
use std::test::Fail;
use turn_lock::{Seat, TurnLock};

/// What comes on a link, which of its pulls and pushes answer `Again`, what is sent to it, and how its session ends.
#[derive(Clone, Copy)]
pub(crate) struct Row<'a> {
    pub input: &'a str,
    pub again_pulls: &'a [u64],
    pub again_pushes: &'a [u64],
    pub output: &'a str,
    pub end: End,
}

/// Nothing comes, and nothing is sent.
pub(crate) const EMPTY: Row<'static> = Row {
    input: "",
    again_pulls: &[],
    again_pushes: &[],
    output: "",
    end: End::Ended,
};

/// The bytes for which a row's text stands.
pub(crate) fn bytes_of(alloc: Global, text: &str) -> Result<Vec<u8>, AllocError> {
    let mut bytes = Vec::new(alloc);
    add_text(&mut bytes, text)?;
    Ok(bytes)
}

/// Adds the bytes for which a row's text stands.
pub(crate) fn add_text(bytes: &mut Vec<u8>, text: &str) -> Result<(), AllocError> {
    for &byte in text.as_bytes() {
        match byte {
            b'|' => bytes.extend_from_slice(b"\r\n")?,
            byte => bytes.push(byte)?,
        }
    }
    Ok(())
}

/// The link of this row.
pub(crate) fn link_of(alloc: Global, row: &Row<'_>) -> Result<MemoryLink, AllocError> {
    let calls = LinkCalls {
        failing_pulls: Vec::new(alloc),
        again_pulls: row.again_pulls.to_vec(alloc)?,
        failing_pushes: Vec::new(alloc),
        again_pushes: row.again_pushes.to_vec(alloc)?,
        partial_pushes: Vec::new(alloc),
    };
    let bytes = bytes_of(alloc, row.input)?;
    Ok(MemoryLink::new(alloc, bytes, Vec::new(alloc), calls))
}

/// The links of these rows.
pub(crate) fn links_of(alloc: Global, rows: &[Row<'_>]) -> Result<Vec<MemoryLink>, AllocError> {
    let mut links = Vec::new(alloc);
    for row in rows {
        links.push(link_of(alloc, row)?)?;
    }
    Ok(links)
}

/// Asks that the link came back as its row says.
pub(crate) fn expect_row(
    rt: &impl Abort,
    alloc: Global,
    row: &Row<'_>,
    link: &MemoryLink,
    end: End,
) -> Result<(), AllocError> {
    let wanted = bytes_of(alloc, row.output)?;
    if link.sent() != wanted.as_slice() {
        let text = str::from_utf8(link.sent()).unwrap_or("no text");
        panic!(rt; "{} gives {text}", row.input);
    }
    assert_eq!(rt; end, row.end, "{}", row.input);
    Ok(())
}

/// Asks that these links came back in the order of these rows.
pub(crate) fn expect_rows(
    rt: &impl Abort,
    alloc: Global,
    rows: &[Row<'_>],
    returned: &[(MemoryLink, End)],
) -> Result<(), AllocError> {
    assert_eq!(rt; returned.len(), rows.len());
    for ((link, end), row) in returned.iter().zip(rows.iter()) {
        expect_row(rt, alloc, row, link, *end)?;
    }
    Ok(())
}

/// An empty cache of 64 MiB.
pub(crate) fn empty_cache(alloc: Global) -> Result<Cache, Fail> {
    let settings = Settings::of_mib(64).ok_or("64 MiB is a limit")?;
    Ok(Cache::new(alloc, settings)?)
}

/// A cache of 64 MiB on which a session has run at second 0, to which this text came.
pub(crate) fn cache_after(alloc: Global, text: &str) -> Result<Cache, Fail> {
    let mut desk = Direct {
        executor: empty_cache(alloc)?,
    };
    let row = Row {
        input: text,
        ..EMPTY
    };
    let mut link = link_of(alloc, &row)?;
    let mut session = Session::new(alloc)?;
    let mut clock = ListClock::new(&[0]);
    for _ in 0..1000 {
        if session.is_over() {
            break;
        }
        session.turn(&mut desk, &mut link, &mut clock);
    }
    Ok(desk.executor)
}

/// A lock round a cache on which a session has run to which this text came, and the lock's first seat.
pub(crate) fn opened(alloc: Global, text: &str) -> Result<(TurnLock<Cache>, Seat<Cache>), Fail>
    ensures { IfOk result (λ made. (made.1.lock ≡ made.0) × (made.1.register ≡ Some 1)) }
{
    let cache = cache_after(alloc, text)?;
    Ok(TurnLock::new(alloc, cache)?)
}

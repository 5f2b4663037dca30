//! Small streams cut at every place, and lines and blocks at their limits. The units are worked by hand.
ghost use Rattle.std.specs.Prelude.{◌≡◌, ◌<◌, None, IfOk, true};
ghost use Rattle.frame_reader.specs.Progress.{ready_unit};

use crate::{Frames, Unit};
use arc_core::{Heads, Need};
use std::alloc::{AllocError, Global};
use std::test::Fail;

// Five lines ask for blocks: one of 6 bytes, one of 4 bytes where 3 are the limit, the longest that needs no memory of its
// own, one of a byte more, and one of 1,048,576 bytes.
#[derive(Drop)]
struct FiveHeads;

impl Heads for FiveHeads {
    ghost use Rattle.std.specs.Prelude.{if◌then◌else◌, codes, bytes_eq};
    ghost use Rattle.arc_core.specs.declared.outside.Need.TheVariants.{Nothing, Block};

    ghost needs = { λ line. if bytes_eq line (codes "six") then Block 6 6
        else (if bytes_eq line (codes "four") then Block 4 3
        else (if bytes_eq line (codes "fits") then Block 131070 131070
        else (if bytes_eq line (codes "large") then Block 131071 131071
        else (if bytes_eq line (codes "value") then Block 1048576 1048576 else Nothing)))) };

    fn need(&self, line: &[u8]) -> Need {
        if line == b"six".as_slice() {
            return Need::Block { len: 6, limit: 6 };
        }
        if line == b"four".as_slice() {
            return Need::Block { len: 4, limit: 3 };
        }
        if line == b"fits".as_slice() {
            return Need::Block {
                len: 131_070,
                limit: 131_070,
            };
        }
        if line == b"large".as_slice() {
            return Need::Block {
                len: 131_071,
                limit: 131_071,
            };
        }
        if line == b"value".as_slice() {
            return Need::Block {
                len: 1_048_576,
                limit: 1_048_576,
            };
        }
        Need::Nothing
    }
}

// Reads a piece and writes down each unit that gets ready. Tells whether the stream goes on.
fn read(
    frames: &mut Frames<FiveHeads>,
    piece: &[u8],
    seen: &mut Vec<u8>,
) -> Result<bool, AllocError>
    requires { ready_unit frames.old ≡ None }
    ensures { IfOk result (λ goes_on. goes_on ≡ true → ready_unit frames.new ≡ None) }
{
    let mut rest = piece;
    while !rest.is_empty() {
        let taken = frames.feed(rest);
        rest = &rest[taken..];
        match frames.unit() {
            Unit::Wait => return Ok(true),
            Unit::Line(line) => note(seen, b"line", line)?,
            Unit::LineWithBlock { line, block } => {
                note(seen, b"with block", line)?;
                note(seen, b"", block)?;
            }
            Unit::BadChunk { line } => note(seen, b"bad chunk", line)?,
            Unit::TooLarge { line } => note(seen, b"too large", line)?,
            Unit::BlockNoMemory { line } => note(seen, b"no memory", line)?,
            Unit::LineTooLong => {
                note(seen, b"line too long", b"")?;
                return Ok(false);
            }
        }
        frames.done();
    }
    Ok(true)
}

fn note(seen: &mut Vec<u8>, kind: &[u8], bytes: &[u8]) -> Result<(), AllocError> {
    seen.extend_from_slice(kind)?;
    seen.push(b'(')?;
    seen.extend_from_slice(bytes)?;
    seen.push(b')')?;
    Ok(())
}

// The units of a stream that comes in these two pieces.
fn units_of(alloc: Global, front: &[u8], back: &[u8]) -> Result<Vec<u8>, Fail> {
    let Ok(mut frames) = Frames::new(alloc, FiveHeads) else {
        return Err(Fail::from("no memory"));
    };
    let mut seen = Vec::new(alloc);
    if read(&mut frames, front, &mut seen)? {
        read(&mut frames, back, &mut seen)?;
    }
    Ok(seen)
}

// The units of a stream that comes in pieces of so many bytes.
fn units_in_pieces(alloc: Global, stream: &[u8], size: usize) -> Result<Vec<u8>, Fail>
    requires { 0 < size }
{
    let Ok(mut frames) = Frames::new(alloc, FiveHeads) else {
        return Err(Fail::from("no memory"));
    };
    let mut seen = Vec::new(alloc);
    for piece in stream.chunks(size) {
        if !read(&mut frames, piece, &mut seen)? {
            return Ok(seen);
        }
    }
    Ok(seen)
}

// So many bytes.
fn many(alloc: Global, byte: u8, len: usize) -> Result<Vec<u8>, AllocError> {
    vec![in alloc; byte; len]
}

#[test]
fn units_do_not_depend_on_the_cut(rt: HostRuntime) -> Result<(), Fail> {
    let rows: [(&[u8], &[u8]); 5] = [
        (
            b"six\r\nEND\r\nx\r\nget a\r\n",
            b"with block(six)(END\r\nx)line(get a)",
        ),
        (b"a\rb\n\r\r\n\nc", b"line(a\rb)line(\r)line()"),
        (b"six\nabcdef\r\rget a\n", b"bad chunk(six)line(get a)"),
        (
            b"four\r\n\r\n\r\n\r\nget a\n",
            b"too large(four)line(get a)",
        ),
        (b"get a\nsix\nabcdef\r", b"line(get a)"),
    ];
    for (stream, units) in rows {
        for cut in 0..=stream.len() {
            let (front, back) = stream.split_at(cut);
            let seen = units_of(rt.alloc(), front, back)?;
            assert_eq!(rt; seen.as_slice(), units);
        }
    }
    Ok(())
}

#[test]
fn limits_are_exact(rt: HostRuntime) -> Result<(), Fail> {
    let longest = many(rt.alloc(), b'x', 65_535)?;
    let seen = units_of(rt.alloc(), &longest, b"\n")?;
    assert_eq!(rt; seen.len(), 65_541);
    let seen = units_of(rt.alloc(), &longest, b"x\n")?;
    assert_eq!(rt; seen.as_slice(), b"line too long()".as_slice());
    let lines = many(rt.alloc(), b'\n', 131_074)?;
    let seen = units_of(rt.alloc(), b"large\n", &lines)?;
    assert_eq!(rt; seen.as_slice(), b"bad chunk(large)line()".as_slice());
    Ok(())
}

#[test]
fn large_blocks_are_kept(rt: HostRuntime) -> Result<(), Fail> {
    let mut stream = Vec::new(rt.alloc());
    let mut units = Vec::new(rt.alloc());
    let rows: [(&[u8], usize, &[u8]); 7] = [
        (b"large", 131_071, b"\r\n"),
        (b"value", 1_048_576, b"\r\n"),
        (b"fits", 131_070, b"\r\n"),
        (b"value", 1_048_576, b"\r\r"),
        (b"large", 131_071, b"\r\n"),
        (b"six", 6, b"\r\n"),
        (b"fits", 131_070, b"\n\n"),
    ];
    for (line, len, end) in rows {
        let block = many(rt.alloc(), b'\n', len)?;
        add_row(&mut stream, &mut units, line, &block, end)?;
    }
    stream.extend_from_slice(b"get a\n")?;
    note(&mut units, b"line", b"get a")?;
    for size in [4_194_304, 131_072, 999] {
        let seen = units_in_pieces(rt.alloc(), &stream, size)?;
        assert!(rt; seen.as_slice() == units.as_slice());
    }
    Ok(())
}

// Puts a line with this block, and these two bytes behind it, to the stream, and the unit that they are to the units.
fn add_row(
    stream: &mut Vec<u8>,
    units: &mut Vec<u8>,
    line: &[u8],
    block: &[u8],
    end: &[u8],
) -> Result<(), AllocError> {
    stream.extend_from_slice(line)?;
    stream.extend_from_slice(b"\r\n")?;
    stream.extend_from_slice(block)?;
    stream.extend_from_slice(end)?;
    if end != b"\r\n".as_slice() {
        return note(units, b"bad chunk", line);
    }
    note(units, b"with block", line)?;
    note(units, b"", block)
}

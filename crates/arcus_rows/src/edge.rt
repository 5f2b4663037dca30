//! The real source, sink and clock, over objects of std.

use crate::harness::{bytes_of, no_ports, words_of};
use crate::play;
use arc_core::{Clock, Pull, Push, Sink, Source};
use arcus_tool::{Status, StdSink, StdSource, WallClock, World};
use std::io::{self, ErrorKind, Read, Write};
use std::test::Fail;

#[test]
fn a_source_gives_a_reader_s_bytes(rt: HostRuntime) -> Result<(), Fail> {
    let mut source = StdSource::new(b"abc".as_slice());
    let mut buffer = [0; 2];
    assert_eq!(rt; source.pull(&mut buffer), Pull::Got(2));
    assert_eq!(rt; buffer, *b"ab");
    assert_eq!(rt; source.pull(&mut buffer), Pull::Got(1));
    assert_eq!(rt; buffer, *b"cb");
    assert_eq!(rt; source.pull(&mut buffer), Pull::End);
    Ok(())
}

#[test]
fn a_sink_fills_a_writer(rt: HostRuntime) -> Result<(), Fail> {
    let mut bytes = [0; 4];
    let mut sink = StdSink::new(bytes.as_mut_slice());
    assert_eq!(rt; sink.push(b"abc"), Push::Took(3));
    assert_eq!(rt; sink.push(b"de"), Push::Took(1));
    // A full slice takes nothing more.
    assert_eq!(rt; sink.push(b"e"), Push::Failed);
    assert_eq!(rt; bytes, *b"abcd");
    Ok(())
}

// It is past the year 2020, and the clock does not run back between two calls.
#[test]
fn the_clock_tells_the_second(rt: HostRuntime) -> Result<(), Fail> {
    let mut clock = WallClock::new(&rt);
    let first = clock.second();
    assert!(rt; first > 1_577_836_800);
    let mut twin = clock.twin();
    assert!(rt; first <= twin.second());
    Ok(())
}

// What happens at a call of a reader or a writer.
#[derive(Clone, Copy)]
enum Event {
    /// One byte goes through.
    Byte(u8),
    /// A signal comes.
    Signal,
    /// It fails.
    Fault,
}

// A reader and a writer at which these events happen, one at each call. Then it ends, or takes nothing.
#[derive(Drop)]
struct Eventful<'a>(&'a [Event]);

impl Eventful<'_> {
    // The byte that goes through at this call, or none at the end.
    fn next(&mut self) -> io::Result<Option<u8>> {
        let Some((&event, later)) = self.0.split_first() else {
            return Ok(None);
        };
        self.0 = later;
        match event {
            Event::Byte(byte) => Ok(Some(byte)),
            Event::Signal => Err(io::Error::from(ErrorKind::Interrupted)),
            Event::Fault => Err(io::Error::from(ErrorKind::BrokenPipe)),
        }
    }
}

impl Read for Eventful<'_> {
    fn read(&mut self, buf: &mut [u8]) -> io::Result<usize> {
        let Some(first) = buf.first_mut() else {
            return Ok(0);
        };
        let Some(byte) = self.next()? else {
            return Ok(0);
        };
        *first = byte;
        Ok(1)
    }
}

impl Write for Eventful<'_> {
    fn write(&mut self, buf: &[u8]) -> io::Result<usize> {
        match self.next()? {
            Some(_) => Ok(buf.len().min(1)),
            None => Ok(0),
        }
    }

    fn flush(&mut self) -> io::Result<()> {
        Ok(())
    }
}

// After a signal the call is made again. A fault is told, and does not stand in the way of the next call.
#[test]
fn calls_are_made_again_after_a_signal(rt: HostRuntime) -> Result<(), Fail> {
    let events = [
        Event::Signal,
        Event::Signal,
        Event::Byte(b'a'),
        Event::Signal,
        Event::Fault,
        Event::Byte(b'b'),
    ];
    let mut source = StdSource::new(Eventful(&events));
    let mut buffer = [0; 2];
    assert_eq!(rt; source.pull(&mut buffer), Pull::Got(1));
    assert_eq!(rt; source.pull(&mut buffer), Pull::Failed);
    assert_eq!(rt; buffer, *b"a\0");
    assert_eq!(rt; source.pull(&mut buffer), Pull::Got(1));
    assert_eq!(rt; buffer, *b"b\0");
    assert_eq!(rt; source.pull(&mut buffer), Pull::End);
    let mut sink = StdSink::new(Eventful(&events));
    assert_eq!(rt; sink.push(b"xyz"), Push::Took(1));
    assert_eq!(rt; sink.push(b"yz"), Push::Failed);
    assert_eq!(rt; sink.push(b"yz"), Push::Took(1));
    assert_eq!(rt; sink.push(b"z"), Push::Failed);
    Ok(())
}

// A whole session over a reader, a writer and the wall clock; and one whose writer takes a byte less than all.
#[test]
fn a_session_runs_on_the_real_outside(rt: HostRuntime) -> Result<(), Fail> {
    let alloc = rt.alloc();
    let words = words_of(alloc, &["session", "--limit=1"])?;
    let input = bytes_of(
        alloc,
        "set a 0 1000 1|x|get a|set b 0 1000000000 1|x|get b|",
    )?;
    let output = bytes_of(alloc, "STORED|VALUE a 0 1|x|END|STORED|END|")?;
    for (len, status) in [(42, Status::Done), (41, Status::WriteFault)] {
        let mut sent = vec![in alloc; b'.'; len]?;
        let world = World {
            source: StdSource::new(input.as_slice()),
            sink: StdSink::new(sent.as_mut_slice()),
            ports: no_ports(alloc),
            clock: WallClock::new(&rt),
        };
        let played = play(&rt, alloc, &words, world);
        let ended = played.status;
        drop(played);
        assert_eq!(rt; ended, status);
        assert!(rt; output.starts_with(&sent));
    }
    Ok(())
}

// The reader fails within a unit: what came before it was answered.
#[test]
fn a_session_ends_at_a_read_fault(rt: HostRuntime) -> Result<(), Fail> {
    let alloc = rt.alloc();
    let words = words_of(alloc, &["session"])?;
    let events = [
        Event::Byte(b'x'),
        Event::Signal,
        Event::Byte(b'\n'),
        Event::Byte(b'y'),
        Event::Fault,
        Event::Byte(b'\n'),
    ];
    let mut sent = [b'.'; 24];
    let world = World {
        source: StdSource::new(Eventful(&events)),
        sink: StdSink::new(sent.as_mut_slice()),
        ports: no_ports(alloc),
        clock: WallClock::new(&rt),
    };
    let played = play(&rt, alloc, &words, world);
    let ended = played.status;
    drop(played);
    assert_eq!(rt; ended, Status::ReadFault);
    assert_eq!(rt; sent, *b"ERROR unknown command\r\n.");
    Ok(())
}

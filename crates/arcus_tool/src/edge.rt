//! The real outside: standard input, standard output and the wall clock.
//!
//! These count their faults, and tell nothing of what they hold: that the bytes really come and go is not proved.
ghost use Rattle.std.specs.Prelude.{◌≡◌, None};

use arc_core::{Clock, Pull, Push, Sink, Source};
use std::io::{ErrorKind, Read, Write};
use std::rt::Clock as SystemClock;

/// A source over a reader, as standard input.
#[derive(Drop)]
pub struct StdSource<R> {
    reader: R,
    faults: u64,
}

impl<R: Read> StdSource<R> {
    /// A source that has not failed yet. It tells nothing of the reader.
    pub fn new(reader: R) -> StdSource<R>
        ensures { result.faults ≡ 0 }
    {
        StdSource { reader, faults: 0 }
    }
}

impl<R: Read> Source for StdSource<R> {
    ghost left = { λ _. None };

    ghost read_faults = { λ source. source.faults };

    fn pull(&mut self, buf: &mut [u8]) -> Pull {
        for _ in 0..u64::MAX {
            match self.reader.read(buf) {
                Ok(0) => return Pull::End,
                Ok(count) => return Pull::Got(count),
                // A signal came: the call is made again.
                Err(error) if error.kind() == ErrorKind::Interrupted => {}
                Err(_) => break,
            }
        }
        self.faults = self.faults.saturating_add(1);
        Pull::Failed
    }
}

/// A sink over a writer, as standard output.
#[derive(Drop)]
pub struct StdSink<W> {
    writer: W,
    faults: u64,
    refusals: u64,
}

impl<W: Write> StdSink<W> {
    /// A sink that has not failed yet. It tells nothing of the writer.
    pub fn new(writer: W) -> StdSink<W>
        ensures no_fault { result.faults ≡ 0 }
        ensures no_refusal { result.refusals ≡ 0 }
    {
        StdSink {
            writer,
            faults: 0,
            refusals: 0,
        }
    }
}

impl<W: Write> Sink for StdSink<W> {
    ghost sent = { λ _. None };

    ghost write_faults = { λ sink. sink.faults };

    ghost refusals = { λ sink. sink.refusals };

    fn push(&mut self, piece: &[u8]) -> Push {
        for _ in 0..u64::MAX {
            match self.writer.write(piece) {
                // A writer that takes nothing of a piece will not take more.
                Ok(0) => break,
                Ok(count) => return Push::Took(count),
                // A signal came: the call is made again.
                Err(error) if error.kind() == ErrorKind::Interrupted => {}
                Err(error) if error.kind() == ErrorKind::OutOfMemory => {
                    self.refusals = self.refusals.saturating_add(1);
                    return Push::NoMemory;
                }
                Err(_) => break,
            }
        }
        self.faults = self.faults.saturating_add(1);
        Push::Failed
    }
}

/// The wall clock: seconds since 1970, cut to 32 bits. Where it cannot be read it answers its last answer, at first 0.
#[derive(Drop)]
pub struct WallClock<R> {
    system: R,
    last: u32,
}

impl<R: SystemClock + Copy> WallClock<R> {
    /// A clock that was not read yet. It tells nothing of the seconds to come.
    pub fn new(system: R) -> WallClock<R>
        ensures { result.last ≡ 0 }
    {
        WallClock { system, last: 0 }
    }
}

impl<R: SystemClock + Copy> Clock for WallClock<R> {
    ghost coming = { λ _. None };

    fn second(&mut self) -> u32 {
        if let Ok(since_1970) = self.system.since_1970() {
            self.last = (since_1970.as_secs() % (1 << 32)) as u32;
        }
        self.last
    }

    fn twin(&self) -> WallClock<R> {
        WallClock {
            system: self.system,
            last: self.last,
        }
    }
}

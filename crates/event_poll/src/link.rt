//! A connection that never waits.
ghost use Rattle.std.specs.Prelude.{◌≡◌, ◌<◌, None, length};
ghost use Rattle.arc_core.specs.Outside.{Rose};
ghost use Rattle.event_poll.specs.Moved.{IsWithin};

use arc_core::{Link, Pull, Push};
use mio::net::TcpStream;
use std::io::{ErrorKind, Read, Write};

/// So many pulls that brought bytes are answered one after another, and so many pushes that took some. Then the others get
/// their turn.
const MOST_PULLS: u32 = 1;

const MOST_PUSHES: u32 = 16;

/// How often a call that a signal interrupted is made again.
const MOST_REPEATS: u32 = 1000;

/// A connection of an event worker. It counts its faults and how often it had to be asked again, and tells nothing of
/// content.
///
/// A pull that did not fill its buffer has taken all that was there, so the next one answers `Again` without asking the
/// system. A connection that always has input, or whose peer reads as fast as it is answered, answers `Again` after a pull or
/// 16 pushes, and is then ready at once.
#[derive(Drop)]
pub struct EventLink {
    pub(crate) stream: TcpStream,
    // The last pull took all that was there.
    drained: bool,
    // How many pulls brought bytes since it last had to be asked again.
    pulls: u32,
    // How many pushes took some.
    pushes: u32,
    // It answered `Again` while there may be input, or room.
    pub(crate) goes_on: bool,
    pub(crate) is_watched: bool,
    read_faults: u64,
    write_faults: u64,
    agains: u64,
}

impl EventLink {
    /// A connection that was just accepted, and that no poller watches.
    pub(crate) fn new(stream: TcpStream) -> EventLink {
        EventLink {
            stream,
            drained: false,
            pulls: 0,
            pushes: 0,
            goes_on: false,
            is_watched: false,
            read_faults: 0,
            write_faults: 0,
            agains: 0,
        }
    }

    // It has to be asked again. What was known of its input is forgotten: more may have come since.
    fn count_again(&mut self)
        ensures agains { Rose self.old.agains self.new.agains }
        ensures reads { self.new.read_faults ≡ self.old.read_faults }
        ensures writes { self.new.write_faults ≡ self.old.write_faults }
    {
        self.drained = false;
        self.pulls = 0;
        self.pushes = 0;
        self.agains = self.agains.saturating_add(1);
    }
}

impl Link for EventLink {
    ghost left = { λ _. None };

    ghost read_faults = { λ link. link.read_faults };

    ghost sent = { λ _. None };

    ghost write_faults = { λ link. link.write_faults };

    ghost refusals = { λ _. 0 };

    ghost agains = { λ link. link.agains };

    fn pull(&mut self, buf: &mut [u8]) -> Pull {
        if self.drained || self.pulls >= MOST_PULLS {
            self.goes_on = !self.drained;
            self.count_again();
            return Pull::Again;
        }
        match read(&mut self.stream, buf) {
            Moved::Some(count) => {
                self.pulls += 1;
                self.drained = count < buf.len();
                Pull::Got(count)
            }
            Moved::Nothing => Pull::End,
            Moved::Later => {
                self.count_again();
                Pull::Again
            }
            Moved::Failed => {
                self.read_faults = self.read_faults.saturating_add(1);
                Pull::Failed
            }
        }
    }

    fn push(&mut self, piece: &[u8]) -> Push {
        if self.pushes >= MOST_PUSHES {
            self.goes_on = true;
            self.count_again();
            return Push::Again;
        }
        match write(&mut self.stream, piece) {
            Moved::Some(count) => {
                self.pushes += 1;
                Push::Took(count)
            }
            Moved::Later => {
                self.count_again();
                Push::Again
            }
            _ => {
                self.write_faults = self.write_faults.saturating_add(1);
                Push::Failed
            }
        }
    }
}

// What a call on a socket moved.
#[derive(Clone, Copy)]
enum Moved {
    // So many bytes, at least one.
    Some(usize),
    // None: the other side sends no more.
    Nothing,
    // None now.
    Later,
    // None: the socket failed.
    Failed,
}

// Reads what is there. A call that a signal interrupted is made again.
fn read(stream: &mut TcpStream, buf: &mut [u8]) -> Moved
    ensures moved { IsWithin result (length buf.new) }
    ensures len { length buf.new ≡ length buf.old }
{
    for _ in 0..MOST_REPEATS {
        match stream.read(buf) {
            Ok(0) => return Moved::Nothing,
            Ok(count) => return Moved::Some(count),
            Err(error) => match error.kind() {
                ErrorKind::WouldBlock => return Moved::Later,
                ErrorKind::Interrupted => {}
                _ => return Moved::Failed,
            },
        }
    }
    Moved::Failed
}

// Writes what there is room for. A call that a signal interrupted is made again.
fn write(stream: &mut TcpStream, piece: &[u8]) -> Moved
    ensures moved { IsWithin result (length piece.now) }
{
    for _ in 0..MOST_REPEATS {
        match stream.write(piece) {
            Ok(0) => return Moved::Failed,
            Ok(count) => return Moved::Some(count),
            Err(error) => match error.kind() {
                ErrorKind::WouldBlock => return Moved::Later,
                ErrorKind::Interrupted => {}
                _ => return Moved::Failed,
            },
        }
    }
    Moved::Failed
}

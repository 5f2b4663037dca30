//! One connection.
ghost use Rattle.std.specs.Prelude.{◌≡◌, None};

use arc_core::{Link, Pull, Push};
use std::io::{ErrorKind, Read, Write};

/// A link over a stream, as a TCP connection. It tells nothing of the bytes.
///
/// A stream that would block where it may not has to be asked again.
#[derive(Drop)]
pub struct TcpLink<T> {
    stream: T,
    read_faults: u64,
    write_faults: u64,
    refusals: u64,
    agains: u64,
}

impl<T: Read + Write> TcpLink<T> {
    /// A link that has not failed yet.
    pub fn new(stream: T) -> TcpLink<T>
        ensures no_read_fault { result.read_faults ≡ 0 }
        ensures no_write_fault { result.write_faults ≡ 0 }
        ensures no_refusal { result.refusals ≡ 0 }
        ensures never_again { result.agains ≡ 0 }
    {
        TcpLink {
            stream,
            read_faults: 0,
            write_faults: 0,
            refusals: 0,
            agains: 0,
        }
    }
}

impl<T: Read + Write> Link for TcpLink<T> {
    ghost left = { λ _. None };

    ghost read_faults = { λ link. link.read_faults };

    ghost sent = { λ _. None };

    ghost write_faults = { λ link. link.write_faults };

    ghost refusals = { λ link. link.refusals };

    ghost agains = { λ link. link.agains };

    fn pull(&mut self, buf: &mut [u8]) -> Pull {
        for _ in 0..u64::MAX {
            match self.stream.read(buf) {
                Ok(0) => return Pull::End,
                Ok(count) => return Pull::Got(count),
                // A signal came: the call is made again.
                Err(error) if error.kind() == ErrorKind::Interrupted => {}
                Err(error) if error.kind() == ErrorKind::WouldBlock => {
                    self.agains = self.agains.saturating_add(1);
                    return Pull::Again;
                }
                Err(_) => break,
            }
        }
        self.read_faults = self.read_faults.saturating_add(1);
        Pull::Failed
    }

    fn push(&mut self, piece: &[u8]) -> Push {
        for _ in 0..u64::MAX {
            match self.stream.write(piece) {
                // A stream that takes nothing of a piece will not take more.
                Ok(0) => break,
                Ok(count) => return Push::Took(count),
                // A signal came: the call is made again.
                Err(error) if error.kind() == ErrorKind::Interrupted => {}
                Err(error) if error.kind() == ErrorKind::WouldBlock => {
                    self.agains = self.agains.saturating_add(1);
                    return Push::Again;
                }
                Err(error) if error.kind() == ErrorKind::OutOfMemory => {
                    self.refusals = self.refusals.saturating_add(1);
                    return Push::NoMemory;
                }
                Err(_) => break,
            }
        }
        self.write_faults = self.write_faults.saturating_add(1);
        Push::Failed
    }
}

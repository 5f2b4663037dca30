//! Where the connections of one worker come from.
ghost use Rattle.std.specs.Prelude.{◌≡◌, ◌==◌, not, None};

use crate::link::TcpLink;
use arc_core::End;
use full_table::{Notice, is_full};
use std::io::ErrorKind;
use std::net::{Net, OpenListener, OpenStream};
use std::rt::Clock;
use std::thread;
use std::time::Duration;
use worker_server::{Next, Port};

/// How long a port waits where the system has no room for a connection, before it asks again: in milliseconds.
const PAUSE: u64 = 100;

/// A port over a TCP socket that listens. Several may share one, and a connection comes to one of them. It tells nothing of
/// the connections.
///
/// Where the system has no room for a connection now, as where the table of descriptors is full, it says so once and asks
/// again ten times a second.
#[derive(Drop)]
pub struct TcpPort<R: Net> {
    rt: R,
    listener: R::Listener,
    notice: Notice,
    faults: u64,
}

impl<R: Net> TcpPort<R> {
    /// A port that has not failed yet.
    pub fn new(rt: R, listener: R::Listener, notice: Notice) -> TcpPort<R>
        ensures no_fault { result.faults ≡ 0 }
    {
        TcpPort {
            rt,
            listener,
            notice,
            faults: 0,
        }
    }

    /// Whether a call of `next` has failed.
    pub(crate) fn has_failed(&self) -> bool
        ensures { result ≡ not (self.now.faults == 0) }
    {
        self.faults != 0
    }
}

impl<R: Net + Clock + Eprint> Port for TcpPort<R> {
    type Link = TcpLink<R::Stream>;

    ghost links = { λ _. None };

    ghost returned = { λ _. None };

    ghost faults = { λ port. port.faults };

    ghost refusals = { λ _. 0 };

    ghost has_room = { λ _. Unit {0} };

    fn next(&mut self) -> Next<TcpLink<R::Stream>> {
        for _ in 0..u64::MAX {
            match self.listener.accept() {
                Ok((stream, _)) => {
                    // Where the system refuses this, small replies may come later.
                    let _set = stream.set_nodelay(true);
                    return Next::Link(TcpLink::new(stream));
                }
                // A signal came, or the peer is gone already: the call is made again.
                Err(error) if error.kind() == ErrorKind::Interrupted => {}
                Err(error) if error.kind() == ErrorKind::ConnectionAborted => {}
                Err(error) if is_full(&error) => {
                    self.notice.give(&self.rt, &error);
                    thread::sleep(&self.rt, Duration::from_millis(PAUSE));
                }
                Err(_) => break,
            }
        }
        self.faults = self.faults.saturating_add(1);
        Next::Failed
    }

    // The connection is closed where the link is let go.
    fn done(&mut self, _link: TcpLink<R::Stream>, _end: End) {}
}

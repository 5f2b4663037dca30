//! What tells an event worker which of its connections are ready, and which have come.
ghost use Rattle.std.specs.Prelude.{◌≡◌, ◌==◌, not, None, IfOk};

use crate::crowd::Crowd;
use crate::link::EventLink;
use arc_core::{End, Failed};
use event_port::{Poller, Wake};
use full_table::{Notice, is_full};
use mio::net::{TcpListener, TcpStream};
use mio::{Events, Interest, Poll, Token};
use std::io;
use std::io::ErrorKind;
use std::time::Duration;

/// The most events of one wait.
pub(crate) const MOST_EVENTS: usize = 512;

// So many times a connection is left to the worker that has the fewest. (A worker that has much to do looks often, and one that
// has none may want a moment to wake up.)
const MOST_DECLINES: u32 = 16;

/// The token of the listener. No link is watched under it, and no guest has it as its key.
const LISTENER: usize = usize::MAX;

/// The connections of one event worker on a listener that several share, over one epoll set. It tells no links.
///
/// A connection that comes is taken by the worker that has the fewest. Where that one does not take it while another looks for
/// it 16 times, a millisecond apart at most, this one does. Where an accept fails, as where the table of descriptors is full,
/// connections wait until one of this worker's ends, or a tenth of a second; that there is no room for one is said once on
/// standard error.
#[derive(Drop)]
pub struct EventPoller<R> {
    rt: R,
    poll: Poll,
    events: Events,
    listener: TcpListener,
    crowd: Crowd,
    notice: Notice,
    // Tokens that were told to be ready, and are to be handed on.
    ready: Vec<usize>,
    // Connections may be waiting.
    accepting: bool,
    // At how many waits in turn one was left to another worker.
    declines: u32,
    // The last accept failed.
    is_full: bool,
    held: u64,
    faults: u64,
}

impl<R: Copy> EventPoller<R> {
    /// A poller of the connections on this listener, which has not failed yet. `ready` has room for two tokens an event.
    pub(crate) fn new(
        rt: R,
        poll: Poll,
        events: Events,
        mut listener: TcpListener,
        crowd: Crowd,
        notice: Notice,
        ready: Vec<usize>,
    ) -> io::Result<EventPoller<R>>
        ensures { IfOk result (λ poller. (poller.faults ≡ 0) × (poller.held ≡ 0)) }
    {
        poll.registry()
            .register(&mut listener, Token(LISTENER), Interest::READABLE)?;
        Ok(EventPoller {
            rt,
            poll,
            events,
            listener,
            crowd,
            notice,
            ready,
            accepting: true,
            declines: 0,
            is_full: false,
            held: 0,
            faults: 0,
        })
    }

    /// Whether a call of `wait` or `watch` has failed.
    pub fn has_failed(&self) -> bool
        ensures { result ≡ not (self.now.faults == 0) }
    {
        self.faults != 0
    }

    // How long a wait may take: until something is ready, or until a connection is looked for again.
    fn patience(&self) -> Option<Duration> {
        if self.is_full {
            Some(Duration::from_millis(100))
        } else if self.accepting {
            Some(Duration::from_millis(1))
        } else {
            None
        }
    }

    // Waits until something is ready, and notes what.
    fn look(&mut self) -> Result<(), Failed>
        ensures faults { self.new.faults ≡ self.old.faults }
        ensures held { self.new.held ≡ self.old.held }
    {
        let patience = self.patience();
        self.is_full = false;
        if self.poll.poll(&mut self.events, patience).is_err() {
            return Err(Failed);
        }
        for event in self.events.iter() {
            let Token(token) = event.token();
            if token == LISTENER {
                self.accepting = true;
            } else {
                note(&mut self.ready, token, event.is_read_closed());
            }
        }
        Ok(())
    }
}

impl<R: Eprint + Copy> EventPoller<R> {
    // The next connection, where this worker is to take one.
    fn accept(&mut self) -> Option<EventLink>
        ensures faults { self.new.faults ≡ self.old.faults }
        ensures held { self.new.held ≡ self.old.held }
    {
        if self.declines < MOST_DECLINES && !self.crowd.is_least() {
            self.declines += 1;
            return None;
        }
        self.declines = 0;
        match accept(&self.listener) {
            Accepted::Some(stream) => Some(EventLink::new(stream)),
            Accepted::Nothing => {
                self.accepting = false;
                None
            }
            Accepted::Failed(error) => {
                self.is_full = true;
                if is_full(&error) {
                    self.notice.give(&self.rt, &error);
                }
                None
            }
            Accepted::Gone => None,
        }
    }
}

// Notes that a link may be ready; twice where the other side sends no more, since its end may come behind its last bytes.
fn note(ready: &mut Vec<usize>, token: usize, is_closed: bool) {
    let _ = ready.push(token);
    if is_closed {
        let _ = ready.push(token);
    }
}

// What an accept gave.
#[derive(Drop)]
enum Accepted {
    Some(TcpStream),
    // No connection waits.
    Nothing,
    // There is no room for it, or the system refuses it otherwise.
    Failed(io::Error),
    // The connection has gone.
    Gone,
}

// Accepts one connection, whose small packets go out at once.
fn accept(listener: &TcpListener) -> Accepted {
    match listener.accept() {
        Ok((stream, _)) => {
            let _ = stream.set_nodelay(true);
            Accepted::Some(stream)
        }
        Err(error) => match error.kind() {
            ErrorKind::WouldBlock => Accepted::Nothing,
            ErrorKind::ConnectionAborted | ErrorKind::ConnectionReset | ErrorKind::Interrupted => {
                Accepted::Gone
            }
            _ => Accepted::Failed(error),
        },
    }
}

impl<R: Eprint + Copy> Poller for EventPoller<R> {
    type Link = EventLink;

    ghost links = { λ _. None };

    ghost returned = { λ _. None };

    ghost faults = { λ poller. poller.faults };

    ghost refusals = { λ _. 0 };

    ghost held = { λ poller. poller.held };

    fn wait(&mut self) -> Wake<EventLink> {
        if let Some(token) = self.ready.pop() {
            return Wake::Ready(token);
        }
        if self.accepting
            && !self.is_full
            && let Some(link) = self.accept()
            && self.held < u64::MAX
        {
            self.held += 1;
            self.crowd.come();
            return Wake::Fresh(link);
        }
        if self.look().is_err() {
            self.faults = self.faults.saturating_add(1);
            return Wake::Failed;
        }
        // A hint that means nothing: the worker asks again.
        Wake::Ready(LISTENER)
    }

    fn watch(&mut self, token: usize, link: &mut EventLink) -> Result<(), Failed> {
        let both = Interest::READABLE | Interest::WRITABLE;
        let registry = self.poll.registry();
        let answer = if !link.is_watched {
            link.is_watched = true;
            registry.register(&mut link.stream, Token(token), both)
        } else if link.goes_on {
            registry.reregister(&mut link.stream, Token(token), both)
        } else {
            Ok(())
        };
        link.goes_on = false;
        match answer {
            Ok(()) => Ok(()),
            Err(_) => {
                self.faults = self.faults.saturating_add(1);
                Err(Failed)
            }
        }
    }

    fn done(&mut self, link: EventLink, _end: End) {
        drop(link);
        self.crowd.go();
        self.is_full = false;
        self.held -= 1;
    }
}

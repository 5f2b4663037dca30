//! Where the connections of event workers come from.
ghost use Rattle.std.specs.Prelude.{◌≡◌, IfOk};

use crate::crowd::{Crowd, MOST_WORKERS};
use crate::poller::{EventPoller, MOST_EVENTS};
use full_table::Notice;
use mio::{Events, Poll};
use std::alloc::{AllocError, Global};
use std::io;
use std::net::{IpAddr, Ipv4Addr, Net, SocketAddr, TcpListener};

/// A port of this machine alone, on which several event workers take connections.
#[derive(Drop)]
pub struct EventListener {
    listener: TcpListener,
    // What all workers share. The first one takes the memory for it.
    shared: Option<Shared>,
    next: usize,
}

// How many connections each worker has, and the notice that connections wait.
#[derive(Drop)]
struct Shared {
    crowd: Crowd,
    notice: Notice,
}

impl Shared {
    fn new(alloc: Global) -> Result<Shared, AllocError> {
        Ok(Shared {
            crowd: Crowd::new(alloc)?,
            notice: Notice::new(alloc)?,
        })
    }
}

impl EventListener {
    /// Binds 127.0.0.1 with this port. An error is the system's. Takes no memory. (No clause can say what the system gives, here
    /// and below.)
    pub fn bind<R: Net>(net: &R, port: u16) -> io::Result<EventListener> {
        let addr = SocketAddr::new(IpAddr::V4(Ipv4Addr::LOCALHOST), port);
        let listener = TcpListener::from(mio::net::TcpListener::bind(net, addr)?);
        Ok(EventListener {
            listener,
            shared: None,
            next: 0,
        })
    }

    /// The port that was bound: where 0 was asked, the one that the system chose. An error is the system's.
    pub fn port(&self) -> io::Result<u16> {
        Ok(self.listener.local_addr()?.port())
    }

    /// The poller of a further worker, which has not failed yet. Beyond 4,096 workers its connections are not counted. An error
    /// is the system's, or want of memory; where it is `OutOfMemory`, memory was refused.
    pub fn poller<R: Net + Copy>(&mut self, rt: R, alloc: Global) -> io::Result<EventPoller<R>>
        ensures { IfOk result (λ poller. (poller.faults ≡ 0) × (poller.held ≡ 0)) }
    {
        let shared = match self.shared.take() {
            Some(shared) => shared,
            None => Shared::new(alloc)?,
        };
        let place = self.next;
        let crowd = shared.crowd.of(place);
        let notice = shared.notice.share();
        self.shared = Some(shared);
        self.next = place.saturating_add(1).min(MOST_WORKERS);
        let listener = mio::net::TcpListener::from_std(self.listener.try_clone()?);
        let poll = Poll::new(&rt)?;
        EventPoller::new(
            rt,
            poll,
            Events::with_capacity(alloc, MOST_EVENTS)?,
            listener,
            crowd?,
            notice?,
            Vec::with_capacity(alloc, MOST_EVENTS * 2)?,
        )
    }
}

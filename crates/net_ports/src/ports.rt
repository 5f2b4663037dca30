//! Ports and pollers over sockets.
ghost use Rattle.std.specs.Prelude.{◌≡◌, ◌+◌, None, IfOk};

use arc_core::Failed;
use event_poll::{EventListener, EventPoller};
use event_port::Poller;
use event_ports::EventPorts;
use std::alloc::Global;
use std::io::{self, ErrorKind};
use std::net::Net;
use std::rt::Clock;
use tcp_port::{TcpPort, TcpPorts};
use worker_ports::{Handed, Ports};

/// Ports of 127.0.0.1 alone, for workers that block, and pollers for event workers. They tell nothing of themselves. Nothing is
/// bound before `bind` or `bind_pollers`.
///
/// An error of the system is a fault that is counted, and want of memory is a refusal. A worker that blocks does not share a
/// socket with an event worker: each kind has its own.
#[derive(Drop)]
pub struct NetPorts<R: Net> {
    rt: R,
    alloc: Global,
    ports: TcpPorts<R>,
    listener: Option<EventListener>,
    // How many pollers are out.
    out: u64,
    // Faults and refusals of calls on pollers.
    faults: u64,
    refusals: u64,
}

impl<R: Net + Clock + Eprint + Copy> NetPorts<R> {
    /// Ports that listen to nothing yet. Takes no memory.
    pub fn new(rt: R, alloc: Global) -> NetPorts<R>
        ensures none_out { ⟦<NetPorts<R> as Ports>⟧.out result ≡ 0 }
        ensures no_poller_out { ⟦<NetPorts<R> as EventPorts>⟧.pollers_out result ≡ 0 }
        ensures no_fault { ⟦<NetPorts<R> as Ports>⟧.faults result ≡ 0 }
        ensures no_refusal { ⟦<NetPorts<R> as Ports>⟧.refusals result ≡ 0 }
    {
        NetPorts {
            rt,
            alloc,
            ports: TcpPorts::new(rt, alloc),
            listener: None,
            out: 0,
            faults: 0,
            refusals: 0,
        }
    }

    // A poller on the socket that was bound, where one was.
    fn share(&mut self) -> io::Result<EventPoller<R>>
        ensures poller { IfOk result (λ poller. ⟦<EventPoller<R> as Poller>⟧.faults poller ≡ 0) }
        ensures ports { self.new.ports ≡ self.old.ports }
        ensures out { self.new.out ≡ self.old.out }
        ensures faults { self.new.faults ≡ self.old.faults }
        ensures refusals { self.new.refusals ≡ self.old.refusals }
    {
        match &mut self.listener {
            Some(listener) => listener.poller(self.rt, self.alloc),
            None => Err(io::Error::from(ErrorKind::NotConnected)),
        }
    }
}

impl<R: Net + Clock + Eprint + Copy> Ports for NetPorts<R> {
    type Port = TcpPort<R>;

    ghost waiting = { λ _. None };

    ghost taken_back = { λ _. None };

    ghost out = { λ p. ⟦<TcpPorts<R> as Ports>⟧.out p.ports };

    ghost faults = { λ p. ⟦<TcpPorts<R> as Ports>⟧.faults p.ports + p.faults };

    ghost refusals = { λ p. ⟦<TcpPorts<R> as Ports>⟧.refusals p.ports + p.refusals };

    fn bind(&mut self, number: u16) -> Result<(), Failed> {
        self.ports.bind(number)
    }

    fn hand(&mut self) -> Handed<TcpPort<R>> {
        self.ports.hand()
    }

    fn back(&mut self, port: TcpPort<R>) {
        self.ports.back(port);
    }
}

impl<R: Net + Clock + Eprint + Copy> EventPorts for NetPorts<R> {
    type Poller = EventPoller<R>;

    ghost pollers_waiting = { λ _. None };

    ghost pollers_back = { λ _. None };

    ghost pollers_out = { λ p. p.out };

    fn bind_pollers(&mut self, number: u16) -> Result<(), Failed> {
        match EventListener::bind(&self.rt, number) {
            Ok(listener) => {
                self.listener = Some(listener);
                Ok(())
            }
            Err(_) => {
                self.faults = self.faults.saturating_add(1);
                Err(Failed)
            }
        }
    }

    fn hand_poller(&mut self) -> Handed<EventPoller<R>> {
        match self.share() {
            Ok(poller) if self.out < u64::MAX => {
                self.out += 1;
                Handed::Port(poller)
            }
            Err(error) if error.kind() == ErrorKind::OutOfMemory => {
                self.refusals = self.refusals.saturating_add(1);
                Handed::NoMemory
            }
            _ => {
                self.faults = self.faults.saturating_add(1);
                Handed::Failed
            }
        }
    }

    fn back_poller(&mut self, poller: EventPoller<R>) {
        if poller.has_failed() {
            self.faults = self.faults.saturating_add(1);
        }
        self.out -= 1;
    }
}

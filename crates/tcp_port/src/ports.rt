//! The ports of all workers.
ghost use Rattle.std.specs.Prelude.{◌≡◌, None, IfOk};

use crate::port::TcpPort;
use arc_core::Failed;
use full_table::Notice;
use std::alloc::Global;
use std::io::{self, ErrorKind};
use std::net::{Ipv4Addr, Net, OpenListener, SocketAddr, SocketAddrV4};
use std::rt::Clock;
use worker_ports::{Handed, Ports};

/// Ports over one TCP socket, which listens on 127.0.0.1 alone. They tell nothing of themselves.
#[derive(Drop)]
pub struct TcpPorts<R: Net> {
    rt: R,
    alloc: Global,
    listener: Option<R::Listener>,
    notice: Option<Notice>,
    out: u64,
    faults: u64,
    refusals: u64,
}

impl<R: Net + Copy> TcpPorts<R> {
    /// Ports that listen to nothing yet. Takes no memory.
    pub fn new(rt: R, alloc: Global) -> TcpPorts<R>
        ensures none_out { result.out ≡ 0 }
        ensures no_fault { result.faults ≡ 0 }
        ensures no_refusal { result.refusals ≡ 0 }
    {
        TcpPorts {
            rt,
            alloc,
            listener: None,
            notice: None,
            out: 0,
            faults: 0,
            refusals: 0,
        }
    }

    // A port that shares the socket, where there is one, and the notice.
    fn share(&mut self) -> io::Result<TcpPort<R>>
        ensures port { IfOk result (λ port. port.faults ≡ 0) }
        ensures out { self.new.out ≡ self.old.out }
        ensures faults { self.new.faults ≡ self.old.faults }
        ensures refusals { self.new.refusals ≡ self.old.refusals }
    {
        let Some(listener) = &self.listener else {
            return Err(io::Error::from(ErrorKind::NotConnected));
        };
        let own = listener.try_clone()?;
        let notice = match &self.notice {
            Some(notice) => notice.share()?,
            None => Notice::new(self.alloc)?,
        };
        self.notice = Some(notice.share()?);
        Ok(TcpPort::new(self.rt, own, notice))
    }
}

impl<R: Net + Clock + Eprint + Copy> Ports for TcpPorts<R> {
    type Port = TcpPort<R>;

    ghost waiting = { λ _. None };

    ghost taken_back = { λ _. None };

    ghost out = { λ ports. ports.out };

    ghost faults = { λ ports. ports.faults };

    ghost refusals = { λ ports. ports.refusals };

    fn bind(&mut self, number: u16) -> Result<(), Failed> {
        let address = SocketAddr::V4(SocketAddrV4::new(Ipv4Addr::LOCALHOST, number));
        match self.rt.bind(address) {
            Ok(listener) => {
                self.listener = Some(listener);
                Ok(())
            }
            Err(_) => {
                self.faults = self.faults.saturating_add(1);
                Err(Failed)
            }
        }
    }

    fn hand(&mut self) -> Handed<TcpPort<R>> {
        match self.share() {
            Ok(port) if self.out < u64::MAX => {
                self.out += 1;
                Handed::Port(port)
            }
            Err(error) if error.kind() == ErrorKind::OutOfMemory => {
                self.refusals = self.refusals.saturating_add(1);
                Handed::NoMemory
            }
            _ => {
                self.faults = self.faults.saturating_add(1);
                Handed::Failed
            }
        }
    }

    fn back(&mut self, port: TcpPort<R>) {
        if port.has_failed() {
            self.faults = self.faults.saturating_add(1);
        }
        self.out -= 1;
    }
}

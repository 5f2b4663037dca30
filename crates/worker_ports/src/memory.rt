//! Ports over memory, which tell all that they hold: for tests.
ghost use Rattle.std.specs.Prelude.{◌≡◌, [], Some};

use crate::ports::{Handed, Ports};
use crate::returns::Returns;
use arc_core::{Failed, Link};
use std::alloc::Global;
use std::collections::VecDeque;
use worker_server::MemoryPort;

/// Which calls fail, each kind counted from 0.
#[derive(Drop)]
pub struct PortsCalls {
    pub failing_binds: Vec<u64>,
    pub failing_hands: Vec<u64>,
}

/// Ports in memory, which are handed out in their order, and behind them ports without links. The listed calls fail, and so does
/// `hand` where the next port has failed already.
#[derive(Drop)]
pub struct MemoryPorts<L> {
    alloc: Global,
    waiting: VecDeque<MemoryPort<L>>,
    returns: Returns<MemoryPort<L>>,
    calls: PortsCalls,
    binds: u64,
    hands: u64,
    faults: u64,
    refusals: u64,
}

impl<L: Link> MemoryPorts<L> {
    /// These ports, none of which was handed out yet. Takes no memory.
    pub fn new(alloc: Global, ports: Vec<MemoryPort<L>>, calls: PortsCalls) -> MemoryPorts<L>
        ensures waiting { ⟦<MemoryPorts<L> as Ports>⟧.waiting result ≡ Some ports.items }
        ensures taken_back { ⟦<MemoryPorts<L> as Ports>⟧.taken_back result ≡ Some [] }
        ensures out { ⟦<MemoryPorts<L> as Ports>⟧.out result ≡ 0 }
        ensures no_fault { ⟦<MemoryPorts<L> as Ports>⟧.faults result ≡ 0 }
        ensures no_refusal { ⟦<MemoryPorts<L> as Ports>⟧.refusals result ≡ 0 }
    {
        MemoryPorts {
            alloc,
            waiting: VecDeque::from(ports),
            returns: Returns::new(alloc),
            calls,
            binds: 0,
            hands: 0,
            faults: 0,
            refusals: 0,
        }
    }

    /// The ports that were taken back, in their order.
    pub fn taken_back(&self) -> &[MemoryPort<L>]
        ensures { ⟦<MemoryPorts<L> as Ports>⟧.taken_back self.now ≡ Some result.now }
    {
        self.returns.ports()
    }
}

impl<L: Link> Ports for MemoryPorts<L> {
    type Port = MemoryPort<L>;

    ghost waiting = { λ ports. Some ports.waiting.items };

    ghost taken_back = { λ ports. Some ports.returns.returned };

    ghost out = { λ ports. ports.returns.out };

    ghost faults = { λ ports. ports.faults };

    ghost refusals = { λ ports. ports.refusals };

    fn bind(&mut self, _number: u16) -> Result<(), Failed> {
        let call = self.binds;
        self.binds = call.saturating_add(1);
        if self.calls.failing_binds.contains(&call) {
            self.faults = self.faults.saturating_add(1);
            return Err(Failed);
        }
        Ok(())
    }

    fn hand(&mut self) -> Handed<MemoryPort<L>> {
        let call = self.hands;
        self.hands = call.saturating_add(1);
        if self.calls.failing_hands.contains(&call) {
            self.faults = self.faults.saturating_add(1);
            return Handed::Failed;
        }
        if let Some(port) = self.waiting.front()
            && port.has_failed()
        {
            self.faults = self.faults.saturating_add(1);
            return Handed::Failed;
        }
        if self.returns.lend().is_err() {
            self.refusals = self.refusals.saturating_add(1);
            return Handed::NoMemory;
        }
        match self.waiting.pop_front() {
            Some(port) => Handed::Port(port),
            None => Handed::Port(MemoryPort::new(
                self.alloc,
                Vec::new(self.alloc),
                Vec::new(self.alloc),
            )),
        }
    }

    fn back(&mut self, port: MemoryPort<L>) {
        if port.has_failed() {
            self.faults = self.faults.saturating_add(1);
        }
        self.returns.take(port);
    }
}

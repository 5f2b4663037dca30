//! Ports and pollers over memory, which tell all that they hold: for tests.
ghost use Rattle.std.specs.Prelude.{◌≡◌, ◌+◌, ◌==◌, not, [], Some, IfSome, slice_get};

use crate::ports::EventPorts;
use arc_core::{Failed, Link};
use event_port::{MemoryPoller, Poller};
use std::alloc::Global;
use std::collections::VecDeque;
use worker_ports::{Handed, MemoryPorts, Ports, PortsCalls, Returns};
use worker_server::MemoryPort;

/// Which calls for pollers fail or are refused memory, each kind counted from 0.
#[derive(Drop)]
pub struct PollersCalls {
    pub failing_binds: Vec<u64>,
    pub failing_hands: Vec<u64>,
    pub refused_hands: Vec<u64>,
}

/// Ports in memory, and pollers, each kind handed out in its order, and behind them those without links. The listed calls fail
/// or are refused memory, and a call fails too where the next port or poller has failed already.
#[derive(Drop)]
pub struct MemoryEventPorts<L> {
    alloc: Global,
    ports: MemoryPorts<L>,
    waiting: VecDeque<MemoryPoller<L>>,
    returns: Returns<MemoryPoller<L>>,
    calls: PollersCalls,
    binds: u64,
    hands: u64,
    faults: u64,
    refusals: u64,
}

impl<L: Link + Drop> MemoryEventPorts<L> {
    /// These ports and these pollers, of which no poller was handed out yet. Takes no memory.
    pub fn new(
        alloc: Global,
        ports: MemoryPorts<L>,
        pollers: Vec<MemoryPoller<L>>,
        calls: PollersCalls,
    ) -> MemoryEventPorts<L>
        ensures ports { ⟦<MemoryEventPorts<L> as Ports>⟧.waiting result ≡ ⟦<MemoryPorts<L> as Ports>⟧.waiting ports }
        ensures waiting { ⟦<MemoryEventPorts<L> as EventPorts>⟧.pollers_waiting result ≡ Some pollers.items }
        ensures back { ⟦<MemoryEventPorts<L> as EventPorts>⟧.pollers_back result ≡ Some [] }
        ensures out { ⟦<MemoryEventPorts<L> as EventPorts>⟧.pollers_out result ≡ 0 }
        ensures faults { ⟦<MemoryEventPorts<L> as Ports>⟧.faults result ≡ ⟦<MemoryPorts<L> as Ports>⟧.faults ports }
        ensures refusals { ⟦<MemoryEventPorts<L> as Ports>⟧.refusals result ≡ ⟦<MemoryPorts<L> as Ports>⟧.refusals ports }
    {
        MemoryEventPorts {
            alloc,
            ports,
            waiting: VecDeque::from(pollers),
            returns: Returns::new(alloc),
            calls,
            binds: 0,
            hands: 0,
            faults: 0,
            refusals: 0,
        }
    }

    /// These ports and these pollers, no call for which is listed as one that fails. Takes no memory.
    pub fn steady(
        alloc: Global,
        ports: Vec<MemoryPort<L>>,
        pollers: Vec<MemoryPoller<L>>,
    ) -> MemoryEventPorts<L>
        ensures ports { ⟦<MemoryEventPorts<L> as Ports>⟧.waiting result ≡ Some ports.items }
        ensures waiting { ⟦<MemoryEventPorts<L> as EventPorts>⟧.pollers_waiting result ≡ Some pollers.items }
        ensures back { ⟦<MemoryEventPorts<L> as EventPorts>⟧.pollers_back result ≡ Some [] }
        ensures out { ⟦<MemoryEventPorts<L> as EventPorts>⟧.pollers_out result ≡ 0 }
        ensures no_fault { ⟦<MemoryEventPorts<L> as Ports>⟧.faults result ≡ 0 }
        ensures no_refusal { ⟦<MemoryEventPorts<L> as Ports>⟧.refusals result ≡ 0 }
    {
        let calls = PortsCalls {
            failing_binds: Vec::new(alloc),
            failing_hands: Vec::new(alloc),
        };
        let poller_calls = PollersCalls {
            failing_binds: Vec::new(alloc),
            failing_hands: Vec::new(alloc),
            refused_hands: Vec::new(alloc),
        };
        MemoryEventPorts::new(
            alloc,
            MemoryPorts::new(alloc, ports, calls),
            pollers,
            poller_calls,
        )
    }

    // Whether the poller that is to be handed out next has failed.
    fn next_has_failed(&self) -> bool
        ensures { IfSome (slice_get self.now.waiting.items 0) (λ poller. result ≡ not (⟦<MemoryPoller<L> as Poller>⟧.faults poller == 0)) }
    {
        match self.waiting.front() {
            Some(poller) => poller.has_failed(),
            None => false,
        }
    }

    /// The ports that were taken back, in their order.
    pub fn taken_back(&self) -> &[MemoryPort<L>]
        ensures { ⟦<MemoryEventPorts<L> as Ports>⟧.taken_back self.now ≡ Some result.now }
    {
        self.ports.taken_back()
    }

    /// The pollers that were taken back, in their order.
    pub fn pollers_back(&self) -> &[MemoryPoller<L>]
        ensures { ⟦<MemoryEventPorts<L> as EventPorts>⟧.pollers_back self.now ≡ Some result.now }
    {
        self.returns.ports()
    }
}

impl<L: Link + Drop> Ports for MemoryEventPorts<L> {
    type Port = MemoryPort<L>;

    ghost waiting = { λ p. ⟦<MemoryPorts<L> as Ports>⟧.waiting p.ports };

    ghost taken_back = { λ p. ⟦<MemoryPorts<L> as Ports>⟧.taken_back p.ports };

    ghost out = { λ p. ⟦<MemoryPorts<L> as Ports>⟧.out p.ports };

    ghost faults = { λ p. ⟦<MemoryPorts<L> as Ports>⟧.faults p.ports + p.faults };

    ghost refusals = { λ p. ⟦<MemoryPorts<L> as Ports>⟧.refusals p.ports + p.refusals };

    fn bind(&mut self, number: u16) -> Result<(), Failed> {
        self.ports.bind(number)
    }

    fn hand(&mut self) -> Handed<MemoryPort<L>> {
        self.ports.hand()
    }

    fn back(&mut self, port: MemoryPort<L>) {
        self.ports.back(port);
    }
}

impl<L: Link + Drop> EventPorts for MemoryEventPorts<L> {
    type Poller = MemoryPoller<L>;

    ghost pollers_waiting = { λ p. Some p.waiting.items };

    ghost pollers_back = { λ p. Some p.returns.returned };

    ghost pollers_out = { λ p. p.returns.out };

    fn bind_pollers(&mut self, _number: u16) -> Result<(), Failed> {
        let call = self.binds;
        self.binds = call.saturating_add(1);
        if self.calls.failing_binds.contains(&call) {
            self.faults = self.faults.saturating_add(1);
            return Err(Failed);
        }
        Ok(())
    }

    fn hand_poller(&mut self) -> Handed<MemoryPoller<L>> {
        let call = self.hands;
        self.hands = call.saturating_add(1);
        if self.calls.failing_hands.contains(&call) {
            self.faults = self.faults.saturating_add(1);
            return Handed::Failed;
        }
        if self.calls.refused_hands.contains(&call) {
            self.refusals = self.refusals.saturating_add(1);
            return Handed::NoMemory;
        }
        if self.next_has_failed() {
            self.faults = self.faults.saturating_add(1);
            return Handed::Failed;
        }
        if self.returns.lend().is_err() {
            self.refusals = self.refusals.saturating_add(1);
            return Handed::NoMemory;
        }
        match self.waiting.pop_front() {
            Some(poller) => Handed::Port(poller),
            None => Handed::Port(MemoryPoller::new(
                self.alloc,
                Vec::new(self.alloc),
                Vec::new(self.alloc),
                Vec::new(self.alloc),
            )),
        }
    }

    fn back_poller(&mut self, poller: MemoryPoller<L>) {
        if poller.has_failed() {
            self.faults = self.faults.saturating_add(1);
        }
        self.returns.take(poller);
    }
}

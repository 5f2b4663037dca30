//! Ports over memory, which tell all that they hold: for tests, and for scripts of sessions.
ghost use Rattle.std.specs.Prelude.{◌≡◌, ◌<◌, ◌==◌, not, [], Some, vec_len, vec_capacity};

use crate::ports::{Next, Port};
use arc_core::{End, Link};
use std::alloc::Global;
use std::collections::VecDeque;

/// Links in memory, which are given out in their order. The port never fails, but it may be refused memory for the links
/// that come back.
#[derive(Drop)]
pub struct SteadyPort<L> {
    links: VecDeque<L>,
    returned: Vec<(L, End)>,
    refused: u64,
}

impl<L: Link> SteadyPort<L> {
    /// A port of these links, to which none came back. Takes no memory.
    pub fn new(alloc: Global, links: Vec<L>) -> SteadyPort<L>
        ensures links { ⟦<SteadyPort<L> as Port>⟧.links result ≡ Some links.items }
        ensures returned { ⟦<SteadyPort<L> as Port>⟧.returned result ≡ Some [] }
        ensures no_refusal { ⟦<SteadyPort<L> as Port>⟧.refusals result ≡ 0 }
    {
        SteadyPort {
            links: VecDeque::from(links),
            returned: Vec::new(alloc),
            refused: 0,
        }
    }

    /// The links that came back, in their order, each with the end of its session.
    pub fn returned(&self) -> &[(L, End)]
        ensures { ⟦<SteadyPort<L> as Port>⟧.returned self.now ≡ Some result.now }
    {
        &self.returned
    }
}

impl<L: Link> Port for SteadyPort<L> {
    type Link = L;

    ghost links = { λ port. Some port.links.items };

    ghost returned = { λ port. Some port.returned.items };

    ghost faults = { λ _. 0 };

    ghost refusals = { λ port. port.refused };

    ghost has_room = { λ port. vec_len port.returned < vec_capacity port.returned };

    fn next(&mut self) -> Next<L> {
        if self.links.is_empty() {
            return Next::Closed;
        }
        if self.returned.reserve(1).is_err() {
            self.refused = self.refused.saturating_add(1);
            return Next::NoMemory;
        }
        match self.links.pop_front() {
            Some(link) => Next::Link(link),
            None => unreachable!(),
        }
    }

    fn done(&mut self, link: L, end: End) {
        self.returned.push_reserved((link, end));
    }
}

/// Links in memory as in `SteadyPort`, but the listed calls of `next`, counted from 0, fail.
#[derive(Drop)]
pub struct MemoryPort<L> {
    steady: SteadyPort<L>,
    failing: Vec<u64>,
    calls: u64,
    faults: u64,
}

impl<L: Link> MemoryPort<L> {
    /// A port of these links, to which none came back; the calls of `next` in `failing` fail. Takes no memory.
    pub fn new(alloc: Global, links: Vec<L>, failing: Vec<u64>) -> MemoryPort<L>
        ensures links { ⟦<MemoryPort<L> as Port>⟧.links result ≡ Some links.items }
        ensures returned { ⟦<MemoryPort<L> as Port>⟧.returned result ≡ Some [] }
        ensures no_fault { ⟦<MemoryPort<L> as Port>⟧.faults result ≡ 0 }
        ensures no_refusal { ⟦<MemoryPort<L> as Port>⟧.refusals result ≡ 0 }
    {
        MemoryPort {
            steady: SteadyPort::new(alloc, links),
            failing,
            calls: 0,
            faults: 0,
        }
    }

    /// The links that came back, in their order, each with the end of its session.
    pub fn returned(&self) -> &[(L, End)]
        ensures { ⟦<MemoryPort<L> as Port>⟧.returned self.now ≡ Some result.now }
    {
        self.steady.returned()
    }

    /// Whether a call of `next` has failed.
    pub fn has_failed(&self) -> bool
        ensures { result ≡ not (⟦<MemoryPort<L> as Port>⟧.faults self.now == 0) }
    {
        self.faults != 0
    }
}

impl<L: Link> Port for MemoryPort<L> {
    type Link = L;

    ghost links = { λ port. ⟦<SteadyPort<L> as Port>⟧.links port.steady };

    ghost returned = { λ port. ⟦<SteadyPort<L> as Port>⟧.returned port.steady };

    ghost faults = { λ port. port.faults };

    ghost refusals = { λ port. ⟦<SteadyPort<L> as Port>⟧.refusals port.steady };

    ghost has_room = { λ port. ⟦<SteadyPort<L> as Port>⟧.has_room port.steady };

    fn next(&mut self) -> Next<L> {
        let call = self.calls;
        self.calls = call.saturating_add(1);
        if self.failing.contains(&call) {
            self.faults = self.faults.saturating_add(1);
            return Next::Failed;
        }
        self.steady.next()
    }

    fn done(&mut self, link: L, end: End) {
        self.steady.done(link, end);
    }
}

//! Pollers over memory, which tell all that they hold: for tests.
ghost use Rattle.std.specs.Prelude.{◌≡◌, ◌+◌, ◌≤◌, ◌==◌, not, [], Some, vec_len, vec_capacity};
ghost use Rattle.worker_server.specs.Ports.{port_state};
ghost use Rattle.event_port.specs.Pollers.{poller_state, Wakes};

use crate::pollers::{Poller, Wake};
use arc_core::{End, Failed, Link};
use std::alloc::Global;
use std::collections::VecDeque;

/// What a poller in memory tells next.
#[derive(Clone, Copy, Debug, PartialEq, Eq)]
pub enum Cue {
    /// A further link, or that none is left.
    Fresh,
    /// That the link with this token may be ready.
    Ready(usize),
}

/// Links in memory, which are given out in their order, as the cues ask for them. Where the cues are used up it goes on
/// with further links. The listed calls of `wait` and `watch`, counted together from 0, fail. It may be refused memory for
/// the links that come back.
#[derive(Drop)]
pub struct MemoryPoller<L> {
    links: VecDeque<L>,
    cues: VecDeque<Cue>,
    returned: Vec<(L, End)>,
    held: usize,
    failing: Vec<u64>,
    calls: u64,
    faults: u64,
    refused: u64,
    ghost room: { vec_len returned + held ≤ vec_capacity returned },
}

impl<L: Link + Drop> MemoryPoller<L> {
    /// A poller of these links, to which none came back; the calls in `failing` fail. Takes no memory.
    pub fn new(alloc: Global, links: Vec<L>, cues: Vec<Cue>, failing: Vec<u64>) -> MemoryPoller<L>
        ensures links { ⟦<MemoryPoller<L> as Poller>⟧.links result ≡ Some links.items }
        ensures returned { ⟦<MemoryPoller<L> as Poller>⟧.returned result ≡ Some [] }
        ensures no_fault { ⟦<MemoryPoller<L> as Poller>⟧.faults result ≡ 0 }
        ensures no_refusal { ⟦<MemoryPoller<L> as Poller>⟧.refusals result ≡ 0 }
        ensures none_held { ⟦<MemoryPoller<L> as Poller>⟧.held result ≡ 0 }
    {
        MemoryPoller {
            links: VecDeque::from(links),
            cues: VecDeque::from(cues),
            returned: Vec::new(alloc),
            held: 0,
            failing,
            calls: 0,
            faults: 0,
            refused: 0,
        }
    }

    /// The links that came back, in their order, each with the end of its session.
    pub fn returned(&self) -> &[(L, End)]
        ensures { ⟦<MemoryPoller<L> as Poller>⟧.returned self.now ≡ Some result.now }
    {
        &self.returned
    }

    /// Whether a call of `wait` or `watch` has failed.
    pub fn has_failed(&self) -> bool
        ensures { result ≡ not (⟦<MemoryPoller<L> as Poller>⟧.faults self.now == 0) }
    {
        self.faults != 0
    }

    // The next link, with room for one more that comes back.
    fn fresh(&mut self) -> Wake<L>
        ensures { Wakes (poller_state (port_state (⟦<MemoryPoller<L> as Poller>⟧.links self.old) (⟦<MemoryPoller<L> as Poller>⟧.returned self.old) (⟦<MemoryPoller<L> as Poller>⟧.faults self.old) (⟦<MemoryPoller<L> as Poller>⟧.refusals self.old)) (⟦<MemoryPoller<L> as Poller>⟧.held self.old))
            (poller_state (port_state (⟦<MemoryPoller<L> as Poller>⟧.links self.new) (⟦<MemoryPoller<L> as Poller>⟧.returned self.new) (⟦<MemoryPoller<L> as Poller>⟧.faults self.new) (⟦<MemoryPoller<L> as Poller>⟧.refusals self.new)) (⟦<MemoryPoller<L> as Poller>⟧.held self.new)) result }
    {
        if self.links.is_empty() {
            return Wake::Closed;
        }
        if self.returned.reserve(self.held + 1).is_err() {
            self.refused = self.refused.saturating_add(1);
            return Wake::NoMemory;
        }
        match self.links.pop_front() {
            Some(link) => {
                self.held += 1;
                Wake::Fresh(link)
            }
            None => unreachable!(),
        }
    }
}

impl<L: Link + Drop> Poller for MemoryPoller<L> {
    type Link = L;

    ghost links = { λ poller. Some poller.links.items };

    ghost returned = { λ poller. Some poller.returned.items };

    ghost faults = { λ poller. poller.faults };

    ghost refusals = { λ poller. poller.refused };

    ghost held = { λ poller. poller.held };

    fn wait(&mut self) -> Wake<L> {
        let call = self.calls;
        self.calls = call.saturating_add(1);
        if self.failing.contains(&call) {
            self.faults = self.faults.saturating_add(1);
            return Wake::Failed;
        }
        match self.cues.pop_front() {
            Some(Cue::Ready(token)) => Wake::Ready(token),
            _ => self.fresh(),
        }
    }

    fn watch(&mut self, _token: usize, _link: &mut L) -> Result<(), Failed> {
        let call = self.calls;
        self.calls = call.saturating_add(1);
        if self.failing.contains(&call) {
            self.faults = self.faults.saturating_add(1);
            return Err(Failed);
        }
        Ok(())
    }

    fn done(&mut self, link: L, end: End) {
        self.held -= 1;
        self.returned.push_reserved((link, end));
    }
}

//! Event workers, each of which serves many links at once.
//!
//! `pollers.rt` has what tells a worker which links are ready, and `memory.rt` one over memory; `desk.rt` what a session's
//! requests go to, `guests.rt` the links that are open, `turning.rt` the turns of one, `floor.rt` how they come and go, and
//! `events.rt` the worker.
#![tactic(auto)]

mod desk;
mod events;
mod floor;
mod guests;
mod memory;
mod pollers;
mod team;
mod turning;

pub use events::run_events;
pub use memory::{Cue, MemoryPoller};
pub use pollers::{Poller, Wake};
pub use team::{EventWorker, serve_events};

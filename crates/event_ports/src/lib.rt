//! Where the pollers of event workers come from, and where they go back to.
//!
//! `ports` has the trait, `memory` both kinds of ports over memory.
#![tactic(auto)]

mod memory;
mod ports;

pub use memory::{MemoryEventPorts, PollersCalls};
pub use ports::EventPorts;

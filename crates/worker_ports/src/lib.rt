//! Where the ports of all workers come from, and where they go back to.
//!
//! `ports` has the trait, `memory` ports over memory, `returns` what these keep of ports that are out.
#![tactic(auto)]

mod memory;
mod ports;
mod returns;

pub use memory::{MemoryPorts, PortsCalls};
pub use ports::{Handed, Ports};
pub use returns::Returns;

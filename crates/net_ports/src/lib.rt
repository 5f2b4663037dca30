//! Where the connections of all workers come from: sockets, for workers that block and for event workers.
#![tactic(auto)]

mod ports;

pub use ports::NetPorts;

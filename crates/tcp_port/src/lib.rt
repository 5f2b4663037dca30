//! Ports over TCP sockets, which block: the real outside of workers.
//!
//! `link` is one connection, `port` is where a worker's connections come from, and `ports` hands out a port to each worker.
//!
//! These count their faults, and tell nothing of what they hold: that bytes and connections really come and go is not proved.
#![tactic(auto)]

mod link;
mod port;
mod ports;

pub use link::TcpLink;
pub use port::TcpPort;
pub use ports::TcpPorts;

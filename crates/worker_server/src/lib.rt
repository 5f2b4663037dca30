//! Workers that serve sessions over one shared cache.
//!
//! `desk.rt` has what the requests of a session go to, `session.rt` serves one session, `ports.rt` has where links come from,
//! `memory.rt` ports over memory, `worker.rt` what serves a port's links, and `team.rt` runs workers side by side.
#![tactic(auto)]

mod desk;
mod laws;
mod memory;
mod ports;
mod session;
mod team;
mod worker;

pub use desk::LockDesk;
pub use laws::sessions_are_apart;
pub use memory::{MemoryPort, SteadyPort};
pub use ports::{Next, Port};
pub use session::serve_session;
pub use team::serve_all;
pub use worker::{Worker, WorkerEnd, run_worker};

//! The lock under which all workers share one executor, and the proof that there is one history.
//!
//! A thread executes a request through its seat. The seat knows the history as far as it has seen it, and its own calls
//! in it: each call's reply is the one that a single thread would have got at that place of the one history.
#![tactic(auto)]

mod gate;
mod laws;
mod lock;
mod moves;
mod seats;
mod steps;
#[cfg(test)]
mod tests;
#[cfg(test)]
mod vacant;
mod view;

pub use laws::{each_place_keeps_the_rules, legal_is_replayed};
pub use lock::TurnLock;
pub use seats::Seat;

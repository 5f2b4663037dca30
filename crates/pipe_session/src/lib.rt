//! One session on a link, which works one turn at a time.
//!
//! `desk.rt` has what its requests go to, `turn.rt` what a turn answers, `owed.rt` what it owes to its link and
//! `run.rt` the run of piped commands that is open,
//! `piece.rt` what it has pulled, `units.rt` how a unit is handled, `phase.rt` how far a session is, and `session.rt` the session and its turn.
#![tactic(auto)]

mod desk;
mod owed;
mod phase;
mod piece;
mod run;
mod session;
mod turn;
mod units;

pub use desk::{Desk, Direct};
pub use session::{Session, fresh_sessions_have_done_nothing};
pub use turn::Turn;

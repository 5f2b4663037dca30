//! A team of workers that share one executor: they are hired one after another, run side by side, and are disbanded; then
//! there is one history of all that they did.
//!
//! `team` is the team of workers that block, and `closing` joins the seats of any team.
#![tactic(auto)]

mod closing;
mod team;

pub use closing::close_joined;
pub use team::{Member, Team};

//! A team of event workers that share one executor: they are hired one after another, run side by side, and are disbanded; then
//! there is one history of all that they did.
#![tactic(auto)]

mod team;

pub use team::EventTeam;

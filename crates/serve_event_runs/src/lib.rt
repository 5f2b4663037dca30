//! Runs of a server of event workers: one poller a worker, all workers side by side over one executor, and the number of
//! sessions at the end. What such a run is says the same text as for workers that block (`Serves` in serve_runs).
//!
//! `serve` is all of it, and `hiring` makes the workers.
#![tactic(auto)]

mod hiring;
mod serve;

pub use serve::serve_pollers;

//! Writes whole texts to a sink.
//!
//! `write` is all of it.
#![tactic(auto)]

mod write;

pub use write::{Unwritten, write_all};

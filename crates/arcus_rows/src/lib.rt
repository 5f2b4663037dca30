//! Tests that cross the crates: rows of the protocol over the top call, and each call that can want memory once with
//! ample memory. Beside them stands `play`, by which the rows run.
#![tactic(auto)]

mod playing;

pub use playing::{Played, play};

#[cfg(test)]
mod ample_memory;
#[cfg(test)]
mod bad_input;
#[cfg(test)]
mod cutting;
#[cfg(test)]
mod edge;
#[cfg(test)]
mod eviction;
#[cfg(test)]
mod harness;
#[cfg(test)]
mod lists;
#[cfg(test)]
mod long_session;
#[cfg(test)]
mod maps;
#[cfg(test)]
mod pipes;
#[cfg(test)]
mod pushes;
#[cfg(test)]
mod rows;
#[cfg(test)]
mod servers;
#[cfg(test)]
mod sets;
#[cfg(test)]
mod turning;
#[cfg(test)]
mod turns;

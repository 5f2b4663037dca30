//! What the program's words ask for.
//!
//! `words` reads them; `command`, `options` and `job` are what they are read as.
#![tactic(auto)]

mod job;
mod options;
#[cfg(test)]
mod tests;
mod words;

pub use job::{Job, ServeJob};
pub use words::{BadWords, read_words, words_ask_for_a_job};

//! The texts of replies: what is sent for each, from any place of it on.
#![tactic(auto)]

mod buffer;
#[cfg(test)]
mod element_tests;
mod elements;
mod gatherer;
mod line_from_end;
mod lines;
mod outbox;
#[cfg(test)]
mod pipe_tests;
mod pipes;
mod sending;
mod statuses;
#[cfg(test)]
mod tests;
mod texts;
mod wrote;

pub use outbox::{Outbox, WAITING_BYTES};
pub use pipes::write_pipe;
pub use statuses::{status_fails, status_of};
pub use texts::{reply_len, write_reply, write_word};
pub use wrote::Wrote;

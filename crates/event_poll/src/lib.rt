//! The sockets of event workers, over mio: the edge of the program, which tells nothing of content.
//!
//! `link.rt` has a connection that never waits, `crowd.rt` how many connections each worker has, `poller.rt` what tells a
//! worker which of them are ready, and `listener.rt` where they come from.
#![tactic(auto)]

mod crowd;
mod link;
mod listener;
mod poller;

pub use link::EventLink;
pub use listener::EventListener;
pub use poller::EventPoller;

//! What a server says where the system has no room for a further connection.
#![tactic(auto)]

mod notice;

pub use notice::{Notice, is_full};

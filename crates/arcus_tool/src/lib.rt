//! What a user starts: the top call, its jobs, and their statuses.
#![tactic(auto)]

mod edge;
mod joined;
mod scripts;
mod serving;
mod sessions;
mod status;
mod top;

pub use edge::{StdSink, StdSource, WallClock};
pub use scripts::many;
pub use serving::serve;
pub use sessions::session;
pub use status::Status;
pub use top::{World, run};

//! The machine: executes requests on the held items, within the byte limit.
//!
//! - `cache`: the cache, an executor; one function a command
//! - `plans`: what a key-value command on one key wants done, by the item that is held there
//! - `asked`: what a command on a collection wants done with it, and what it makes where there is none
//! - `key_state`: how a key stands at the start of a step, and what its place gets then and at the end
//! - `retrieval`: what a retrieval answers, and what it leaves
//! - `items`: the held items; over them `puts`, `set_expiry` and `changes`, the ways in which one changes
//! - `stored`, `expiring`: what is held under a key, and when it expires
//! - `settings`: the limit and the share
//! - `laws`: laws of the machine
#![tactic(auto)]

mod asked;
mod cache;
mod changes;
mod expiring;
mod items;
mod key_state;
mod laws;
mod plans;
mod puts;
mod retrieval;
mod set_expiry;
mod settings;
mod stored;

pub use cache::Cache;
pub use laws::{eviction_is_least, step_keeps_the_rules};
pub use settings::Settings;

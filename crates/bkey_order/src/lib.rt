//! Bkeys and element flags as words of the protocol: read from a word, and printed.
//!
//! Nothing here takes memory.
//!
//! `read` reads words, `faults` says what is wrong with others, `print` prints.
#![tactic(auto)]

mod faults;
mod print;
mod read;
#[cfg(test)]
mod tests;

pub use faults::BkeyFault;
pub use print::{print_bkey, print_eflag};
pub use read::{read_bkey, read_eflag};

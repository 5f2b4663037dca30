//! Collections as items: a list, a set or a map with its attributes, and what requests want done with one.
//!
//! `collection` is the collection with its rules and its stated size, and carries out changes (`changes`); `elements` is
//! what it holds by its kind. `lists`, `sets` and `maps` decide what a request wants done (`planned`), by its row of the
//! machine's table.
#![tactic(auto)]

mod changes;
mod collection;
mod elements;
mod lists;
mod maps;
mod planned;
mod sets;

pub use changes::{Insertion, Removal};
pub use collection::Collection;
pub use elements::Elements;
pub use lists::{delete_from_list, insert_into_list, read_list};
pub use maps::{delete_from_map, insert_into_map, read_map, update_map, upsert_map};
pub use planned::{Planned, Removed};
pub use sets::{delete_from_set, find_in_set, insert_into_set, read_set};

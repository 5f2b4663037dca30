//! Trees as items: what the commands on trees do to one, over its elements and its edges.
//!
//! `tree` has the tree with its stated size, and does what was planned. `reads`, `places`, `takes`, `inserts` and `changes` have
//! the commands, `planned` what they want done. `walk` and `chosen` go along a range; `kinds`, `zones` and `edges` have the rules
//! on kinds of bkeys and on what was trimmed.
#![tactic(auto)]

mod changes;
mod chosen;
mod edges;
mod inserts;
mod kinds;
mod places;
mod planned;
mod reads;
mod replies;
mod takes;
mod tree;
mod walk;
mod zones;

pub use changes::{arith_tree, update_tree};
pub use edges::refused_edges;
pub use inserts::{insert_into_tree, upsert_tree};
pub use kinds::is_of_kind;
pub use places::{around, by_position};
pub use planned::{TreeChange, TreePlanned, TreeRemoval, TreeRemoved};
pub use reads::{count_tree, position_in_tree, read_tree};
pub use replies::{TreeReply, TreeWord};
pub use takes::delete_from_tree;
pub use tree::TreeColl;
pub use zones::meets_zone;

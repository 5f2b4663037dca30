//! What trees answer over a whole history: a read that ends with END misses nothing that was put and not taken.
//!
//! The definitions stand in `specs/`, and this crate has no code that runs: each function of `laws` does nothing, and its
//! contract is a law.
//!
//! | To find | Look in |
//! |---|---|
//! | what is asked of a tree, as data | `specs/TreeEntries.antt` |
//! | what was put and not taken | `specs/Kept.antt`; worked in `specs/WorkedKept.antt` |
//! | what a read misses, and how what is kept agrees with a tree | `specs/Agreement.antt` |
//! | which order and kinds rows keep | `specs/TreeKinds.antt` |
//! | the laws | `laws` |
//! | their proofs | `proofs/Lists.antt` (filters), `EdgeLemmas.antt` and `PutLemmas.antt` (inserts), `RowLemmas.antt` (a row each), `OrderLemmas.antt` and `ReadLemmas.antt` (reads), `Histories.antt` (lists of rows), `KindLemmas.antt` and `KindRows.antt` (order and kinds) |
#![tactic(auto)]

mod laws;

pub use laws::{ends_miss_nothing, rows_keep_agreement, rows_keep_order};

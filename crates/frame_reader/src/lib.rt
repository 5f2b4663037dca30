//! Cuts a stream of bytes that comes in any pieces into units: a line, or a line with its block.
//!
//! `reader` has the reader, which takes any pieces; `turns` what it does in each phase, `phases` these phases, `units`
//! what it hands out. `fronts` reads whole units where they lie in a piece. `laws` has what holds of every stream.
#![tactic(auto)]

mod fronts;
mod laws;
mod phases;
mod reader;
mod turns;
mod units;

pub use fronts::{front_block, front_line, fronts_are_units};
pub use laws::{
    any_bytes_are_cut, beginnings_agree, cut_follows, cuts_agree, reader_stands_for_a_unit,
    rest_begins_with_no_unit, small_blocks_are_kept, spans_are_not_empty, units_differ_by_memory,
    units_follow, units_stay,
};
pub use reader::Frames;
pub use units::Unit;

#[cfg(test)]
mod tests;

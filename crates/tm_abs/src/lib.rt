//! Lower and upper parts of sets of states over the cells of tracked predicates, as decision diagrams.
#![tactic(auto)]

mod atoms;
mod cells;
mod joined;
mod laws;
mod marks;
mod reading;
mod split;
mod turns;
mod upper;

pub use cells::Cells;
pub use laws::{cut_cells_part_sets, whole_pools_part_nothing};

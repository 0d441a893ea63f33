//! The game of a design decided over predicates, with an honest trace of why each was added.
#![tactic(auto)]

mod arena;
mod deciding;
mod forgetting;
mod laws;
mod memory;
mod narrowing;
mod numbers;
mod parting;
mod parts;
mod pooled;
mod pooled_arena;
mod pooled_pre;
mod searching;
mod sets;
mod sided;
mod solving;
mod telling;
mod trace;

pub use arena::Arena;
pub use deciding::decide;
pub use laws::parts_are_those_of_cells;
pub use pooled::Pooled;
pub use sided::Sided;
pub use trace::{Added, Decision, Trace};

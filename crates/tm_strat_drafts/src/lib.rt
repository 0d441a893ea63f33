//! Drafts of a driver's blocks, made from the states at which moves are good.
#![tactic(auto)]

mod building;
mod drafts;
mod finishing;
mod goals;
mod ids;
mod moves;
mod splitting;

pub use drafts::{DraftBlock, MoveChoice};
pub use goals::strategies;
pub use moves::Moves;

//! The step operator of the game of a design, as solving asks for it: exact, over decision diagrams.
#![tactic(auto)]

mod certified;
mod exact;
mod operator;
mod parts;
mod sets;

pub use certified::exact_operators_are_those_of_their_designs;
pub use exact::{Exact, tell};
pub use parts::part;
pub use sets::{both, either, rest};

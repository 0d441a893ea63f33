//! The steps of guarded updates as decision diagrams.
#![tactic(auto)]

mod changing;
mod driver;
mod encoding;
mod making;
mod passes;
mod places;
mod reading;
mod sets;
mod steps;
mod truths;
mod turn;

pub use changing::changes;
pub use encoding::Encoding;
pub use making::MadeGame;
pub use passes::pass_terms;
pub use places::{Place, place_terms};
pub use truths::truth;

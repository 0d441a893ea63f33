//! Hash-consed terms of bit-vectors: equal terms get equal ids, and an id is valued over the values of the inputs.
#![tactic(auto)]

mod term;
mod terms;

pub use term::{Parts, Term, TermId};
pub use terms::Terms;

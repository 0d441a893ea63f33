//! The winning region of a GR(1) game over an abstract step operator, with the ranked sets and the levels that
//! certificates are made of.
#![tactic(auto)]

mod certificates;
mod conditions;
mod copying;
mod goals;
mod ids;
mod iterates;
mod pre;
mod rounds;
mod safety;
mod solving;
mod turns;

pub use certificates::{
    levels_are_certified, ranked_sets_are_certified, sides_are_certified, told_operators_are_lawful,
};
pub use copying::copied;
pub use ids::same;
pub use iterates::{Chain, Iterates, LevelSet, RankSet, Ranking};
pub use pre::Pre;
pub use safety::keep_safe;
pub use solving::{advance, solve, solve_from};

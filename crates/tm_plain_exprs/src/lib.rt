//! The values of the expressions of a design at a state and the memory of a step, by tables, and where they overrun.
#![tactic(auto)]

mod operators;
mod overrun;
mod reader;
mod store;

pub use overrun::Overrun;
pub use reader::Reader;
pub use store::{StepValues, Store};

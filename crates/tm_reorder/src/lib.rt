//! Certificates in another order of the levels: sets that hold the same states, or the same valid ones, told by other
//! diagrams.
#![tactic(auto)]

mod clamping;
mod driver;
mod environment;
mod fields;
mod graph;
mod keys;
mod moving;
mod parts;
mod raising;

pub use driver::{clamp_driver, reorder_driver};
pub use environment::{clamp_environment, reorder_environment};
pub use fields::Field;

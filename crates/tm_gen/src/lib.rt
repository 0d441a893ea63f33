//! Writes the generated specifications: a device of n registers, for which drivers of any size can be asked.
#![tactic(auto)]

mod specification;

pub use specification::{GenError, generate};

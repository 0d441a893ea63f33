//! From a design to the files of a driver, or to those of the environment where no driver exists.
#![tactic(auto)]

mod driver;
mod environment;
mod found;
mod ordering;
mod synthesis;

pub use found::{DriverFiles, EnvironmentFiles, Synthesis};
pub use synthesis::synthesise;

//! The commands.

pub mod check_driver;
pub mod check_environment;
pub mod generate;
pub mod migrate;
pub mod run;
pub mod structure;
pub mod synthesise;
pub mod unstructure;
pub mod write;

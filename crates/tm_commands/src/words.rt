//! The words behind the program's own name, and the command that they spell.

pub mod command;
pub mod number;
pub mod reading;
pub mod splitting;

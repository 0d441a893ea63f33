//! The play that a text of choices tells.

pub mod tables;
mod turn;
mod turns;

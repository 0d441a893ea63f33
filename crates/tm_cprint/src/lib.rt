//! Prints the blocks of a driver as C text.
#![tactic(auto)]

pub mod expression;
pub mod piece;
mod printer;

pub use printer::{print, push_arguments};

//! The text of choices, and what it says.

pub mod choices;
mod lines;
pub mod number;
pub mod script;

//! The weight order and the control order of the bits of a design's states, and the numbers of which these bits are.
#![tactic(auto)]

mod control;
mod fields;
mod orders;
mod widths;

pub use fields::fields_of;
pub use orders::{Orders, orders_of};

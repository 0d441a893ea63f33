//! Terms of bit-vectors as decision diagrams of their bits (bit-blasting).
#![tactic(auto)]

mod blast;
mod cell;
mod compare;
mod levels;
mod marks;
mod memory;
mod place;
mod term_bits;

pub use blast::bits;
pub use levels::are_levels;
pub use memory::TermBits;

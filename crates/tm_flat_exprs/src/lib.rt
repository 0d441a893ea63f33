//! Makes terms of the expressions of a design: each has the value that the plain meaning gives, over all values of the
//! inputs.
#![tactic(auto)]

mod gates;
mod memory;
mod operators;
mod reader;
mod valued;

pub use gates::{denial, either, make, where_false, where_true};
pub use memory::{StepTerms, TermMemory, Version};
pub use reader::TermReader;
pub use valued::Valued;

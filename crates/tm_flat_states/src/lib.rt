//! Makes the terms of what a design says of states: its goals, its fairness conditions, its initial and its valid
//! states; with the widths of its inputs, its magic blocks and the widths of the parameters of its controllable tasks.
#![tactic(auto)]

mod actors;
mod bounds;
mod conditions;
mod fairs;
mod goals;
mod inputs;
mod magic;
mod marker;
mod memory;
mod parameters;
mod states;
mod truths;

pub use fairs::is_owed;
pub use marker::Marker;
pub use memory::input_memory;

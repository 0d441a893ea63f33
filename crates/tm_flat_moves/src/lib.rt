//! Makes the steps of processes and of controllable tasks as guarded updates.
#![tactic(auto)]

mod arguments;
mod arrivals;
mod begin;
mod callees;
mod calls;
mod finish;
mod mover;
mod next;
mod process;
mod rests;
mod tasks;
mod turn;

pub use begin::input_terms;
pub use mover::Mover;
pub use process::stop_behind;
pub use tasks::Tasks;
pub use turn::driver_turn;

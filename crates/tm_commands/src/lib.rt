//! Obeys the words of a command line over a host's files, and tells what came of it.
#![tactic(auto)]

mod commands;
mod input;
mod obeying;
mod status;
mod stop;
mod words;

pub use obeying::obey_and_report;
pub use status::Status;
pub use tm_play::{PlayEnd, StopWhy};
pub use tm_refine::{Added, Trace};
pub use tm_report::{Bad, Ending, Failure, Ranks};

//! How a command ends, and the lines that tell it, each put on an output by itself.
#![tactic(auto)]

mod ending;
mod fault_text;
mod outcome;
mod put;
mod synthesis;
mod trace;
mod verdict;

pub use ending::{Bad, Ending, Failure, Ranks};
pub use outcome::put_outcome;
pub use put::{failure_of, put_line};
pub use synthesis::{put_budget, put_driver, put_environment};
pub use verdict::{put_accepted, put_levels, put_refused};

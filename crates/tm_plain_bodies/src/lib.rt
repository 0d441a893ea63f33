//! Runs of the bodies of a design, statement by statement, by tables.
#![tactic(auto)]

mod answers;
mod arguments;
mod assign;
mod callees;
mod calls;
mod choices;
mod conditions;
mod course;
mod frame;
mod halt;
mod perform;
mod run;
mod runner;
mod todo;
mod trail;

pub use choices::Choices;
pub use conditions::assume;
pub use course::Course;
pub use frame::Frame;
pub use halt::Halt;
pub use runner::Runner;
pub use trail::Trail;

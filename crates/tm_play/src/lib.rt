//! Plays what a text of choices tells, by the answers of a driver's blocks, and puts a line for each state.
#![tactic(auto)]

mod ending;
mod input;
mod laws;
mod play;
mod report;

pub use ending::{PlayEnd, PlayError, PlayHalt, StopWhy};
pub use input::choices::{ScriptError, read_script};
pub use input::number::read_digits;
pub use input::script::{Actor, Script, Turn};
pub use laws::ends_are_determined;
pub use play::tables::play_script;
pub use report::ending_text::end_line;
pub use report::line_text::{push, push_number};
pub use report::play_text::push_path;
pub use report::state_text::push_state;

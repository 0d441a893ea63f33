//! Makes a design as guarded updates: the steps of its processes and controllable tasks, what it says of states, and
//! its pool of predicates, as terms over a state and bits of choices and arguments.
#![tactic(auto)]

mod callable_laws;
mod claims;
mod empty;
mod layout;
mod markable_laws;
mod movable_laws;
mod moves;
mod predicates;
mod processes;
mod tasks;
mod updater;
mod updates;
mod walkable_laws;
mod widths;

pub use callable_laws::sound_designs_of_texts_are_callable;
pub use empty::empty_terms;
pub use markable_laws::sound_designs_of_texts_are_markable;
pub use movable_laws::what_is_left_may_be_walked;
pub use updates::flatten;
pub use walkable_laws::{designs_of_one_text_fit_alike, sound_designs_of_texts_are_walkable};
pub use widths::inputs;

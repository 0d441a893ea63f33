//! What the names of a text are declared as, scope by scope.

mod declares;
mod lists;
mod sort;

pub(crate) use lists::{members, process_slots, task_slots, text_names};
pub(crate) use sort::Declared;
pub use sort::Sort;

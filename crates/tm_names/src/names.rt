//! What paths lead to, by the names of a text.

mod meaning;
mod text_names;

pub use meaning::Meaning;
pub(crate) use meaning::meaning_from;
pub use text_names::TextNames;
pub(crate) use text_names::{found_sort, nth};

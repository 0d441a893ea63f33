//! The states of a design as words, and sets of them as a game keeps them or as formulas that are drawn.

mod fields;
mod formula;
mod kept;
mod levels;
mod sets;

pub use fields::Fields;
pub use formula::{Formula, Literal};
pub use kept::{kept_set, state_text};
pub use levels::{is_at, is_true, levels_at, state_fields};
pub use sets::{both, literal_set, set_of};

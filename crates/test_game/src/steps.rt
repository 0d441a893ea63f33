//! What moves lead to by the interpreter, over all short lists of choices, the values of terms, and numbers that are
//! drawn for tables of cases.

mod draw;
mod outcomes;
mod values;

pub use draw::Draw;
pub use outcomes::{Led, Reach, number_at, runs, state_of, word};
pub use values::{value_in, values_at};

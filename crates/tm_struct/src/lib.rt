//! A driver as nested tests and functions, without jumps: its answer, its text, and the way from blocks and back.
#![tactic(auto)]

/// What a call gives; where memory is wanting, the function says so, and drops what it holds.
///
/// `?` would take what is held apart in place, which costs the proof ten times as much.
macro_rules! given {
    ($result:expr $(, $held:ident)*) => {
        match $result {
            Ok(given) => given,
            Err(error) => {
                $(drop($held);)*
                return Err(error);
            }
        }
    };
}

/// A value in its box; where memory is wanting, the function says so, and drops the trees that it holds.
///
/// `?` would take the trees apart in place, which costs the proof ten times as much.
macro_rules! boxed {
    ($alloc:expr, $value:expr $(, $held:ident)*) => {
        match Box::new($alloc, $value) {
            Ok(boxed) => boxed,
            Err(failed) => {
                drop(failed);
                $(drop($held);)*
                return Err(AllocError);
            }
        }
    };
}

mod answering;
mod copying;
mod laws;
mod laying;
mod naming;
mod printer;
pub mod program;
mod reaching;
mod shaping;

pub use answering::answer_structured;
pub use laws::{
    blocks_have_one_shape, shapes_answer_as_their_blocks, structured_answers_are_determined,
    structured_drivers_always_answer, structured_texts_are_determined,
};
pub use laying::blocks_of;
pub use printer::print_structured;
pub use program::{MOST_IFS, Structured, Tree};
pub use shaping::structure;

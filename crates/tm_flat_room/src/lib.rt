//! Laws: the choices and arguments of a sound design fit into the bits that there are for them, and which answers of a
//! driver are allowed.
#![tactic(auto)]

mod assuming;
mod room_laws;

pub use assuming::{
    has_assume, permitted_moves_are_allowed, texts_without_the_word_assume_nothing,
};
pub use room_laws::{sound_designs_of_texts_are_small, sound_designs_of_texts_have_room};

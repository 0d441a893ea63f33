//! The lines of a play.

pub mod ending_text;
pub mod line_text;
pub mod play_text;
pub mod put;
pub mod state_text;

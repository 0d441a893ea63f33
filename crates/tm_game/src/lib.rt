//! The symbolic game of a design: its sets of states and its predecessors, as decision diagrams.
#![tactic(auto)]

/// What a call gives; where memory is wanting, the function says so, and drops what it holds.
///
/// `?` would take what is held apart in place, which costs the proof ten times as much.
macro_rules! given {
    ($result:expr $(, $held:ident)*) => {
        match $result {
            Ok(given) => given,
            Err(error) => {
                $(drop($held);)*
                return Err(error);
            }
        }
    };
}

mod allowed;
mod copy;
mod diagrams;
mod game;
mod gather;
mod least;
mod moves;
mod numbers;
mod opening;
mod permitted;
mod predecessors;
mod restore;
mod start;
mod states;
mod terms;
mod values;

pub use game::Game;
pub use moves::MoveShape;
pub use values::numbers_of;

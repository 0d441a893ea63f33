//! A driver's blocks, made from the solution of a game: tests of the state that lead to moves that are good there.
#![tactic(auto)]

/// What a call gives; where memory is wanting, the function says so, and drops what it holds.
///
/// `?` would take what is held apart in place, which costs the proof ten times as much.
macro_rules! given {
    ($result:expr $(, $held:ident)*) => {
        match $result {
            Ok(given) => given,
            Err(error) => {
                $(drop($held);)*
                return Err(error);
            }
        }
    };
}

mod arguments;
mod atoms;
mod candidates;
mod choosing;
mod covering;
mod expressions;
mod good;
mod literals;
mod making;
mod masses;
mod numbers;
mod options;
mod parameters;
mod predicates;
mod reading;
mod sets;
mod spelling;
mod splits;
mod tables;
mod tests;

pub use making::{Driven, driver};

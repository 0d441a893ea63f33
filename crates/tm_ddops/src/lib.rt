//! Operations on decision diagrams, and the one cache of results that they share.
#![tactic(auto)]

/// What a call gives; where memory is wanting, the function says so, and drops what it holds.
///
/// `?` would take what is held apart in place, which costs the proof ten times as much.
macro_rules! given {
    ($result:expr $(, $held:ident)*) => {
        match $result {
            Ok(given) => given,
            Err(error) => {
                $(drop($held);)*
                return Err(error);
            }
        }
    };
}

mod binary;
mod cache;
mod change;
mod choice;
mod compose;
mod connective;
mod copy;
mod ite;
mod least;
mod manager;
mod once;
mod operation;
mod plans;
mod quantify;
mod reached;
mod rewrite;
mod support;
mod tables;
mod walk;

pub use manager::Manager;
pub use operation::{Operation, Parts};

//! Counts what the limits of a checked specification count, and finds which template holds itself.
#![tactic(auto)]

/// What a call gives; where memory is wanting, the function says so, and drops what it holds.
///
/// `?` would take what is held apart in place, which costs the proof ten times as much.
macro_rules! given {
    ($result:expr $(, $held:ident)*) => {
        match $result {
            Ok(given) => given,
            Err(error) => {
                $(drop($held);)*
                return Err(error);
            }
        }
    };
}

mod amount;
mod choices;
mod counts;
mod limits;
mod names;
mod paths;
mod shares;
mod sizes;
mod tasks;
mod templates;
mod totals;
mod weights;

pub use limits::{above, first_limit};
pub use templates::{TemplateOrder, template_order};

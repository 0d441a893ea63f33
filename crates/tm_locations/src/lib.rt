//! The locations of the processes of a design, each with its place, the trail of calls that leads to it, and what is
//! left to be done after it.
#![tactic(auto)]

/// What a call gives; where memory is wanting, the function says so, and drops what it holds.
///
/// `?` would take what is held apart in place, which costs the proof ten times as much.
macro_rules! given {
    ($result:expr $(, $held:ident)*) => {
        match $result {
            Ok(given) => given,
            Err(error) => {
                $(drop($held);)*
                return Err(error);
            }
        }
    };
}

mod callees;
mod find;
mod laws;
mod locations;
mod numbers;
mod table;
mod walk;

pub use find::find_locations;
pub use laws::{
    bodies_that_do_not_pause_hold_no_location, joined_designs_lead_by_text, locations_settle,
    sound_designs_lead_by_text,
};
pub use table::{LocationRow, Locations, RestNode, TrailNode, Work};

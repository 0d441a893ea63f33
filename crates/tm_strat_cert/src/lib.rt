//! The certificates of a solved game: its iterates as sets over numbered nodes.
#![tactic(auto)]

/// What a call gives; where memory is wanting, the function says so, and drops what it holds.
///
/// `?` would take what is held apart in place, which costs the proof ten times as much.
macro_rules! given {
    ($result:expr $(, $held:ident)*) => {
        match $result {
            Ok(given) => given,
            Err(error) => {
                $(drop($held);)*
                return Err(error);
            }
        }
    };
}

mod chains;
mod driver;
mod environment;
mod place;
mod ranks;

pub use driver::driver_cert;
pub use environment::environment_cert;

//! Reads the C text of a driver: the blocks that it is over a design, or its first fault.
#![tactic(auto)]

/// A value in its box; where memory is wanting, the function says so, and drops the trees that it holds.
///
/// `?` would do so, too, at a multiple of the cost of the proof: it takes the trees apart in place.
macro_rules! boxed {
    ($alloc:expr, $value:expr $(, $held:ident)*) => {
        match Box::new($alloc, $value) {
            Ok(boxed) => boxed,
            Err(failed) => {
                drop(failed);
                $(drop($held);)*
                return Err(AllocError);
            }
        }
    };
}

mod bad;
pub mod call;
pub mod expression;
pub mod include;
mod laws;
pub mod names;
pub mod part;
mod reader;
pub mod row;
pub mod scan;
pub mod shape;
mod sign;
pub mod spot;
mod statement;
pub mod token;
mod waiting;

pub use bad::{BadDriver, ReadDriverError};
pub use laws::sound_designs_have_names;
pub use reader::{MOST_BYTES, read_driver};

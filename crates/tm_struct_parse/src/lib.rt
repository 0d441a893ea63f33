//! Reads the structured text of a driver: the functions and tests that it is over a design, or its first fault.
#![tactic(auto)]

/// What a reader read; where it refuses, so does the function, and drops the trees that it holds.
///
/// `?` would do so, too, at twice the cost of the proof: it converts the error, and takes the trees apart in place.
macro_rules! read {
    ($reader:expr $(, $held:ident)*) => {
        match $reader {
            Ok(read) => read,
            Err(stop) => {
                $(drop($held);)*
                return Err(stop);
            }
        }
    };
}

/// A value in its box; where memory is wanting, the function says so, and drops the trees that it holds.
///
/// `?` would take the trees apart in place, which costs the proof ten times as much.
macro_rules! boxed {
    ($alloc:expr, $value:expr $(, $held:ident)*) => {
        match Box::new($alloc, $value) {
            Ok(boxed) => boxed,
            Err(failed) => {
                drop(failed);
                $(drop($held);)*
                return Err(AllocError);
            }
        }
    };
}

mod action;
mod bad;
mod draft;
mod names;
mod program;
mod reader;
mod scan;

pub use bad::{BadStructured, ReadStructuredError};
pub use reader::read_structured;

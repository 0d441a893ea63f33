//! Judges the names, types, calls and loops of a specification: finds the first of the faults `F4` to `F10`.
#![tactic(auto)]

/// What a call gives; its want of memory is handed on.
macro_rules! given {
    ($result:expr) => {
        match $result {
            Ok(given) => given,
            Err(error) => return Err(error),
        }
    };
}

/// The fault that a call finds, or else what the next call gives; want of memory is handed on.
macro_rules! or_else {
    ($found:expr, $next:expr) => {
        match $found {
            Ok(None) => $next,
            Ok(Some(fault)) => Ok(Some(fault)),
            Err(error) => Err(error),
        }
    };
}

mod check;
mod crossings;
mod cycles;
mod firsts;
mod firsts_named;
mod literals;
mod mismatches;
mod parts;
mod stages;
mod unknown;

pub use check::check_types;

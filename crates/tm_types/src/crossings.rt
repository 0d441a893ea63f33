//! `F9` and `F10`: loops that may not cross a location, and locations in what is to be one step.

mod locations;
mod loops;

pub(crate) use locations::first_atomic_location;
pub(crate) use loops::first_endless_loop;

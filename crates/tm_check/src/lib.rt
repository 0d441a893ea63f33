//! The checker of drivers: what a driver answers at each state, and whether its blocks have a certificate.
#![tactic(auto)]

mod arguments;
mod calls;
mod check;
mod good;
mod leaving;
mod loaded;
mod operators;
mod regions;
mod replies;
mod steps;
mod terms;
mod trying;

pub use check::check_driver;
pub use good::good_answers;
pub use replies::{Replies, Reply, read_replies};

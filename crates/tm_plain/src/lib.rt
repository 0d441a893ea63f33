//! The plain interpreter of designs, by tables: which moves the turn rule permits at a state, what each leads to, and
//! which goals hold there.
#![tactic(auto)]

mod machine;
mod plain;
mod tables;

pub use machine::{Machine, locate};
pub use plain::{first_state, holds, magic, step};
pub use tables::Tables;

//! What a walk has made.

use std::alloc::Global;
use tm_flat_stmts::Ends;
use tm_term::Terms;

/// What a walk has made: terms, and how runs have ended.
#[derive(Drop)]
pub struct Course {
    pub alloc: Global,
    pub terms: Terms,
    pub ends: Ends,
}

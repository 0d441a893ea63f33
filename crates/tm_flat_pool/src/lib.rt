//! The pool of predicates of a design and its cells, as definitions and as terms.
#![tactic(auto)]

/// What a call gives; where memory is wanting, the function says so, and drops what it holds.
///
/// `?` would take what is held apart in place, which costs the proof ten times as much.
macro_rules! given {
    ($result:expr $(, $held:ident)*) => {
        match $result {
            Ok(given) => given,
            Err(error) => {
                $(drop($held);)*
                return Err(error);
            }
        }
    };
}

mod atoms;
mod bits;
mod holding;
mod marks;
mod pool;
mod pool_laws;
mod pooler;
mod variables;

pub use pool::PoolTerms;
pub use pool_laws::{
    atoms_of_pools_are_truths, cells_bound_sets, certificates_of_cells_decide,
    predicates_part_cells,
};
pub use pooler::Pooler;

//! Lists the atoms of a design's conditions, each once.
#![tactic(auto)]

mod atom;
mod atoms;
mod bodies;
mod find;
mod laws;
mod node;
mod pool;
mod resolved;
mod table;
mod walk;

pub use atom::AtomAt;
pub use atoms::Atoms;
pub use find::{Conditions, list_atoms};
pub use laws::{
    atoms_of_a_pool_are_noted_in_turn, atoms_of_two_lists_are_noted_in_turn,
    noted_atoms_add_nothing, same_atoms_are_equal,
};

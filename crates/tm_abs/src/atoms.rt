//! Tracked predicates that are no state bits.
ghost use Rattle.std.specs.Prelude.{◌≡◌, IfOk, map};
ghost use Rattle.tm_abs.specs.Inner.Atoms.{data_of};

use std::alloc::{AllocError, Global};
use tm_dd::NodeId;

/// A tracked predicate that is no state bit.
#[derive(Drop)]
pub(crate) struct Atom {
    /// The level that stands for it while levels of a state are quantified.
    pub(crate) level: u32,
    /// Where it holds.
    pub(crate) holds: NodeId,
    /// The levels that this diagram reads.
    pub(crate) reads: Vec<u32>,
}

/// The tracked predicates.
#[derive(Drop)]
pub(crate) struct Tracked {
    /// A mark for each level of a state: whether its bit is none of them.
    pub(crate) free: Vec<bool>,
    /// Those that are no state bits.
    pub(crate) atoms: Vec<Atom>,
}

// Copies of atoms: the same levels, diagrams and lists of levels.
pub(crate) fn copied(alloc: Global, atoms: &[Atom]) -> Result<Vec<Atom>, AllocError>
    ensures { IfOk result (λ copies. map data_of copies.items ≡ map data_of atoms.now) }
{
    let mut copies = Vec::new(alloc);
    for atom in atoms {
        let copy = copy_of(alloc, atom)?;
        copies.push(copy)?;
    }
    Ok(copies)
}

// A copy of an atom.
fn copy_of(alloc: Global, atom: &Atom) -> Result<Atom, AllocError>
    ensures { IfOk result (λ copy. data_of copy ≡ data_of atom.now) }
{
    let reads = Vec::from_slice(alloc, &atom.reads)?;
    Ok(Atom {
        level: atom.level,
        holds: atom.holds,
        reads,
    })
}

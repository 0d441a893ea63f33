//! The atoms of a design's conditions.
ghost use Rattle.std.specs.Prelude.{◌≡◌, length, nat_eq, slice_get};
ghost use Rattle.tm_atoms.specs.Atoms.{listed};

use crate::atom::AtomAt;
use indexmap::IndexMap;

/// The atoms of a design's conditions in order, each once: those of goals and declared fairness conditions come first.
#[derive(Drop)]
pub struct Atoms<'t> {
    pub(crate) atoms: IndexMap<usize, AtomAt<'t>>,
    pub(crate) first: usize,
}

impl<'t> Atoms<'t> {
    /// The number of atoms.
    pub fn len(&self) -> usize
        ensures { result ≡ length (listed self.now) }
    {
        self.atoms.len()
    }

    /// Whether there is no atom.
    pub fn is_empty(&self) -> bool
        ensures { result ≡ nat_eq (length (listed self.now)) 0 }
    {
        self.atoms.is_empty()
    }

    /// How many atoms stand in goals and declared fairness conditions: these are the first ones.
    pub fn first(&self) -> usize
        ensures { result ≡ self.now.first }
    {
        self.first
    }

    /// The atom of a number, in constant time.
    pub fn get(&self, number: usize) -> Option<AtomAt<'t>>
        ensures { result ≡ slice_get (listed self.now) number }
    {
        match self.atoms.get_index(number) {
            Some((_, atom)) => Some(*atom),
            None => None,
        }
    }
}

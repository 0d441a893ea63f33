//! The terms of the atoms of the pool.
ghost use Rattle.std.specs.Prelude.{◌≡◌, ◌<◌, IfOk, Some, length, map, slice_get};
ghost use Rattle.std.specs.List.{AllByRecursion};
ghost use Rattle.tm_base.specs.Arithmetic.{bit};
ghost use Rattle.tm_syntax.specs.Design.Atoms.{first_atoms, pool_atoms};
ghost use Rattle.tm_syntax.specs.Design.View.{design_tree};
ghost use Rattle.tm_locations.specs.Locations.{LeadsByText};
ghost use Rattle.tm_atoms.specs.Atoms.{atom_of, listed};
ghost use Rattle.tm_atoms.specs.Orders.{HasCallOrder};
ghost use Rattle.tm_atoms.specs.declared.atom.AtomAt as noted;
ghost use Rattle.tm_flat_exprs.specs.Made.{Makes};
ghost use Rattle.tm_flat_states.specs.Conditions.{HasInputs};
ghost use Rattle.tm_flat_exprs.specs.Tables.{cells_of};
ghost use Rattle.tm_flat_states.specs.Markable.{IsMarkable};
ghost use Rattle.tm_flat_pool.specs.Truths.{IsTruth};
ghost use Rattle.tm_flat_pool.specs.Inner.Holding.{AreHeld, held};

use crate::pooler::Pooler;
use std::alloc::{AllocError, Global};
use tm_atoms::{Atoms, Conditions, list_atoms};
use tm_flat_exprs::TermMemory;
use tm_term::{TermId, Terms};

impl<'s> Pooler<'s> {
    /// The atoms of the pool, in order. `AllocError` is want of memory.
    pub(crate) fn atoms(&self, alloc: Global) -> Result<Atoms<'s>, AllocError>
        requires leads { LeadsByText (design_tree self.now.design.now) }
        requires order { HasCallOrder (design_tree self.now.design.now).spec }
        ensures atoms { IfOk result (λ t. map atom_of (listed t) ≡ pool_atoms (design_tree self.now.design.now)) }
        ensures first { IfOk result (λ t. t.first ≡ first_atoms (design_tree self.now.design.now)) }
    {
        let conditions = Conditions {
            goals: self.design.goals.as_slice(),
            fairs: self.design.fairs.as_slice(),
            processes: self.design.processes.as_slice(),
            tasks: self.design.tasks.as_slice(),
        };
        let instances = self.design.instances.as_slice();
        let atoms = list_atoms(alloc, self.cells, self.scopes, instances, conditions)?;
        Ok(atoms)
    }

    // The term of the atom of a number.
    fn atom_term(
        &self,
        terms: &mut Terms,
        memory: &TermMemory,
        atoms: &Atoms<'_>,
        number: usize,
    ) -> Result<TermId, AllocError>
        requires markable { IsMarkable self.now.design.now }
        requires inputs { HasInputs (cells_of self.now.design.now) terms.old memory.now }
        requires truths { AllByRecursion (IsTruth (design_tree self.now.design.now)) (map atom_of (listed atoms.now)) }
        requires number { number < length (listed atoms.now) }
        ensures { IfOk result (λ id. (a : noted.AtomAt) → slice_get (listed atoms.now) number ≡ Some a
            → Makes terms.old terms.new 1 id (λ u v. bit (held (design_tree self.now.design.now) (atom_of a).scope v
            (atom_of a).expr))) }
    {
        match atoms.get(number) {
            Some(atom) => {
                let id = self.holds(terms, memory, atom.scope, atom.expr)?;
                Ok(id)
            }
            None => unreachable!(),
        }
    }

    /// The terms of atoms, over a memory of the inputs. `AllocError` is want of memory.
    pub(crate) fn atom_terms(
        &self,
        alloc: Global,
        terms: &mut Terms,
        memory: &TermMemory,
        atoms: &Atoms<'_>,
    ) -> Result<Vec<TermId>, AllocError>
        requires markable { IsMarkable self.now.design.now }
        requires inputs { HasInputs (cells_of self.now.design.now) terms.old memory.now }
        requires truths { AllByRecursion (IsTruth (design_tree self.now.design.now)) (map atom_of (listed atoms.now)) }
        ensures { IfOk result (λ ids. AreHeld (design_tree self.now.design.now) (map atom_of (listed atoms.now))
            terms.old terms.new ids.items) }
    {
        let mut ids = Vec::new(alloc);
        for number in 0..atoms.len() {
            let id = self.atom_term(terms, memory, atoms, number)?;
            ids.push(id)?;
        }
        Ok(ids)
    }
}

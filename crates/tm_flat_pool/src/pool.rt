//! The pool of predicates as terms.
ghost use Rattle.std.specs.Prelude.{◌≡◌, ◌<◌, ◌^◌, IfOk};
ghost use Rattle.std.specs.List.{AllZip};
ghost use Rattle.tm_syntax.specs.Design.Atoms.{first_atoms};
ghost use Rattle.tm_syntax.specs.Design.View.{design_tree};
ghost use Rattle.tm_syntax.specs.Faults as facts;
ghost use Rattle.tm_term.specs.Table.{IsSound};
ghost use Rattle.tm_atoms.specs.Orders.{HasCallOrder};
ghost use Rattle.tm_flat.specs.Inputs.{input_widths};
ghost use Rattle.tm_flat_states.specs.Markable.{IsMarkable};
ghost use Rattle.tm_flat_states.specs.Marks.{MakesSuch};
ghost use Rattle.tm_flat_pool.specs.Predicates.{pool};
ghost use Rattle.tm_flat_pool.specs.PoolTerms.{IsPredicateTerm};

use crate::pooler::Pooler;
use std::alloc::{AllocError, Global};
use tm_atoms::Atoms;
use tm_flat_states::input_memory;
use tm_term::{TermId, Terms};

/// The predicates of a pool as terms, in order, and how many of them the abstraction begins with.
#[derive(Drop)]
pub struct PoolTerms {
    pub ids: Vec<TermId>,
    pub first: u32,
}

// How many of the atoms the abstraction begins with.
fn first_count(atoms: &Atoms<'_>) -> u32
    requires { atoms.now.first < 2 ^ 32 }
    ensures { result ≡ atoms.now.first }
{
    atoms.first() as u32
}

impl<'s> Pooler<'s> {
    /// For each predicate of the pool a term that is 1 exactly where it holds; an element past the end has the value 0.
    /// The tasks of the text have an order, as `call_order` of `tm_scope` finds it. Linear in the bodies of the
    /// instances, but for the heights of comparisons within comparisons, and in the bits of a state. `AllocError` is
    /// want of memory.
    pub fn pool(&self, alloc: Global, terms: &mut Terms) -> Result<PoolTerms, AllocError>
        requires design { facts.IsSound (design_tree self.now.design.now) }
        requires of_text { facts.IsOfText (design_tree self.now.design.now).spec }
        requires order { HasCallOrder (design_tree self.now.design.now).spec }
        requires markable { IsMarkable self.now.design.now }
        requires sound { IsSound terms.old }
        requires inputs { terms.old.inputs ≡ input_widths (design_tree self.now.design.now) }
        ensures first { IfOk result (λ made. made.first ≡ first_atoms (design_tree self.now.design.now)) }
        ensures pool { IfOk result (MakesSuch terms.old terms.new (λ u made.
            AllZip (IsPredicateTerm u (design_tree self.now.design.now)) (pool (design_tree self.now.design.now))
            made.ids.items)) }
    {
        let atoms = given!(self.atoms(alloc));
        let memory = given!(input_memory(alloc, terms, self.design), atoms);
        let mut ids = given!(
            self.atom_terms(alloc, terms, &memory, &atoms),
            memory,
            atoms
        );
        drop(memory);
        let marks = given!(self.marks(alloc, &atoms), ids, atoms);
        let first = first_count(&atoms);
        drop(atoms);
        let bits = given!(self.bit_terms(alloc, terms, marks.as_slice()), marks, ids);
        drop(marks);
        given!(ids.extend_from_slice(bits.as_slice()), bits, ids);
        Ok(PoolTerms { ids, first })
    }
}

//! A memory of the inputs.
ghost use Rattle.std.specs.Prelude.{◌≡◌, ◌≤◌, IfOk, length};
ghost use Rattle.tm_syntax.specs.Design.View.{design_tree};
ghost use Rattle.tm_term.specs.Table.{IsSound};
ghost use Rattle.tm_flat.specs.Inputs.{input_widths};
ghost use Rattle.tm_flat_exprs.specs.Tables.{cells_of};
ghost use Rattle.tm_flat_states.specs.Conditions.{AreInputTerms, MakesMemory};
ghost use Rattle.tm_flat_states.specs.Markable.{IsMarkable};

use std::alloc::{AllocError, Global};
use tm_flat_exprs::TermMemory;
use tm_syntax::design::Design;
use tm_term::{Term, TermId, Terms};

// The first inputs, of so many numbers, as terms.
fn input_terms(alloc: Global, terms: &mut Terms, count: u32) -> Result<Vec<TermId>, AllocError>
    requires sound { IsSound terms.old }
    requires within { count ≤ length terms.old.inputs }
    ensures { IfOk result (λ ids. AreInputTerms terms.old terms.new count ids.items) }
{
    let mut ids = Vec::new(alloc);
    for index in 0..count {
        let id = terms.mk(Term::Input(index))?;
        ids.push(id)?;
    }
    Ok(ids)
}

/// A memory of the inputs of a design. Linear in the variables. `AllocError` is want of memory.
pub fn input_memory(
    alloc: Global,
    terms: &mut Terms,
    design: &Design,
) -> Result<TermMemory, AllocError>
    requires markable { IsMarkable design.now }
    requires sound { IsSound terms.old }
    requires inputs { terms.old.inputs ≡ input_widths (design_tree design.now) }
    ensures { IfOk result (MakesMemory (cells_of design.now) terms.old terms.new) }
{
    let ids = input_terms(alloc, terms, design.vars.len() as u32)?;
    Ok(TermMemory::new(alloc, ids))
}

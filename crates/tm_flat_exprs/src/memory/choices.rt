//! Terms that are one or another, as a truth says.
ghost use Rattle.std.specs.Prelude.{◌≡◌, IfOk, Some, ℕ, length, slice_get};
ghost use Rattle.tm_term.specs.declared.term.TermId as ids;
ghost use Rattle.tm_term.specs.Table.{IsSound};
ghost use Rattle.tm_flat.specs.Steps.{IsTerm};
ghost use Rattle.tm_flat_exprs.specs.Merged.{AreOfWidth};
ghost use Rattle.tm_flat_exprs.specs.Inner.Merging.{MakesChoice, MergesValues};

use crate::gates::make;
use std::alloc::{AllocError, Global};
use tm_term::{Term, TermId, Terms};

/// The term that is one where a truth holds, and else another one. Where both are one it stays that.
pub(crate) fn chosen(
    terms: &mut Terms,
    guard: TermId,
    a: TermId,
    b: TermId,
) -> Result<TermId, AllocError>
    requires sound { IsSound terms.old }
    requires guard { IsTerm terms.old 1 guard }
    requires width { AreOfWidth terms.old a b }
    ensures { IfOk result (MakesChoice terms.old terms.new guard a b) }
{
    if a == b {
        return Ok(a);
    }
    let id = make(terms, Term::Ite(guard, a, b))?;
    Ok(id)
}

/// The terms that a truth chooses of two lists.
pub(crate) fn chosen_values(
    alloc: Global,
    terms: &mut Terms,
    guard: TermId,
    first: &[TermId],
    second: &[TermId],
) -> Result<Vec<TermId>, AllocError>
    requires sound { IsSound terms.old }
    requires guard { IsTerm terms.old 1 guard }
    requires long { length first.now ≡ length second.now }
    requires widths { (i : ℕ) (a b : ids.TermId) → slice_get first.now i ≡ Some a → slice_get second.now i ≡ Some b
        → AreOfWidth terms.old a b }
    ensures { IfOk result (λ ids. MergesValues terms.old terms.new guard first.now second.now
        (length first.now) ids.items) }
{
    let mut values = Vec::new(alloc);
    for index in 0..first.len() {
        let id = chosen(terms, guard, first[index], second[index])?;
        values.push(id)?;
    }
    Ok(values)
}

//! Which state variables are atoms.
ghost use Rattle.std.specs.Prelude.{◌≡◌, ◌<◌, IfOk, Some, false, length, map, replicate, slice_get, slice_set, true};
ghost use Rattle.std.specs.List.{AllByRecursion};
ghost use Rattle.std.specs.Option.{option_map_or};
ghost use Rattle.tm_syntax.specs.declared.design.Design as designs;
ghost use Rattle.tm_syntax.specs.declared.design.Ty.TheVariants as types;
ghost use Rattle.tm_syntax.specs.Tree.View.{expr_tree};
ghost use Rattle.tm_syntax.specs.Design.Atoms.{resolved, resolved_atom};
ghost use Rattle.tm_syntax.specs.Design.View.{design_tree};
ghost use Rattle.tm_scope.specs.Cells.{scope_of};
ghost use Rattle.tm_scope.specs.declared.cells.site_body.SiteBody as bodies;
ghost use Rattle.tm_design.specs.Typed.{HasTypeAt};
ghost use Rattle.tm_atoms.specs.Atoms.{atom_of, listed};
ghost use Rattle.tm_atoms.specs.declared.atom.AtomAt as noted;
ghost use Rattle.tm_flat_pool.specs.Truths.{IsTruth};
ghost use Rattle.tm_flat_pool.specs.Inner.Holding.{body_of};
ghost use Rattle.tm_flat_pool.specs.Inner.Marks.{AreMarked, variable_in};

use crate::pooler::Pooler;
use crate::variables::variable;
use std::alloc::{AllocError, Global};
use tm_atoms::Atoms;
use tm_scope::{CellScope, SiteBody};
use tm_syntax::tree::Expr;

// Marks a variable, if there is one.
fn mark(marks: &mut Vec<bool>, number: Option<usize>)
    ensures { marks.new.items ≡ option_map_or (λ n. slice_set marks.old.items n true) number marks.old.items }
{
    if let Some(number) = number {
        if number < marks.len() {
            marks[number] = true;
        }
    }
}

// So many marks that are not set.
fn no_marks(alloc: Global, count: usize) -> Result<Vec<bool>, AllocError>
    ensures { IfOk result (λ marks. marks.items ≡ replicate count false) }
{
    vec![in alloc; false; count]
}

// The state variable that an expression is, in the scope that was found.
fn variable_by(found: &Option<CellScope<'_>>, e: &Expr) -> Option<usize>
    ensures { (d : designs.Design) (at : bodies.SiteBody) → found.now ≡ Some (body_of d at)
        → result ≡ variable_in (resolved (design_tree d) (scope_of at) (expr_tree e.now)) }
{
    match found {
        Some(scope) => variable(scope, e),
        None => None,
    }
}

impl<'s> Pooler<'s> {
    // The state variable that a truth of a body of an instance is, if it is one.
    fn variable_of(&self, at: SiteBody, e: &Expr) -> Option<usize>
        requires typed { HasTypeAt (body_of self.now.design.now at) types.Bool (expr_tree e.now) }
        ensures { result
            ≡ variable_in (resolved (design_tree self.now.design.now) (scope_of at) (expr_tree e.now)) }
    {
        let found = self.cells.scope(at);
        variable_by(&found, e)
    }

    // The state variable that the atom of a number is, if it is one.
    fn atom_variable(&self, atoms: &Atoms<'_>, number: usize) -> Option<usize>
        requires truths { AllByRecursion (IsTruth (design_tree self.now.design.now)) (map atom_of (listed atoms.now)) }
        requires number { number < length (listed atoms.now) }
        ensures { (a : noted.AtomAt) → slice_get (listed atoms.now) number ≡ Some a
            → result ≡ variable_in (resolved_atom (design_tree self.now.design.now) (atom_of a)) }
    {
        match atoms.get(number) {
            Some(atom) => self.variable_of(atom.scope, atom.expr),
            None => unreachable!(),
        }
    }

    /// Which state variables are atoms, by their numbers: each atom is looked at once. `AllocError` is want of memory.
    pub(crate) fn marks(&self, alloc: Global, atoms: &Atoms<'_>) -> Result<Vec<bool>, AllocError>
        requires truths { AllByRecursion (IsTruth (design_tree self.now.design.now)) (map atom_of (listed atoms.now)) }
        ensures { IfOk result (λ marks.
            AreMarked (design_tree self.now.design.now) (map atom_of (listed atoms.now)) marks.items) }
    {
        let mut marks = no_marks(alloc, self.design.vars.len())?;
        for number in 0..atoms.len() {
            mark(&mut marks, self.atom_variable(atoms, number));
        }
        Ok(marks)
    }
}

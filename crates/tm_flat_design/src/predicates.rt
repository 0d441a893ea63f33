//! The pool of predicates of a design.
ghost use Rattle.std.specs.Prelude.{IfOk};
ghost use Rattle.tm_syntax.specs.declared.member.Member as numbered;
ghost use Rattle.tm_syntax.specs.Tree.View.{spec_tree};
ghost use Rattle.tm_syntax.specs.Scopes.Calls.{Reaches};
ghost use Rattle.tm_syntax.specs.Design.View.{design_tree};
ghost use Rattle.tm_atoms.specs.Orders.{HasCallOrder};
ghost use Rattle.tm_flat_states.specs.Marks.{MakesSuch};
ghost use Rattle.tm_flat_design.specs.Making.{ArePredicates, AreOver, MayUpdate};

use crate::sound_designs_of_texts_are_markable;
use crate::updater::Updater;
use std::alloc::{AllocError, Global};
use tm_flat_bodies::Course;
use tm_flat_pool::{PoolTerms, Pooler};
use tm_scope::{Scopes, call_order};

// The tasks of a text have an order in which each stands behind all that it calls.
fn order_tasks(alloc: Global, scopes: &Scopes) -> Result<(), AllocError>
    requires { (m : numbered.Member) → ¬ Reaches (spec_tree scopes.now) m m }
    ensures { IfOk result (λ _. HasCallOrder (spec_tree scopes.now)) }
{
    match call_order(alloc, scopes)? {
        Some(_) => Ok(()),
        None => unreachable!(),
    }
}

impl<'s> Updater<'s> {
    /// The predicates of the pool as terms, and how many of them the abstraction begins with. `AllocError` is want of
    /// memory.
    pub(crate) fn predicates(&self, course: &mut Course) -> Result<PoolTerms, AllocError>
        requires design { MayUpdate self.now }
        requires terms { AreOver self.now.design.now course.old.terms }
        ensures { IfOk result (MakesSuch course.old.terms course.new.terms
            (ArePredicates (design_tree self.now.design.now))) }
    {
        order_tasks(course.alloc, self.scopes)?;
        let pooler = Pooler::new(self.design, self.scopes, self.cells);
        sound_designs_of_texts_are_markable();
        let made = pooler.pool(course.alloc, &mut course.terms)?;
        Ok(made)
    }
}

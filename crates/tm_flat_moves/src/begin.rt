//! Where runs begin.
ghost use Rattle.std.specs.Prelude.{◌+◌, ◌<◌, ◌≡◌, ◌≤◌, ◌^◌, IfOk, length};
ghost use Rattle.tm_flat.specs.Inputs.{input_widths};
ghost use Rattle.tm_flat.specs.Steps.{IsTerm};
ghost use Rattle.tm_syntax.specs.Design.View.{design_tree};
ghost use Rattle.tm_term.specs.Table.{IsSound};
ghost use Rattle.tm_flat_moves.specs.Begun.{AreInputTerms, Begins};
ghost use Rattle.tm_flat_exprs.specs.Tables.{cells_of};

use crate::mover::Mover;
use std::alloc::{AllocError, Global};
use tm_flat_bodies::Course;
use tm_flat_exprs::TermMemory;
use tm_flat_stmts::Flow;
use tm_term::{Term, TermId, Terms};

/// The inputs of so many numbers, as terms. `AllocError` is want of memory.
pub fn input_terms(
    alloc: Global,
    terms: &mut Terms,
    first: u32,
    count: u32,
) -> Result<Vec<TermId>, AllocError>
    requires sound { IsSound terms.old }
    requires within { first + count ≤ length terms.old.inputs }
    requires small { first + count < 2 ^ 32 }
    ensures { IfOk result (λ ids. AreInputTerms terms.old terms.new first count ids.items) }
{
    let mut ids = Vec::new(alloc);
    for index in 0..count {
        let id = terms.mk(Term::Input(first + index))?;
        ids.push(id)?;
    }
    Ok(ids)
}

impl<'s> Mover<'s> {
    /// The runs that begin where a truth holds: their memory is the inputs. `AllocError` is want of memory.
    pub fn begin(&self, course: &mut Course, guard: TermId) -> Result<Flow, AllocError>
        requires sound { IsSound course.old.terms }
        requires guard { IsTerm course.old.terms 1 guard }
        requires inputs { course.old.terms.inputs ≡ input_widths (design_tree self.now.design.now) }
        requires small { length self.now.design.now.vars.items < 2 ^ 32 }
        ensures begins { IfOk result
            (Begins (cells_of self.now.design.now) course.old.terms course.new.terms guard) }
        ensures ends { course.new.ends ≡ course.old.ends }
    {
        let vars = self.design.vars.len() as u32;
        let values = input_terms(course.alloc, &mut course.terms, 0, vars)?;
        let memory = TermMemory::new(course.alloc, values);
        Ok(Flow::new(guard, memory, 0))
    }
}

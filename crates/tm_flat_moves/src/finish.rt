//! Steps of runs that have ended.
ghost use Rattle.std.specs.Prelude.{◌+◌, ◌<◌, ◌≡◌, ◌≤◌, ◌^◌, IfOk, IfSome, length};
ghost use Rattle.tm_base.specs.Arithmetic.{IsWidth};
ghost use Rattle.tm_flat.specs.Inputs.{first_choice, input_widths};
ghost use Rattle.tm_flat.specs.Steps.{IsTerm};
ghost use Rattle.tm_flat_exprs.specs.Made.{IsTruth, Makes, value_at};
ghost use Rattle.tm_flat_stmts.specs.Flows.{IsFlow};
ghost use Rattle.tm_syntax.specs.Design.View.{design_tree};
ghost use Rattle.tm_term.specs.Table.{IsSound};
ghost use Rattle.tm_flat_moves.specs.Ended.{IsEnding, IsMoverOf, MakesArrived, MakesNowhere, MakesSomewhere, MakesVerdict};
ghost use Rattle.tm_flat_moves.specs.Made.{MakesStep};
ghost use Rattle.tm_flat_moves.specs.Next.{Finishes};
ghost use Rattle.tm_flat_exprs.specs.Tables.{cells_of};

use crate::arrivals::{Arrived, arrivals};
use crate::begin::input_terms;
use crate::mover::Mover;
use std::alloc::AllocError;
use tm_flat::FlatStep;
use tm_flat_bodies::Course;
use tm_flat_exprs::{either, make};
use tm_term::{Term, TermId, Terms};

// A truth that may be wanting, which then never holds.
fn truth(terms: &mut Terms, id: Option<TermId>) -> Result<TermId, AllocError>
    requires sound { IsSound terms.old }
    requires truth { IsTruth terms.old id }
    ensures { IfOk result (λ made. Makes terms.old terms.new 1 made (λ u v. value_at u v id)) }
{
    match id {
        Some(id) => Ok(id),
        None => {
            let never = make(terms, Term::Const(1, 0))?;
            Ok(never)
        }
    }
}

// The truths of a step that arrives somewhere: that it has an outcome, and that this is an error.
#[derive(Drop)]
struct Verdict {
    pub legal: TermId,
    pub error: TermId,
}

// The truths of a step whose runs arrive where a truth holds and fail where another one does.
fn truths_of(
    terms: &mut Terms,
    arrives: TermId,
    failed: Option<TermId>,
) -> Result<Verdict, AllocError>
    requires sound { IsSound terms.old }
    requires arrives { IsTerm terms.old 1 arrives }
    requires failed { IsTruth terms.old failed }
    ensures { IfOk result (MakesVerdict terms.old terms.new arrives failed) }
{
    let either_one = either(terms, Some(arrives), failed)?;
    let legal = truth(terms, either_one)?;
    let error = truth(terms, failed)?;
    Ok(Verdict { legal, error })
}

impl<'s> Mover<'s> {
    /// The step of runs that arrive nowhere, and fail where a truth holds: all numbers are left alone. Linear in the
    /// numbers of a state. `AllocError` is want of memory.
    pub(crate) fn nowhere(
        &self,
        course: &mut Course,
        failed: Option<TermId>,
    ) -> Result<FlatStep, AllocError>
        requires sound { IsSound course.old.terms }
        requires failed { IsTruth course.old.terms failed }
        requires inputs { course.old.terms.inputs ≡ input_widths (design_tree self.now.design.now) }
        requires few { first_choice (design_tree self.now.design.now) < 2 ^ 32 }
        ensures { IfOk result (MakesNowhere course.old.terms course.new.terms
            (first_choice (design_tree self.now.design.now)) failed) }
    {
        let error = truth(&mut course.terms, failed)?;
        let count = self.vars() + (self.processes() + 1);
        let next = input_terms(course.alloc, &mut course.terms, 0, count)?;
        Ok(FlatStep {
            legal: error,
            error,
            next,
        })
    }

    // The step of runs that have arrived.
    fn somewhere(
        &self,
        course: &mut Course,
        arrived: &Arrived,
        mover: Option<u32>,
        last: u32,
    ) -> Result<FlatStep, AllocError>
        requires ending { IsEnding (cells_of self.now.design.now) course.old.terms
            (design_tree self.now.design.now) course.old.ends }
        requires flow { IsFlow (cells_of self.now.design.now) course.old.terms arrived.now.flow }
        requires last { last < 2 + length self.now.design.now.processes.items }
        ensures { IfOk result (MakesSomewhere course.old.terms course.new.terms (design_tree self.now.design.now)
            course.old.ends.failed mover last arrived.now) }
    {
        let failed = course.ends.failed();
        let told = truths_of(&mut course.terms, arrived.flow.guard(), failed)?;
        let next = self.next(course, arrived, mover, last)?;
        Ok(FlatStep {
            legal: told.legal,
            error: told.error,
            next,
        })
    }

    // The step of runs of which some have arrived, or none.
    fn arrived(
        &self,
        course: &mut Course,
        found: &Option<Arrived>,
        mover: Option<u32>,
        last: u32,
    ) -> Result<FlatStep, AllocError>
        requires ending { IsEnding (cells_of self.now.design.now) course.old.terms
            (design_tree self.now.design.now) course.old.ends }
        requires flow { IfSome found.now (λ a. IsFlow (cells_of self.now.design.now) course.old.terms a.flow) }
        requires last { last < 2 + length self.now.design.now.processes.items }
        ensures { IfOk result (MakesArrived course.old.terms course.new.terms (design_tree self.now.design.now)
            course.old.ends.failed mover last found.now) }
    {
        match found {
            None => {
                let failed = course.ends.failed();
                let still = self.nowhere(course, failed)?;
                Ok(still)
            }
            Some(arrived) => {
                let step = self.somewhere(course, arrived, mover, last)?;
                Ok(step)
            }
        }
    }

    /// The step of runs that have stopped or failed. The numbers of locations are terms of a width, and `last` tells
    /// who has moved. Linear in the locations and in the cells of the flows that stopped there. `AllocError` is want of
    /// memory.
    pub fn finish(
        &self,
        course: &mut Course,
        mover: Option<u32>,
        last: u32,
        width: u8,
    ) -> Result<FlatStep, AllocError>
        requires ending { IsEnding (cells_of self.now.design.now) course.old.terms
            (design_tree self.now.design.now) course.old.ends }
        requires last { last < 2 + length self.now.design.now.processes.items }
        requires width { IsWidth width }
        requires within { length course.old.ends.stops ≤ 2 ^ width }
        requires mover { IsMoverOf (design_tree self.now.design.now) width mover }
        ensures { IfOk result (MakesStep course.old.terms course.new.terms
            (Finishes (cells_of self.now.design.now) course.old.terms course.new.terms
            (design_tree self.now.design.now) course.old.ends mover last)) }
    {
        let found = arrivals(course.alloc, &mut course.terms, &course.ends, width)?;
        let step = self.arrived(course, &found, mover, last)?;
        Ok(step)
    }
}

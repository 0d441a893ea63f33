//! The numbers of the state behind a step, as terms.
ghost use Rattle.std.specs.Prelude.{◌+◌, ◌<◌, ◌≡◌, ◌^◌, IfOk, Some, length, slice_get, slice_set};
ghost use Rattle.tm_flat.specs.Inputs.{AreSmall, first_choice, input_widths};
ghost use Rattle.tm_syntax.specs.Design.View.{design_tree};
ghost use Rattle.tm_term.specs.Table.{IsSound};
ghost use Rattle.tm_flat_moves.specs.Next.{MakesNext, moved};

use crate::arrivals::Arrived;
use crate::begin::input_terms;
use crate::mover::Mover;
use std::alloc::{AllocError, Global};
use tm_flat_bodies::Course;
use tm_flat_exprs::{TermMemory, make};
use tm_term::{Term, TermId};

// A list with a term in the place of the one of a number, if there is one.
fn with_place(places: Vec<TermId>, number: usize, place: TermId) -> Vec<TermId>
    ensures { result.items ≡ slice_set places.items number place }
{
    let mut after = places;
    if number < after.len() {
        after[number] = place;
    }
    after
}

// Places, after a process has moved to one, if one has.
fn places_after(places: Vec<TermId>, mover: Option<u32>, place: TermId) -> Vec<TermId>
    ensures { result.items ≡ moved places.items mover place }
{
    match mover {
        None => places,
        Some(process) => with_place(places, process as usize, place),
    }
}

impl<'s> Mover<'s> {
    // How many state variables there are.
    pub(crate) fn vars(&self) -> u32
        requires { length self.now.design.now.vars.items < 2 ^ 32 }
        ensures { result ≡ length self.now.design.now.vars.items }
    {
        self.design.vars.len() as u32
    }

    // How many processes there are.
    pub(crate) fn processes(&self) -> u32
        requires { length self.now.design.now.processes.items < 2 ^ 32 }
        ensures { result ≡ length self.now.design.now.processes.items }
    {
        self.design.processes.len() as u32
    }

    // The term of a state variable in a memory.
    fn variable(&self, memory: &TermMemory, number: usize) -> TermId
        requires { number < length memory.now.values }
        ensures { slice_get memory.now.values number ≡ Some result }
    {
        match memory.variable(number) {
            Some(id) => id,
            None => unreachable!(),
        }
    }

    // The terms of the state variables in a memory.
    fn variables(&self, alloc: Global, memory: &TermMemory) -> Result<Vec<TermId>, AllocError>
        requires { length self.now.design.now.vars.items ≡ length memory.now.values }
        ensures { IfOk result (λ ids. ids.items ≡ memory.now.values) }
    {
        let mut ids = Vec::new(alloc);
        for number in 0..self.design.vars.len() {
            let id = self.variable(memory, number);
            ids.push(id)?;
        }
        Ok(ids)
    }

    /// The numbers of the state in which runs have arrived: the mover stands at their place, if there is a mover, and
    /// `last` tells who has moved. `AllocError` is want of memory.
    pub(crate) fn next(
        &self,
        course: &mut Course,
        arrived: &Arrived,
        mover: Option<u32>,
        last: u32,
    ) -> Result<Vec<TermId>, AllocError>
        requires sound { IsSound course.old.terms }
        requires inputs { course.old.terms.inputs ≡ input_widths (design_tree self.now.design.now) }
        requires few { first_choice (design_tree self.now.design.now) < 2 ^ 32 }
        requires small { AreSmall (design_tree self.now.design.now) }
        requires count { length self.now.design.now.vars.items ≡ length arrived.now.flow.memory.values }
        requires last { last < 2 + length self.now.design.now.processes.items }
        ensures next { IfOk result (λ next. MakesNext course.old.terms course.new.terms
            (design_tree self.now.design.now) arrived.now.flow.memory.values mover arrived.now.place last next.items) }
        ensures ends { course.new.ends ≡ course.old.ends }
    {
        let vars = self.vars();
        let processes = self.processes();
        let places = input_terms(course.alloc, &mut course.terms, vars, processes)?;
        let width = course.terms.inputs()[(vars + processes) as usize];
        let number = make(&mut course.terms, Term::Const(width, u64::from(last)))?;
        let mut next = self.variables(course.alloc, arrived.flow.memory())?;
        let after = places_after(places, mover, arrived.place);
        next.extend_from_slice(after.as_slice())?;
        next.push(number)?;
        Ok(next)
    }
}

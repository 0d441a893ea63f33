//! The steps of calls of the driver.
ghost use Rattle.std.specs.Prelude.{◌<◌, ◌≡◌, ◌^◌, ℕ, IfOk, None, OnOk, Some};
ghost use Rattle.tm_syntax.specs.Design.View.{design_tree};
ghost use Rattle.tm_term.specs.Table.{IsSound};
ghost use Rattle.tm_flat.specs.Inputs.{first_choice, input_widths};
ghost use Rattle.tm_locations.specs.Locations.{AreLocations, table_of};
ghost use Rattle.tm_flat.specs.Steps.{IsTaskStep};
ghost use Rattle.tm_flat_bodies.specs.Tables.{known_by};
ghost use Rattle.tm_flat_moves.specs.Ended.{MakesNowhere};
ghost use Rattle.tm_flat_moves.specs.Made.{MakesStep};
ghost use Rattle.tm_flat_moves.specs.Movable.{IsStandAt, tables_by};
ghost use Rattle.tm_flat_moves.specs.Run.{HasRun};
ghost use Rattle.tm_flat_exprs.specs.Tables.{cells_of};
ghost use Rattle.tm_flat_moves.specs.Callable.{AreCallable};
ghost use Rattle.tm_flat_moves.specs.Calls.{call_ending, call_writes, callee_at};
ghost use Rattle.tm_flat_moves.specs.Controllable.{IsControllable};
ghost use Rattle.tm_flat_moves.specs.Inner.Entering.{EntersCall, IsCallableAt};
ghost use Rattle.tm_flat_moves.specs.Turn.{TellsTurn};

use crate::callees::Controllable;
use crate::tasks::Tasks;
use crate::{Mover, input_terms, stop_behind};
use std::alloc::AllocError;
use tm_flat::FlatStep;
use tm_flat_bodies::{Course, Stand, Walker};
use tm_flat_exprs::make;
use tm_flat_stmts::{Ends, Flow};
use tm_locations::Locations;
use tm_term::{Term, TermId};

impl<'s> Tasks<'s> {
    // The step of a call that is never permitted.
    fn never(&self, course: &mut Course) -> Result<FlatStep, AllocError>
        requires sound { IsSound course.old.terms }
        requires inputs { course.old.terms.inputs ≡ input_widths (design_tree self.now.design.now) }
        requires few { first_choice (design_tree self.now.design.now) < 2 ^ 32 }
        ensures { IfOk result (MakesNowhere course.old.terms course.new.terms
            (first_choice (design_tree self.now.design.now)) None) }
    {
        let error = make(&mut course.terms, Term::Const(1, 0))?;
        let count = self.first();
        let next = input_terms(course.alloc, &mut course.terms, 0, count)?;
        Ok(FlatStep {
            legal: error,
            error,
            next,
        })
    }

    // The runs that begin the body of a task: those at which a truth holds, and its arguments are in range.
    fn enter(
        &self,
        mover: &Mover<'s>,
        locations: &Locations<'s>,
        stand: &Stand<'s>,
        course: &mut Course,
        called: &Controllable<'s>,
        turn: TermId,
    ) -> Result<Flow, AllocError>
        requires design { mover.now.design.now ≡ self.now.design.now }
        requires locations { mover.now.locations.now ≡ locations.now }
        requires stand { IsStandAt mover.now called.now.at 0 stand.now }
        requires callable { IsCallableAt (tables_by mover.now) (design_tree mover.now.design.now) mover.now.process
            called.now.at called.now.task.now course.old.terms }
        requires turn { TellsTurn course.old.terms (design_tree mover.now.design.now) (Some turn) }
        ensures { IfOk result (EntersCall (tables_by mover.now) (design_tree mover.now.design.now)
            (callee_at (design_tree mover.now.design.now) called.now.at called.now.task.now) course.old.terms
            course.new) }
    {
        let count = locations.rows().len();
        course.ends = Ends::new(course.alloc, count + 2)?;
        let begun = mover.begin(course, turn)?;
        let given = self.read_arguments(course, stand.reader.scope(), called, begun)?;
        Ok(given)
    }

    // The runs of a call, in a body of an instance.
    fn run_in(
        &self,
        mover: &Mover<'s>,
        locations: &Locations<'s>,
        walker: &Walker<'s>,
        stand: &Stand<'s>,
        course: &mut Course,
        called: &Controllable<'s>,
        turn: TermId,
    ) -> Result<(), AllocError>
        requires design { mover.now.design.now ≡ self.now.design.now }
        requires locations { mover.now.locations.now ≡ locations.now }
        requires walker { known_by walker.now ≡ tables_by mover.now }
        requires stand { IsStandAt mover.now called.now.at 0 stand.now }
        requires callable { IsCallableAt (tables_by mover.now) (design_tree mover.now.design.now) mover.now.process
            called.now.at called.now.task.now course.old.terms }
        requires turn { TellsTurn course.old.terms (design_tree mover.now.design.now) (Some turn) }
        ensures { OnOk result (HasRun (tables_by mover.now) (design_tree mover.now.design.now) mover.now.process
            (call_ending (design_tree mover.now.design.now)
            (callee_at (design_tree mover.now.design.now) called.now.at called.now.task.now))
            (call_writes (design_tree mover.now.design.now)
            (callee_at (design_tree mover.now.design.now) called.now.at called.now.task.now)) course.old.terms
            course.new) }
    {
        let given = self.enter(mover, locations, stand, course, called, turn)?;
        let left = walker.walk_body(stand, course, &called.task.body, given)?;
        let count = locations.rows().len();
        stop_behind(course, count + 1, left)?;
        Ok(())
    }

    // The runs of a call.
    fn run_call(
        &self,
        mover: &Mover<'s>,
        locations: &Locations<'s>,
        course: &mut Course,
        called: &Controllable<'s>,
        turn: TermId,
    ) -> Result<(), AllocError>
        requires design { mover.now.design.now ≡ self.now.design.now }
        requires locations { mover.now.locations.now ≡ locations.now }
        requires callable { IsCallableAt (tables_by mover.now) (design_tree mover.now.design.now) mover.now.process
            called.now.at called.now.task.now course.old.terms }
        requires turn { TellsTurn course.old.terms (design_tree mover.now.design.now) (Some turn) }
        ensures { OnOk result (HasRun (tables_by mover.now) (design_tree mover.now.design.now) mover.now.process
            (call_ending (design_tree mover.now.design.now)
            (callee_at (design_tree mover.now.design.now) called.now.at called.now.task.now))
            (call_writes (design_tree mover.now.design.now)
            (callee_at (design_tree mover.now.design.now) called.now.at called.now.task.now)) course.old.terms
            course.new) }
    {
        let walker = mover.walker(self.first());
        match mover.stand(called.at, 0) {
            None => unreachable!(),
            Some(stand) => {
                self.run_in(mover, locations, &walker, &stand, course, called, turn)?;
                Ok(())
            }
        }
    }

    // The step of a call, where a truth tells whether the driver can be picked. The locations are those of any process.
    fn call_step(
        &self,
        locations: &'s Locations<'s>,
        course: &mut Course,
        called: &Controllable<'s>,
        turn: TermId,
    ) -> Result<FlatStep, AllocError>
        requires callable { AreCallable self.now.design.now self.now.all.now }
        requires located { AreLocations (table_of locations.now) (design_tree self.now.design.now) 0 }
        requires inputs { course.old.terms.inputs ≡ input_widths (design_tree self.now.design.now) }
        requires sound { IsSound course.old.terms }
        requires called { (number : ℕ) × IsControllable (cells_of self.now.design.now)
            (design_tree self.now.design.now) number called.now.at called.now.task.now }
        requires turn { TellsTurn course.old.terms (design_tree self.now.design.now) (Some turn) }
        ensures { (number : ℕ) → IsControllable (cells_of self.now.design.now) (design_tree self.now.design.now)
            number called.now.at called.now.task.now → IfOk result (MakesStep course.old.terms course.new.terms
            (IsTaskStep course.new.terms (design_tree self.now.design.now) number)) }
    {
        let mover = Mover::new(
            self.design,
            self.scopes,
            self.cells,
            locations,
            0,
            self.depth,
        );
        self.run_call(&mover, locations, course, called, turn)?;
        let step = mover.finish(course, None, 1, 64)?;
        Ok(step)
    }

    // The step of a call, where a truth that is there tells whether the driver can be picked.
    fn step_in_turn(
        &self,
        course: &mut Course,
        called: &Controllable<'s>,
        turn: TermId,
    ) -> Result<FlatStep, AllocError>
        requires callable { AreCallable self.now.design.now self.now.all.now }
        requires inputs { course.old.terms.inputs ≡ input_widths (design_tree self.now.design.now) }
        requires sound { IsSound course.old.terms }
        requires called { (number : ℕ) × IsControllable (cells_of self.now.design.now)
            (design_tree self.now.design.now) number called.now.at called.now.task.now }
        requires turn { TellsTurn course.old.terms (design_tree self.now.design.now) (Some turn) }
        ensures { (number : ℕ) → IsControllable (cells_of self.now.design.now) (design_tree self.now.design.now)
            number called.now.at called.now.task.now → IfOk result (MakesStep course.old.terms course.new.terms
            (IsTaskStep course.new.terms (design_tree self.now.design.now) number)) }
    {
        match self.all.first() {
            None => self.never(course),
            Some(locations) => self.call_step(locations, course, called, turn),
        }
    }

    // The step of a call, where a truth tells whether the driver can be picked. One that is wanting never holds.
    fn step_of(
        &self,
        course: &mut Course,
        called: &Controllable<'s>,
        turn: Option<TermId>,
    ) -> Result<FlatStep, AllocError>
        requires callable { AreCallable self.now.design.now self.now.all.now }
        requires inputs { course.old.terms.inputs ≡ input_widths (design_tree self.now.design.now) }
        requires sound { IsSound course.old.terms }
        requires called { (number : ℕ) × IsControllable (cells_of self.now.design.now)
            (design_tree self.now.design.now) number called.now.at called.now.task.now }
        requires turn { TellsTurn course.old.terms (design_tree self.now.design.now) turn }
        ensures { (number : ℕ) → IsControllable (cells_of self.now.design.now) (design_tree self.now.design.now)
            number called.now.at called.now.task.now → IfOk result (MakesStep course.old.terms course.new.terms
            (IsTaskStep course.new.terms (design_tree self.now.design.now) number)) }
    {
        match turn {
            None => self.never(course),
            Some(id) => self.step_in_turn(course, called, id),
        }
    }

    /// The step of the controllable task of a number, at all states and for all arguments. `turn` tells whether the
    /// driver can be picked (`driver_turn`). Linear in the body of the task, with the bodies that it calls, in the bits
    /// of its arguments, and in the cells at each join. `AllocError` is want of memory.
    pub fn task_step(
        &self,
        course: &mut Course,
        turn: Option<TermId>,
        number: u32,
    ) -> Result<FlatStep, AllocError>
        requires callable { AreCallable self.now.design.now self.now.all.now }
        requires inputs { course.old.terms.inputs ≡ input_widths (design_tree self.now.design.now) }
        requires sound { IsSound course.old.terms }
        requires turn { TellsTurn course.old.terms (design_tree self.now.design.now) turn }
        ensures { IfOk result (MakesStep course.old.terms course.new.terms
            (IsTaskStep course.new.terms (design_tree self.now.design.now) number)) }
    {
        match self.controllable(number) {
            None => self.never(course),
            Some(called) => self.step_of(course, &called, turn),
        }
    }
}

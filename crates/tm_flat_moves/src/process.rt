//! The steps of a process.
ghost use Rattle.std.specs.Prelude.{◌+◌, ◌<◌, ◌≡◌, ◌≤◌, ◌^◌, IfOk, IfSome, OnOk, length};
ghost use Rattle.tm_scope.specs.Cells.{CellTables};
ghost use Rattle.tm_syntax.specs.Design.Locations.{end_number, rest};
ghost use Rattle.tm_syntax.specs.Design.Sizes.{bits_of_number};
ghost use Rattle.tm_syntax.specs.Design.View.{design_tree};
ghost use Rattle.tm_term.specs.Table.{IsSound};
ghost use Rattle.tm_flat.specs.Inputs.{first_choice, input_widths};
ghost use Rattle.tm_flat.specs.Steps.{IsProcessStep};
ghost use Rattle.tm_flat.specs.Writes.{items_write};
ghost use Rattle.tm_flat_stmts.specs.Flows.{AreEnds, IsFlow};
ghost use Rattle.tm_flat_moves.specs.Ended.{EndsBehind};
ghost use Rattle.tm_flat_moves.specs.Items.{MayBeWalked};
ghost use Rattle.tm_flat_moves.specs.Run.{HasRun, runs_from};
ghost use Rattle.tm_flat_moves.specs.Made.{MakesStep};
ghost use Rattle.tm_flat_moves.specs.Movable.{IsMovable, tables_by};

use crate::mover::Mover;
use crate::rests::mover_number;
use std::alloc::AllocError;
use tm_flat::FlatStep;
use tm_flat_bodies::Course;
use tm_flat_exprs::make;
use tm_flat_stmts::{Ends, Flow};
use tm_term::Term;

/// Runs that have come to the end of their work stop at the location of a number, if there are some. `AllocError` is
/// want of memory.
pub fn stop_behind(course: &mut Course, number: usize, left: Option<Flow>) -> Result<(), AllocError>
    requires sound { IsSound course.old.terms }
    requires within { number < length course.old.ends.stops }
    requires flows { (x : CellTables) × AreEnds x course.old.terms course.old.ends
        × IfSome left (IsFlow x course.old.terms) }
    ensures { OnOk result
        (EndsBehind course.old.terms course.new.terms number left course.old.ends course.new.ends) }
{
    match left {
        None => Ok(()),
        Some(flow) => {
            course
                .ends
                .stop(course.alloc, &mut course.terms, number, flow)?;
            Ok(())
        }
    }
}

impl<'s> Mover<'s> {
    // The width of the input that is the location of the process.
    fn place_width(&self, course: &Course) -> u8
        requires inputs { course.now.terms.inputs ≡ input_widths (design_tree self.now.design.now) }
        requires process { self.now.process < length self.now.design.now.processes.items }
        requires few { first_choice (design_tree self.now.design.now) < 2 ^ 32 }
        ensures { result ≡ bits_of_number (end_number (design_tree self.now.design.now) self.now.process) }
    {
        course.terms.inputs()[(self.vars() + self.process) as usize]
    }

    // What is left to be done at a location is done from the start of a step: the runs that have stopped.
    fn run_from(&self, course: &mut Course, place: u32) -> Result<(), AllocError>
        requires movable { IsMovable (tables_by self.now) (design_tree self.now.design.now) self.now.process
            course.old.terms }
        requires work { MayBeWalked (tables_by self.now)
            (rest (design_tree self.now.design.now) self.now.process place) }
        ensures { OnOk result (HasRun (tables_by self.now) (design_tree self.now.design.now) self.now.process
            (runs_from (design_tree self.now.design.now) self.now.process place)
            (λ i. items_write (design_tree self.now.design.now) i
            (rest (design_tree self.now.design.now) self.now.process place) 0) course.old.terms course.new) }
    {
        let rows = self.locations.rows();
        let count = rows.len();
        course.ends = Ends::new(course.alloc, count + 2)?;
        let always = make(&mut course.terms, Term::Const(1, 1))?;
        let flow = self.begin(course, always)?;
        let left = self.walk_from(course, place, flow)?;
        stop_behind(course, count + 1, left)?;
        Ok(())
    }

    /// The step of the process from the location of a number, at the states at which it stands there. Linear in what is
    /// left to be done, with the bodies that it calls, and in the cells at each join. `AllocError` is want of memory.
    pub fn process_step(&self, course: &mut Course, place: u32) -> Result<FlatStep, AllocError>
        requires movable { IsMovable (tables_by self.now) (design_tree self.now.design.now) self.now.process
            course.old.terms }
        requires process { self.now.process < length self.now.design.now.processes.items }
        requires place { place ≤ end_number (design_tree self.now.design.now) self.now.process }
        requires work { MayBeWalked (tables_by self.now)
            (rest (design_tree self.now.design.now) self.now.process place) }
        ensures { IfOk result (MakesStep course.old.terms course.new.terms
            (IsProcessStep course.new.terms (design_tree self.now.design.now) self.now.process place)) }
    {
        if place as usize > self.locations.rows().len() {
            return self.nowhere(course, None);
        }
        let last = mover_number(self.locations, place, self.process);
        self.run_from(course, place)?;
        let width = self.place_width(course);
        let step = self.finish(course, Some(self.process), last, width)?;
        Ok(step)
    }
}

//! The steps of the processes of a design.
ghost use Rattle.std.specs.Prelude.{◌≡◌, ◌+◌, ◌<◌, ◌≤◌, IfOk, length};
ghost use Rattle.tm_syntax.specs.Design.Locations.{end_number};
ghost use Rattle.tm_syntax.specs.Design.View.{design_tree};
ghost use Rattle.tm_flat_states.specs.Marks.{MakesSuch};
ghost use Rattle.tm_flat_design.specs.Making.{AreOver, AreProcesses, AreSteps, MayMove, MayUpdate};

use crate::updater::Updater;
use crate::what_is_left_may_be_walked;
use std::alloc::AllocError;
use tm_flat::FlatStep;
use tm_flat_bodies::Course;
use tm_flat_moves::Mover;

// The steps of a process from its first locations, of so many.
fn location_steps(
    mover: &Mover<'_>,
    course: &mut Course,
    count: usize,
) -> Result<Vec<FlatStep>, AllocError>
    requires moves { MayMove mover.now course.old.terms }
    requires within { count ≤ end_number (design_tree mover.now.design.now) mover.now.process + 1 }
    ensures { IfOk result (λ steps. MakesSuch course.old.terms course.new.terms
        (AreSteps (design_tree mover.now.design.now) mover.now.process count) steps.items) }
{
    let mut steps = Vec::new(course.alloc);
    for place in 0..count {
        let step = mover.process_step(course, place as u32)?;
        steps.push(step)?;
    }
    Ok(steps)
}

impl<'s> Updater<'s> {
    // The steps of the process of a number.
    fn steps_of(&self, course: &mut Course, number: usize) -> Result<Vec<FlatStep>, AllocError>
        requires design { MayUpdate self.now }
        requires terms { AreOver self.now.design.now course.old.terms }
        requires process { number < length self.now.design.now.processes.items }
        ensures { IfOk result (λ steps. MakesSuch course.old.terms course.new.terms
            (AreSteps (design_tree self.now.design.now) number
            (end_number (design_tree self.now.design.now) number + 1)) steps.items) }
    {
        let locations = &self.locations[number];
        let mover = Mover::new(
            self.design,
            self.scopes,
            self.cells,
            locations,
            number as u32,
            self.depth,
        );
        what_is_left_may_be_walked();
        let steps = location_steps(&mover, course, locations.rows().len() + 2)?;
        Ok(steps)
    }

    /// The steps of each process, from each of its locations, its start and its end included. `AllocError` is want of
    /// memory.
    pub(crate) fn processes(&self, course: &mut Course) -> Result<Vec<Vec<FlatStep>>, AllocError>
        requires design { MayUpdate self.now }
        requires terms { AreOver self.now.design.now course.old.terms }
        ensures { IfOk result (λ all. MakesSuch course.old.terms course.new.terms
            (AreProcesses (design_tree self.now.design.now) (length self.now.design.now.processes.items)) all.items) }
    {
        let mut all = Vec::new(course.alloc);
        for number in 0..self.design.processes.len() {
            let steps = self.steps_of(course, number)?;
            all.push(steps)?;
        }
        Ok(all)
    }
}

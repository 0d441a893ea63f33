//! The moves of a design.
ghost use Rattle.std.specs.Prelude.{IfOk};
ghost use Rattle.tm_syntax.specs.Design.View.{design_tree};
ghost use Rattle.tm_flat_states.specs.Marks.{MakesSuch};
ghost use Rattle.tm_flat_design.specs.Making.{AreMoves, AreOver, MayUpdate};

use crate::updater::Updater;
use std::alloc::AllocError;
use tm_flat::FlatStep;
use tm_flat_bodies::Course;

/// The steps of the processes of a design from each of their locations, and those of its controllable tasks.
#[derive(Drop)]
pub(crate) struct Moves {
    pub processes: Vec<Vec<FlatStep>>,
    pub tasks: Vec<FlatStep>,
}

impl<'s> Updater<'s> {
    /// The moves of the design. `AllocError` is want of memory.
    pub(crate) fn moves(&self, course: &mut Course) -> Result<Moves, AllocError>
        requires design { MayUpdate self.now }
        requires terms { AreOver self.now.design.now course.old.terms }
        ensures { IfOk result (MakesSuch course.old.terms course.new.terms
            (AreMoves (design_tree self.now.design.now))) }
    {
        let tasks = self.tasks(course)?;
        let processes = self.processes(course)?;
        Ok(Moves { processes, tasks })
    }
}

//! The steps of the controllable tasks of a design.
ghost use Rattle.std.specs.Prelude.{◌≡◌, ◌<◌, ◌^◌, IfOk, length};
ghost use Rattle.tm_syntax.specs.Design.View.{design_tree};
ghost use Rattle.tm_flat_moves.specs.Callable.{AreCallable};
ghost use Rattle.tm_flat_moves.specs.Turn.{TellsTurn};
ghost use Rattle.tm_flat_states.specs.Marks.{MakesSuch};
ghost use Rattle.tm_flat_design.specs.Making.{AreOver, AreTasks, MayUpdate};

use crate::sound_designs_of_texts_are_callable;
use crate::updater::Updater;
use std::alloc::AllocError;
use tm_flat::FlatStep;
use tm_flat_bodies::Course;
use tm_flat_moves::{Tasks, driver_turn};
use tm_term::TermId;

// The steps of the first tasks, of so many. A truth tells whether the driver can be picked.
fn task_steps(
    tasks: &Tasks<'_>,
    course: &mut Course,
    turn: Option<TermId>,
    count: u32,
) -> Result<Vec<FlatStep>, AllocError>
    requires callable { AreCallable tasks.now.design.now tasks.now.all.now }
    requires terms { AreOver tasks.now.design.now course.old.terms }
    requires turn { TellsTurn course.old.terms (design_tree tasks.now.design.now) turn }
    ensures { IfOk result (λ steps. MakesSuch course.old.terms course.new.terms
        (AreTasks (design_tree tasks.now.design.now) count) steps.items) }
{
    let mut steps = Vec::new(course.alloc);
    for number in 0..count {
        let step = tasks.task_step(course, turn, number)?;
        steps.push(step)?;
    }
    Ok(steps)
}

impl<'s> Updater<'s> {
    /// The steps of each controllable task, for all arguments. `AllocError` is want of memory.
    pub(crate) fn tasks(&self, course: &mut Course) -> Result<Vec<FlatStep>, AllocError>
        requires design { MayUpdate self.now }
        requires terms { AreOver self.now.design.now course.old.terms }
        ensures { IfOk result (λ steps. MakesSuch course.old.terms course.new.terms
            (AreTasks (design_tree self.now.design.now) (length self.now.design.now.tasks.items)) steps.items) }
    {
        let tasks = Tasks::new(
            self.design,
            self.scopes,
            self.cells,
            self.locations,
            self.depth,
        );
        sound_designs_of_texts_are_callable();
        let turn = driver_turn(&mut course.terms, self.design, self.locations)?;
        let steps = task_steps(&tasks, course, turn, self.design.tasks.len() as u32)?;
        Ok(steps)
    }
}

//! Runs of statements and bodies, step by step.
ghost use Rattle.std.specs.Prelude.{◌∷◌, [], List, map};
ghost use Rattle.std.specs.List.{AllByRecursion};
ghost use Rattle.tm_syntax.specs.Tree.View.{body_tree, local_tree, stmt_trees};
ghost use Rattle.tm_plain_bodies.specs.Frames.{BodyFits, RowFits, local_stmts};
ghost use Rattle.tm_plain_bodies.specs.Inner.Owed.{Comes, Fits, IsRow, Owed, answer, frame_of, owed, row, seen};
ghost use Rattle.tm_plain_bodies.specs.Inner.Steps.{Finishes, Steps};
ghost use Rattle.tm_plain_bodies.specs.Runs.{DoesBody, DoesRow};

use crate::course::Course;
use crate::frame::{CalledTask, Frame};
use crate::halt::Halt;
use crate::runner::Runner;
use crate::todo::{Answer, Level, Todo, push, push_body};
use std::slice::from_ref;
use tm_syntax::tree::{Body, LocalDef, Stmt};

impl<'s> Runner<'s> {
    /// Does the statements of a row.
    pub fn perform_row<'a>(
        &'a self,
        frame: &Frame<'a>,
        course: &mut Course,
        stmts: &[Stmt],
    ) -> Result<(), Halt>
        requires { RowFits self.now frame.now (stmt_trees stmts.now) }
        ensures does { DoesRow frame.now.reader (stmt_trees stmts.now) course.old course.new result }
    {
        self.run_row(course, Todo::Stmts(frame.level(), stmts))
    }

    /// Does the declarations of locals.
    pub fn perform_locals<'a>(
        &'a self,
        frame: &Frame<'a>,
        course: &mut Course,
        locals: &[LocalDef],
    ) -> Result<(), Halt>
        requires { RowFits self.now frame.now (local_stmts (map local_tree locals.now)) }
        ensures does { DoesRow frame.now.reader (local_stmts (map local_tree locals.now)) course.old course.new result }
    {
        self.run_row(course, Todo::Locals(frame.level(), locals))
    }

    /// Does a body: a local's declaration is an assignment that stands before the statements.
    pub fn perform_body<'a>(
        &'a self,
        frame: &Frame<'a>,
        course: &mut Course,
        body: &Body,
    ) -> Result<(), Halt>
        requires { BodyFits self.now frame.now (body_tree body.now) }
        ensures does { DoesBody frame.now.reader course.old.trail (body_tree body.now) course.old course.new result }
    {
        self.run_body(course, frame.level(), body)
    }

    // Does a row.
    fn run_row<'t>(&'t self, course: &mut Course, next: Todo<'t>) -> Result<(), Halt>
        requires row { IsRow (seen next) }
        requires fits { Fits self.now (seen next) }
        ensures { Finishes self.now (seen next.entry ∷ []) course.old course.new result }
    {
        let mut todo = Vec::new(course.alloc);
        push(&mut todo, next)?;
        self.run(course, &mut todo)
    }

    // Does the locals and the statements of a body.
    fn run_body<'t>(&'t self, course: &mut Course, level: Level, body: &'t Body) -> Result<(), Halt>
        requires { BodyFits self.now (frame_of self.now level) (body_tree body.now) }
        ensures { Finishes self.now (row level (local_stmts (body_tree body.now).locals)
            ∷ row level (body_tree body.now).stmts ∷ []) course.old course.new result }
    {
        let mut todo = Vec::new(course.alloc);
        push_body(&mut todo, level, body)?;
        self.run(course, &mut todo)
    }

    // Does all that is left to be done.
    fn run<'t>(&'t self, course: &mut Course, todo: &mut Vec<Todo<'t>>) -> Result<(), Halt>
        requires rows { AllByRecursion IsRow (owed todo.old.items) }
        requires fits { AllByRecursion (Fits self.now) (owed todo.old.items) }
        ensures { Finishes self.now (owed todo.old.items) course.old course.new result }
    {
        while let Some(next) = todo.pop() {
            self.step(course, todo, next)?;
        }
        Ok(())
    }

    // Does what is to be done next, as far as it is done at once, and leaves the rest of it to be done.
    fn step<'t>(
        &'t self,
        course: &mut Course,
        todo: &mut Vec<Todo<'t>>,
        next: Todo<'t>,
    ) -> Result<(), Halt>
        requires fits { Fits self.now (seen next) }
        requires goes { Comes self.now (seen next ∷ owed todo.old.items) → ⊥ }
        ensures { Steps self.now (seen next.entry ∷ owed todo.old.items) (owed todo.new.items) course.old course.new
            result }
    {
        match next {
            Todo::Stmts(level, stmts) => self.step_row(course, todo, level, stmts),
            Todo::Locals(level, locals) => self.step_locals(course, todo, level, locals),
            Todo::Again(level, stmt) => self.step_row(course, todo, level, from_ref(stmt)),
            Todo::Leave(path) => {
                course.trail.leave(path);
                Ok(())
            }
            Todo::Answer(answer) => self.step_answer(course, answer),
        }
    }

    // Does the first statement of a row, and leaves the others to be done.
    fn step_row<'t>(
        &'t self,
        course: &mut Course,
        todo: &mut Vec<Todo<'t>>,
        level: Level,
        stmts: &'t [Stmt],
    ) -> Result<(), Halt>
        requires { RowFits self.now (frame_of self.now level) (stmt_trees stmts.now) }
        ensures { Steps self.now (row level (stmt_trees stmts.now) ∷ owed todo.old.items) (owed todo.new.items)
            course.old course.new result }
    {
        let [first, others @ ..] = stmts else {
            return Ok(());
        };
        push(todo, Todo::Stmts(level, others))?;
        let frame = self.frame_here(level);
        self.perform(&frame, course, todo, first)
    }

    // Does the first declaration of some locals, and leaves the others to be done.
    fn step_locals<'t>(
        &'t self,
        course: &mut Course,
        todo: &mut Vec<Todo<'t>>,
        level: Level,
        locals: &'t [LocalDef],
    ) -> Result<(), Halt>
        requires { RowFits self.now (frame_of self.now level) (local_stmts (map local_tree locals.now)) }
        ensures { Steps self.now (row level (local_stmts (map local_tree locals.now)) ∷ owed todo.old.items)
            (owed todo.new.items) course.old course.new result }
    {
        let [first, others @ ..] = locals else {
            return Ok(());
        };
        push(todo, Todo::Locals(level, others))?;
        let frame = self.frame_here(level);
        self.assign(
            &frame,
            course,
            todo,
            from_ref(&first.name),
            &None,
            &first.value,
        )
    }

    // Gives a cell what a called procedure returns.
    fn step_answer<'t>(&'t self, course: &mut Course, next: Answer<'t>) -> Result<(), Halt>
        requires { Fits self.now (answer next.level next.outer next.task.now next.cell) }
        ensures { (ts : List Owed) → Steps self.now
            (answer next.entry.level next.entry.outer next.entry.task.now next.entry.cell ∷ ts) ts
            course.old course.new result }
    {
        let called = CalledTask {
            frame: self.frame_here(next.level),
            task: next.task,
        };
        let outer = self.frame_here(Level {
            at: next.outer,
            depth: next.level.depth,
        });
        called.answer(&outer.reader, course, next.cell)
    }
}

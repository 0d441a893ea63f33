//! Statements, each of which is done at once, or leads to others that are left to be done.
ghost use Rattle.std.specs.Prelude.{◌≡◌, ◌∷◌, IfErr, IfOk, map};
ghost use Rattle.std.specs.Option.{option_map};
ghost use Rattle.tm_base.specs.declared.place.Place.{Place as places};
ghost use Rattle.tm_syntax.specs.Tree as trees;
ghost use Rattle.tm_syntax.specs.Tree.{alternatives_of, row_of};
ghost use Rattle.tm_syntax.specs.Tree.View.{expr_tree, stmt_tree, stmt_trees, value_tree};
ghost use Rattle.tm_plain_bodies.specs.declared.halt.Halt.TheVariants as halts;
ghost use Rattle.tm_plain_bodies.specs.Frames.{StmtFits};
ghost use Rattle.tm_plain_bodies.specs.Inner.Owed.{again, level_of, one, owed, row};
ghost use Rattle.tm_plain_bodies.specs.Inner.Steps.{Steps};

use crate::assign::{assign_choice, assign_value};
use crate::conditions::{assert, assume, condition};
use crate::course::Course;
use crate::frame::Frame;
use crate::halt::Halt;
use crate::runner::Runner;
use crate::todo::{Todo, push};
use tm_syntax::tree::{Expr, Ident, Stmt, Value};

// Leaves the statements of a row to be done.
fn take_row<'t>(frame: &Frame<'t>, todo: &mut Vec<Todo<'t>>, stmts: &'t [Stmt]) -> Result<(), Halt>
    ensures left { IfOk result (λ _. owed todo.new.items
        ≡ row (level_of frame.now) (stmt_trees stmts.now) ∷ owed todo.old.items) }
    ensures memory { IfErr result (λ h. h ≡ halts.Memory) }
{
    push(todo, Todo::Stmts(frame.level(), stmts))?;
    Ok(())
}

// Leaves the body of a loop to be done, and the loop behind it.
fn take_loop<'t>(
    frame: &Frame<'t>,
    todo: &mut Vec<Todo<'t>>,
    stmt: &'t Stmt,
    body: &'t [Stmt],
) -> Result<(), Halt>
    ensures left { IfOk result (λ _. owed todo.new.items ≡ row (level_of frame.now) (stmt_trees body.now)
        ∷ again (level_of frame.now) (stmt_tree stmt.now) ∷ owed todo.old.items) }
    ensures memory { IfErr result (λ h. h ≡ halts.Memory) }
{
    push(todo, Todo::Again(frame.level(), stmt))?;
    push(todo, Todo::Stmts(frame.level(), body))?;
    Ok(())
}

impl<'s> Runner<'s> {
    /// Does a statement of a body of an instance as far as it is done at once, and leaves the statements to which it
    /// leads to be done. Or tells why the run goes no further.
    pub(crate) fn perform<'t>(
        &'t self,
        frame: &Frame<'t>,
        course: &mut Course,
        todo: &mut Vec<Todo<'t>>,
        stmt: &'t Stmt,
    ) -> Result<(), Halt>
        requires { StmtFits self.now frame.now (stmt_tree stmt.now) }
        ensures { Steps self.now (one (level_of frame.now) (stmt_tree stmt.now) ∷ owed todo.old.items)
            (owed todo.new.items) course.old course.new result }
    {
        match stmt {
            Stmt::Assign(path, index, value) => {
                self.assign(frame, course, todo, path.names.as_slice(), index, value)
            }
            Stmt::Call(path, args) => {
                self.call(frame, course, todo, path.names.as_slice(), args.as_slice())
            }
            Stmt::If(e, first, second) => {
                self.take_branch(frame, course, todo, e, first.as_slice(), second.as_slice())
            }
            Stmt::While(_, e, body) => {
                self.repeat(frame, course, todo, stmt, e, body.as_slice())
            }
            Stmt::Forever(_, body) => take_loop(frame, todo, stmt, body.as_slice()),
            Stmt::Choice(_, alternatives) => {
                self.choose(frame, course, todo, alternatives.as_slice())
            }
            Stmt::Assert(_, e) => assert(&frame.reader, course, e),
            Stmt::Assume(_, e) => assume(&frame.reader, course, e),
            Stmt::Pause(at) => Err(course.at_end(Halt::Stopped(*at))),
            Stmt::Wait(at, _) => Err(course.at_end(Halt::Stopped(*at))),
            Stmt::Magic(at) => Err(course.at_end(Halt::Stopped(*at))),
        }
    }

    // Takes a row of an `if`.
    fn take_branch<'t>(
        &'t self,
        frame: &Frame<'t>,
        course: &mut Course,
        todo: &mut Vec<Todo<'t>>,
        e: &Expr,
        first: &'t [Stmt],
        second: &'t [Stmt],
    ) -> Result<(), Halt>
        requires { StmtFits self.now frame.now
            (trees.branch (expr_tree e.now) (row_of (stmt_trees first.now)) (row_of (stmt_trees second.now))) }
        ensures { Steps self.now (one (level_of frame.now)
            (trees.branch (expr_tree e.now) (row_of (stmt_trees first.now)) (row_of (stmt_trees second.now)))
            ∷ owed todo.old.items) (owed todo.new.items) course.old course.new result }
    {
        let holds = condition(&frame.reader, course, e)?;
        if holds {
            take_row(frame, todo, first)
        } else {
            take_row(frame, todo, second)
        }
    }

    // Goes into a `while`, or past it.
    fn repeat<'t>(
        &'t self,
        frame: &Frame<'t>,
        course: &mut Course,
        todo: &mut Vec<Todo<'t>>,
        stmt: &'t Stmt,
        e: &Expr,
        body: &'t [Stmt],
    ) -> Result<(), Halt>
        requires is { (at : places) × (stmt_tree stmt.now
            ≡ trees.repeat at (expr_tree e.now) (row_of (stmt_trees body.now))) }
        requires fits { StmtFits self.now frame.now (stmt_tree stmt.now) }
        ensures { Steps self.now (one (level_of frame.now) (stmt_tree stmt.now) ∷ owed todo.old.items)
            (owed todo.new.items) course.old course.new result }
    {
        let holds = condition(&frame.reader, course, e)?;
        if holds {
            take_loop(frame, todo, stmt, body)
        } else {
            Ok(())
        }
    }

    // Takes the alternative that the next choice numbers.
    fn choose<'t>(
        &'t self,
        frame: &Frame<'t>,
        course: &mut Course,
        todo: &mut Vec<Todo<'t>>,
        blocks: &'t [Vec<Stmt>],
    ) -> Result<(), Halt>
        requires { (at : places) × StmtFits self.now frame.now
            (trees.choose at (alternatives_of (map (λ b. row_of (stmt_trees b.items)) blocks.now))) }
        ensures { (at : places) → Steps self.now (one (level_of frame.now)
            (trees.choose at (alternatives_of (map (λ b. row_of (stmt_trees b.items)) blocks.now)))
            ∷ owed todo.old.items) (owed todo.new.items) course.old course.new result }
    {
        let Some(choice) = course.choices.next() else {
            return Err(Halt::Blocked);
        };
        match blocks.get(choice as usize) {
            Some(block) => take_row(frame, todo, block.as_slice()),
            None => Err(Halt::Blocked),
        }
    }

    /// Does an assignment, or enters the procedure whose result is assigned.
    pub(crate) fn assign<'t>(
        &'t self,
        frame: &Frame<'t>,
        course: &mut Course,
        todo: &mut Vec<Todo<'t>>,
        path: &[Ident],
        index: &Option<Expr>,
        value: &'t Value,
    ) -> Result<(), Halt>
        requires { StmtFits self.now frame.now
            (trees.assign path.now (option_map expr_tree index.now) (value_tree value.now)) }
        ensures { Steps self.now (one (level_of frame.now)
            (trees.assign path.now (option_map expr_tree index.now) (value_tree value.now)) ∷ owed todo.old.items)
            (owed todo.new.items) course.old course.new result }
    {
        match value {
            Value::Star(_) => assign_choice(&frame.reader, course, path, index),
            Value::Plain(e) => assign_value(&frame.reader, course, path, index, e),
            Value::Call(called, args) => {
                self.assign_call(
                    frame,
                    course,
                    todo,
                    path,
                    index,
                    called.names.as_slice(),
                    args.as_slice(),
                )
            }
        }
    }
}

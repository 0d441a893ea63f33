//! Calls.
ghost use Rattle.std.specs.Prelude.{◌≡◌, ◌∷◌, ℕ, IfErr, IfOk};
ghost use Rattle.std.specs.Option.{option_map};
ghost use Rattle.tm_syntax.specs.Tree as trees;
ghost use Rattle.tm_syntax.specs.Tree.View.{body_tree, expr_tree, expr_trees};
ghost use Rattle.tm_plain_bodies.specs.declared.halt.Halt.TheVariants as halts;
ghost use Rattle.tm_plain_bodies.specs.Frames.{CallFits, IsCalled, StmtFits, local_stmts};
ghost use Rattle.tm_plain_bodies.specs.Inner.Owed.{answer, leave, level_of, one, owed, row};
ghost use Rattle.tm_plain_bodies.specs.Inner.Steps.{IsEntered, Steps};

use crate::assign::target;
use crate::course::Course;
use crate::frame::{CalledTask, Frame};
use crate::halt::Halt;
use crate::runner::Runner;
use crate::todo::{Answer, Todo, push, push_body};
use tm_scope::CellNumber;
use tm_syntax::tree::{Expr, Ident};

// Enters the body of a called task, which is left to be done, and behind it the end of the call.
fn enter<'t>(
    called: &CalledTask<'t>,
    course: &mut Course,
    todo: &mut Vec<Todo<'t>>,
    path: &'t [Ident],
) -> Result<(), Halt>
    ensures entered { IfOk result (λ _. IsEntered path.now course.old course.new) }
    ensures left { IfOk result (λ _. owed todo.new.items
        ≡ row (level_of called.now.frame) (local_stmts (body_tree called.now.task.now.body).locals)
        ∷ row (level_of called.now.frame) (body_tree called.now.task.now.body).stmts
        ∷ leave path.now ∷ owed todo.old.items) }
    ensures memory { IfErr result (λ h. h ≡ halts.Memory) }
{
    course.trail.enter(path)?;
    push(todo, Todo::Leave(path))?;
    push_body(todo, called.frame.level(), &called.task.body)?;
    Ok(())
}

// Enters the body of a called procedure, of which a cell of the calling body gets what it returns.
fn enter_for<'t>(
    frame: &Frame<'t>,
    called: &CalledTask<'t>,
    course: &mut Course,
    todo: &mut Vec<Todo<'t>>,
    path: &'t [Ident],
    cell: Option<CellNumber>,
) -> Result<(), Halt>
    ensures entered { IfOk result (λ _. IsEntered path.now course.old course.new) }
    ensures left { IfOk result (λ _. owed todo.new.items
        ≡ row (level_of called.now.frame) (local_stmts (body_tree called.now.task.now.body).locals)
        ∷ row (level_of called.now.frame) (body_tree called.now.task.now.body).stmts
        ∷ leave path.now
        ∷ answer (level_of called.now.frame) frame.now.reader.at called.now.task.now cell ∷ owed todo.old.items) }
    ensures memory { IfErr result (λ h. h ≡ halts.Memory) }
{
    let answer = Answer {
        level: called.frame.level(),
        task: called.task,
        outer: frame.reader.at(),
        cell,
    };
    push(todo, Todo::Answer(answer))?;
    enter(called, course, todo, path)
}

impl<'s> Runner<'s> {
    // The task that a path calls, with the body of an instance that it is.
    fn called<'a>(&'a self, frame: &Frame<'a>, path: &[Ident]) -> CalledTask<'a>
        requires { (count : ℕ) × CallFits self.now frame.now path.now count }
        ensures { IsCalled self.now frame.now path.now result }
    {
        prove!(self.order.len() <= usize::MAX);
        let Some(callee) = self.callee(frame.reader.at(), path) else {
            unreachable!()
        };
        let Some(reader) = self.reader(callee.at) else {
            unreachable!()
        };
        CalledTask {
            frame: Frame {
                reader,
                depth: frame.depth - 1,
            },
            task: callee.task,
        }
    }

    /// Enters the task or procedure that a path calls.
    pub(crate) fn call<'t>(
        &'t self,
        frame: &Frame<'t>,
        course: &mut Course,
        todo: &mut Vec<Todo<'t>>,
        path: &'t [Ident],
        args: &[Expr],
    ) -> Result<(), Halt>
        requires { StmtFits self.now frame.now (trees.invoke path.now (expr_trees args.now)) }
        ensures { Steps self.now (one (level_of frame.now) (trees.invoke path.now (expr_trees args.now))
            ∷ owed todo.old.items) (owed todo.new.items) course.old course.new result }
    {
        let called = self.called(frame, path);
        called.arguments(&frame.reader, course, args)?;
        enter(&called, course, todo, path)
    }

    /// Enters the procedure that a path calls, whose result a target gets.
    pub(crate) fn assign_call<'t>(
        &'t self,
        frame: &Frame<'t>,
        course: &mut Course,
        todo: &mut Vec<Todo<'t>>,
        path: &[Ident],
        index: &Option<Expr>,
        name: &'t [Ident],
        args: &[Expr],
    ) -> Result<(), Halt>
        requires { StmtFits self.now frame.now
            (trees.assign path.now (option_map expr_tree index.now) (trees.result name.now (expr_trees args.now))) }
        ensures { Steps self.now (one (level_of frame.now)
            (trees.assign path.now (option_map expr_tree index.now) (trees.result name.now (expr_trees args.now)))
            ∷ owed todo.old.items) (owed todo.new.items) course.old course.new result }
    {
        let cell = target(&frame.reader, course, path, index)?;
        let called = self.called(frame, name);
        called.arguments(&frame.reader, course, args)?;
        enter_for(frame, &called, course, todo, name, cell)
    }
}

//! Calls.
ghost use Rattle.std.specs.Prelude.{◌≡◌, IfOk, unwrap_or};
ghost use Rattle.std.specs.Option.{option_map};
ghost use Rattle.tm_syntax.specs.Tree as trees;
ghost use Rattle.tm_syntax.specs.Tree.View.{expr_tree, expr_trees};
ghost use Rattle.tm_flat_bodies.specs.declared.stand.Stand as stands;
ghost use Rattle.tm_flat_bodies.specs.declared.waiting.Home as homes;
ghost use Rattle.tm_flat_bodies.specs.declared.waiting.Spot as spots;
ghost use Rattle.tm_flat_bodies.specs.declared.waiting.Todo.TheVariants as todo;
ghost use Rattle.tm_flat_bodies.specs.Inner.Passing.{CallWalks, IsCalled};
ghost use Rattle.tm_flat_bodies.specs.Inner.Places.{IsAt, stack, stand_at, stand_of};
ghost use Rattle.tm_flat_bodies.specs.Inner.Waiting.{Asks, Does, LeadsAnswer, MayAnswer, StepsTo, StmtGoal};
ghost use Rattle.tm_flat_bodies.specs.Inner.Weights.{stmt_most};
ghost use Rattle.tm_flat_bodies.specs.Tables.{known_by};
ghost use Rattle.tm_flat_bodies.specs.Walks.{StmtWalks};

use crate::aims::aimed;
use crate::called::CalledTask;
use crate::course::Course;
use crate::passing::answer;
use crate::stand::{Stand, stand_or};
use crate::trails::trail_behind;
use crate::waiting::{Home, Row, Spot, Todo, Waiting};
use crate::walker::Walker;
use std::alloc::AllocError;
use tm_flat_exprs::TermReader;
use tm_flat_stmts::{Flow, TargetPlace};
use tm_syntax::tree::{Expr, Ident, TaskDef};

impl<'s> Walker<'s> {
    // The task that a path calls, with the body of an instance that it is.
    fn called(&self, stand: &Stand<'s>, path: &[Ident]) -> CalledTask<'s>
        requires { CallWalks (known_by self.now) stand.now path.now }
        ensures { IsCalled (known_by self.now) stand.now path.now result }
    {
        let Some(callee) = self.callee(stand.reader.at(), path) else {
            unreachable!()
        };
        let Some(scope) = self.cells.scope(callee.at) else {
            unreachable!()
        };
        let reader = TermReader::new(scope, self.scopes, callee.at);
        CalledTask {
            stand: Stand {
                reader,
                depth: stand.depth - 1,
                trail: trail_behind(self.locations, stand.trail, path),
            },
            task: callee.task,
        }
    }

    // Begins a call: the body is entered with its arguments.
    pub(crate) fn call(
        &self,
        stand: &Stand<'s>,
        course: &mut Course,
        waiting: &mut Waiting<'s>,
        path: &[Ident],
        args: &[Expr],
        flow: Flow,
    ) -> Result<Option<Flow>, AllocError>
        requires { StmtWalks (known_by self.now) stand.now (trees.invoke path.now (expr_trees args.now)) course.old
            flow }
        ensures { (start : stands.Stand) → IfOk result (StepsTo (known_by self.now) start
            (StmtGoal (known_by self.now) stand.now (trees.invoke path.now (expr_trees args.now)) course.old flow)
            (λ d. stmt_most d stand.now (trees.invoke path.now (expr_trees args.now))) (stack waiting.old)
            (stack waiting.new) course.new) }
    {
        let called = self.called(stand, path);
        let entered = called.enter(&stand.reader, course, args, flow)?;
        let home = called.home();
        waiting.leave(Todo::Row(Spot::Called(home), Row::Body(&called.task.body)))?;
        Ok(Some(entered))
    }

    // Begins an assignment of what a call returns: where its target is, is found before the call.
    pub(crate) fn assign_call(
        &self,
        stand: &Stand<'s>,
        course: &mut Course,
        waiting: &mut Waiting<'s>,
        spot: Spot,
        path: &'s [Ident],
        index: &Option<Expr>,
        name: &[Ident],
        args: &[Expr],
        flow: Flow,
    ) -> Result<Option<Flow>, AllocError>
        requires { StmtWalks (known_by self.now) stand.now
            (trees.assign path.now (option_map expr_tree index.now) (trees.result name.now (expr_trees args.now)))
            course.old flow }
        ensures { (start : stands.Stand) → IsAt (known_by self.now) start spot stand.now → IfOk result
            (StepsTo (known_by self.now) start (StmtGoal (known_by self.now) stand.now
            (trees.assign path.now (option_map expr_tree index.now) (trees.result name.now (expr_trees args.now)))
            course.old flow) (λ d. stmt_most d stand.now
            (trees.assign path.now (option_map expr_tree index.now) (trees.result name.now (expr_trees args.now))))
            (stack waiting.old) (stack waiting.new) course.new) }
    {
        let called = self.called(stand, name);
        let aim = aimed(&stand.reader, course, path, index, flow)?;
        let home = called.home();
        waiting.leave(Todo::Answer(spot, home, called.task, path, aim.place))?;
        let entered = called.enter(&stand.reader, course, args, aim.flow)?;
        waiting.leave(Todo::Row(Spot::Called(home), Row::Body(&called.task.body)))?;
        Ok(Some(entered))
    }

    // Puts what a called task returns where a target is, if a run stands behind its body.
    pub(crate) fn begin_answer(
        &self,
        start: &Stand<'s>,
        course: &mut Course,
        spot: Spot,
        home: Home,
        task: &'s TaskDef,
        path: &'s [Ident],
        place: TargetPlace,
        here: Option<Flow>,
    ) -> Result<Option<Flow>, AllocError>
        requires { Asks (known_by self.now) start.now (todo.Answer spot home task path place) course.old here }
        ensures { IfOk result (Does (known_by self.now) start.now
            (todo.Answer spot home task.entry path.entry place) course.old here course.new) }
    {
        match here {
            None => Ok(None),
            Some(left) => {
                let outer = self.stand_in(spot);
                let inner = self.stand_in(Spot::Called(home));
                self.answer_by(start, &outer, &inner, course, task, path, &place, left)
            }
        }
    }

    // Puts what a called task returns where a target is.
    fn answer_by(
        &self,
        start: &Stand<'s>,
        outer: &Option<Stand<'s>>,
        inner: &Option<Stand<'s>>,
        course: &mut Course,
        task: &'s TaskDef,
        path: &[Ident],
        place: &TargetPlace,
        left: Flow,
    ) -> Result<Option<Flow>, AllocError>
        requires { (spot : spots.Spot) × (home : homes.Home)
            × ((at : stands.Stand) → stand_at (known_by self.now) at spot ≡ unwrap_or outer.now at)
            × ((at : stands.Stand) → stand_of (known_by self.now) home ≡ unwrap_or inner.now at)
            × MayAnswer (known_by self.now) start.now spot home task.now path.now place.now course.old left }
        ensures { IfOk result (LeadsAnswer (unwrap_or outer.now start.now) path.now place.now
            (record { stand = unwrap_or inner.now start.now; task = task.entry }) course.old left course.new) }
    {
        let outer = stand_or(outer, start);
        let inner = stand_or(inner, start);
        let goes = answer(inner, task, &outer.reader, course, path, place, left)?;
        Ok(Some(goes))
    }
}

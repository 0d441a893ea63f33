//! Leads runs through statements: those that hold others leave these for later.
ghost use Rattle.std.specs.Prelude.{IfOk};
ghost use Rattle.std.specs.Option.{option_map};
ghost use Rattle.tm_base.specs.declared.place.Place as placed;
ghost use Rattle.tm_syntax.specs.Tree as trees;
ghost use Rattle.tm_syntax.specs.Tree.{row_of};
ghost use Rattle.tm_syntax.specs.Tree.View.{expr_tree, stmt_tree, stmt_trees, value_tree};
ghost use Rattle.tm_flat_bodies.specs.declared.stand.Stand as stands;
ghost use Rattle.tm_flat_bodies.specs.Inner.Places.{IsAt, stack};
ghost use Rattle.tm_flat_bodies.specs.Inner.Waiting.{StepsTo, StmtGoal};
ghost use Rattle.tm_flat_bodies.specs.Inner.Weights.{stmt_most};
ghost use Rattle.tm_flat_bodies.specs.Tables.{known_by};
ghost use Rattle.tm_flat_bodies.specs.Walks.{RowWalks, StmtWalks};

use crate::branches::part;
use crate::course::Course;
use crate::stand::Stand;
use crate::waiting::{Row, Spot, Todo, Waiting};
use crate::walker::Walker;
use std::alloc::AllocError;
use tm_flat_stmts::Flow;
use tm_syntax::tree::{Expr, Ident, Stmt, Value};

impl<'s> Walker<'s> {
    // Leads runs through a statement of a body of an instance: the flow behind what was done of it.
    pub(crate) fn walk(
        &self,
        stand: &Stand<'s>,
        course: &mut Course,
        waiting: &mut Waiting<'s>,
        spot: Spot,
        stmt: &'s Stmt,
        flow: Flow,
    ) -> Result<Option<Flow>, AllocError>
        requires { StmtWalks (known_by self.now) stand.now (stmt_tree stmt.now) course.old flow }
        ensures { (start : stands.Stand) → IsAt (known_by self.now) start spot stand.now → IfOk result
            (StepsTo (known_by self.now) start
            (StmtGoal (known_by self.now) stand.now (stmt_tree stmt.now) course.old flow)
            (λ d. stmt_most d stand.now (stmt_tree stmt.now)) (stack waiting.old) (stack waiting.new) course.new) }
    {
        match stmt {
            Stmt::Assign(path, index, value) => self.assign(
                stand,
                course,
                waiting,
                spot,
                path.names.as_slice(),
                index,
                value,
                flow,
            ),
            Stmt::Call(path, args) => self.call(
                stand,
                course,
                waiting,
                path.names.as_slice(),
                args.as_slice(),
                flow,
            ),
            Stmt::If(e, first, second) => self.branch(
                stand,
                course,
                waiting,
                spot,
                e,
                first.as_slice(),
                second.as_slice(),
                flow,
            ),
            Stmt::While(_, e, body) => {
                self.repeat(stand, course, waiting, spot, e, body.as_slice(), flow)
            }
            Stmt::Forever(_, body) => self.run_forever(
                course,
                waiting,
                spot,
                body.as_slice(),
                flow,
            ),
            Stmt::Choice(_, blocks) => self.choose(course, waiting, spot, blocks.as_slice(), flow),
            Stmt::Assert(_, e) => self.assert(stand, course, e, flow),
            Stmt::Assume(_, e) => self.assume(stand, course, e, flow),
            Stmt::Pause(at) => self.stop(stand, course, *at, flow),
            Stmt::Wait(at, _) => self.stop(stand, course, *at, flow),
            Stmt::Magic(at) => self.stop(stand, course, *at, flow),
        }
    }

    // Begins an `if`: its first row is led through, and then its second one.
    fn branch(
        &self,
        stand: &Stand<'s>,
        course: &mut Course,
        waiting: &mut Waiting<'s>,
        spot: Spot,
        e: &Expr,
        first: &'s [Stmt],
        second: &'s [Stmt],
        flow: Flow,
    ) -> Result<Option<Flow>, AllocError>
        requires { StmtWalks (known_by self.now) stand.now
            (trees.branch (expr_tree e.now) (row_of (stmt_trees first.now)) (row_of (stmt_trees second.now)))
            course.old flow }
        ensures { (start : stands.Stand) → IsAt (known_by self.now) start spot stand.now → IfOk result
            (StepsTo (known_by self.now) start
            (StmtGoal (known_by self.now) stand.now
            (trees.branch (expr_tree e.now) (row_of (stmt_trees first.now)) (row_of (stmt_trees second.now)))
            course.old flow)
            (λ d. stmt_most d stand.now
            (trees.branch (expr_tree e.now) (row_of (stmt_trees first.now)) (row_of (stmt_trees second.now))))
            (stack waiting.old) (stack waiting.new) course.new) }
    {
        let parts = part(&stand.reader, course, e, flow)?;
        waiting.leave(Todo::Second(spot, second, parts.second))?;
        waiting.leave(Todo::Row(spot, Row::Stmts(first)))?;
        Ok(Some(parts.first))
    }

    // Begins a `while`: of the runs that begin its body none comes to its end.
    fn repeat(
        &self,
        stand: &Stand<'s>,
        course: &mut Course,
        waiting: &mut Waiting<'s>,
        spot: Spot,
        e: &Expr,
        body: &'s [Stmt],
        flow: Flow,
    ) -> Result<Option<Flow>, AllocError>
        requires { (at : placed.Place) × StmtWalks (known_by self.now) stand.now
            (trees.repeat at (expr_tree e.now) (row_of (stmt_trees body.now))) course.old flow }
        ensures { (start : stands.Stand) → IsAt (known_by self.now) start spot stand.now → (at : placed.Place) →
            IfOk result (StepsTo (known_by self.now) start
            (StmtGoal (known_by self.now) stand.now
            (trees.repeat at (expr_tree e.now) (row_of (stmt_trees body.now)))
            course.old flow)
            (λ d. stmt_most d stand.now
            (trees.repeat at (expr_tree e.now) (row_of (stmt_trees body.now))))
            (stack waiting.old) (stack waiting.new) course.new) }
    {
        let parts = part(&stand.reader, course, e, flow)?;
        waiting.leave(Todo::Loop(Some(parts.second)))?;
        waiting.leave(Todo::Row(spot, Row::Stmts(body)))?;
        Ok(Some(parts.first))
    }

    // Begins a `forever`: none comes to the end of its body.
    fn run_forever(
        &self,
        course: &Course,
        waiting: &mut Waiting<'s>,
        spot: Spot,
        body: &'s [Stmt],
        flow: Flow,
    ) -> Result<Option<Flow>, AllocError>
        ensures { (start stand : stands.Stand) (at : placed.Place) → IsAt (known_by self.now) start spot stand →
            StmtWalks (known_by self.now) stand (trees.forever at (row_of (stmt_trees body.now))) course.now flow →
            IfOk result (StepsTo (known_by self.now) start
            (StmtGoal (known_by self.now) stand (trees.forever at (row_of (stmt_trees body.now))) course.now flow)
            (λ d. stmt_most d stand (trees.forever at (row_of (stmt_trees body.now)))) (stack waiting.old)
            (stack waiting.new) course.now) }
    {
        waiting.leave(Todo::Loop(None))?;
        waiting.leave(Todo::Row(spot, Row::Stmts(body)))?;
        Ok(Some(flow))
    }

    // Leads runs through an assignment.
    pub(crate) fn assign(
        &self,
        stand: &Stand<'s>,
        course: &mut Course,
        waiting: &mut Waiting<'s>,
        spot: Spot,
        path: &'s [Ident],
        index: &Option<Expr>,
        value: &'s Value,
        flow: Flow,
    ) -> Result<Option<Flow>, AllocError>
        requires { StmtWalks (known_by self.now) stand.now
            (trees.assign path.now (option_map expr_tree index.now) (value_tree value.now)) course.old flow }
        ensures { (start : stands.Stand) → IsAt (known_by self.now) start spot stand.now → IfOk result
            (StepsTo (known_by self.now) start
            (StmtGoal (known_by self.now) stand.now
            (trees.assign path.now (option_map expr_tree index.now) (value_tree value.now))
            course.old flow)
            (λ d. stmt_most d stand.now
            (trees.assign path.now (option_map expr_tree index.now) (value_tree value.now)))
            (stack waiting.old) (stack waiting.new) course.new) }
    {
        match value {
            Value::Star(_) => self.assign_choice(stand, course, path, index, flow),
            Value::Plain(e) => self.assign_value(stand, course, path, index, e, flow),
            Value::Call(called, args) => {
                let name = called.names.as_slice();
                self.assign_call(
                    stand,
                    course,
                    waiting,
                    spot,
                    path,
                    index,
                    name,
                    args.as_slice(),
                    flow,
                )
            }
        }
    }
}

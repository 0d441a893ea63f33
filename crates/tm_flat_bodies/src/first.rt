//! Leads runs through the first statement of a row.
ghost use Rattle.std.specs.Prelude.{◌≡◌, IfOk, Some, unwrap_or};
ghost use Rattle.tm_syntax.specs.Tree.{row_of};
ghost use Rattle.tm_syntax.specs.Tree.View.{stmt_trees};
ghost use Rattle.tm_flat_bodies.specs.declared.stand.Stand as stands;
ghost use Rattle.tm_flat_bodies.specs.declared.waiting.Row.TheVariants as rows;
ghost use Rattle.tm_flat_bodies.specs.declared.waiting.Todo.TheVariants as todo;
ghost use Rattle.tm_flat_bodies.specs.Inner.Places.{IsAt, IsHome, IsThere, row_tree, stack, stand_at, stand_of};
ghost use Rattle.tm_flat_bodies.specs.Inner.Waiting.{Asks, Does, RowGoal, RowWalksAt, SecondWalks, StepsTo};
ghost use Rattle.tm_flat_bodies.specs.Inner.Weights.{row_most, todo_weight};
ghost use Rattle.tm_flat_bodies.specs.Tables.{known_by};
ghost use Rattle.tm_flat_bodies.specs.Walks.{RowWalks};

use crate::course::Course;
use crate::stand::{Stand, stand_or};
use crate::waiting::{Home, Row, Spot, Todo, Waiting};
use crate::walker::Walker;
use std::alloc::AllocError;
use std::slice::from_ref;
use tm_flat_exprs::TermReader;
use tm_flat_stmts::Flow;
use tm_syntax::tree::{LocalDef, Stmt};

impl<'s> Walker<'s> {
    // The body of a spot, but where the walk began.
    pub(crate) fn stand_in(&self, spot: Spot) -> Option<Stand<'s>>
        requires { IsThere (known_by self.now) spot }
        ensures { (start : stands.Stand) → stand_at (known_by self.now) start spot ≡ unwrap_or result start }
    {
        match spot {
            Spot::Start => None,
            Spot::Called(home) => self.called_stand(home),
        }
    }

    // A called body, which is there.
    fn called_stand(&self, home: Home) -> Option<Stand<'s>>
        requires { IsHome (known_by self.now) home }
        ensures { result ≡ Some (stand_of (known_by self.now) home) }
    {
        match self.cells.scope(home.at) {
            None => unreachable!(),
            Some(scope) => Some(Stand {
                reader: TermReader::new(scope, self.scopes, home.at),
                depth: home.depth,
                trail: home.trail,
            }),
        }
    }

    // Begins a row, if a run stands there.
    pub(crate) fn begin_row(
        &self,
        start: &Stand<'s>,
        course: &mut Course,
        waiting: &mut Waiting<'s>,
        spot: Spot,
        row: Row<'s>,
        here: Option<Flow>,
    ) -> Result<Option<Flow>, AllocError>
        requires { Asks (known_by self.now) start.now (todo.Row spot row) course.old here }
        ensures { IfOk result (StepsTo (known_by self.now) start.now
            (Does (known_by self.now) start.now (todo.Row spot row.entry) course.old here)
            (λ d. todo_weight d (known_by self.now) start.now (todo.Row spot row.entry)) (stack waiting.old)
            (stack waiting.new) course.new) }
    {
        match here {
            None => Ok(None),
            Some(flow) => {
                let found = self.stand_in(spot);
                self.begin_row_by(start, &found, course, waiting, spot, row, flow)
            }
        }
    }

    // Begins a row where a run stands.
    fn begin_row_by(
        &self,
        start: &Stand<'s>,
        found: &Option<Stand<'s>>,
        course: &mut Course,
        waiting: &mut Waiting<'s>,
        spot: Spot,
        row: Row<'s>,
        flow: Flow,
    ) -> Result<Option<Flow>, AllocError>
        requires found { (at : stands.Stand) → stand_at (known_by self.now) at spot ≡ unwrap_or found.now at }
        requires walks { RowWalksAt (known_by self.now) start.now spot (row_tree row) course.old flow }
        ensures { IfOk result (StepsTo (known_by self.now) start.now
            (RowGoal (known_by self.now) (stand_at (known_by self.now) start.now spot) (row_tree row.entry) course.old
            flow)
            (λ d. row_most d (stand_at (known_by self.now) start.now spot) row.entry) (stack waiting.old)
            (stack waiting.new) course.new) }
    {
        let stand = stand_or(found, start);
        self.begin_row_in(stand, course, waiting, spot, row, flow)
    }

    // Begins a row of a body.
    fn begin_row_in(
        &self,
        stand: &Stand<'s>,
        course: &mut Course,
        waiting: &mut Waiting<'s>,
        spot: Spot,
        row: Row<'s>,
        flow: Flow,
    ) -> Result<Option<Flow>, AllocError>
        requires { RowWalks (known_by self.now) stand.now (row_tree row) course.old flow }
        ensures { (start : stands.Stand) → IsAt (known_by self.now) start spot stand.now → IfOk result
            (StepsTo (known_by self.now) start
            (RowGoal (known_by self.now) stand.now (row_tree row.entry) course.old flow)
            (λ d. row_most d stand.now row.entry) (stack waiting.old) (stack waiting.new) course.new) }
    {
        match row {
            Row::Body(body) => {
                waiting.leave(Todo::Row(spot, Row::Stmts(body.stmts.as_slice())))?;
                waiting.leave(Todo::Row(spot, Row::Locals(body.locals.as_slice())))?;
                Ok(Some(flow))
            }
            Row::Locals(locals) => self.first_local(stand, course, waiting, spot, locals, flow),
            Row::Stmts(stmts) => self.first_stmt(stand, course, waiting, spot, stmts, flow),
        }
    }

    // Leads runs through the first declaration of a local.
    fn first_local(
        &self,
        stand: &Stand<'s>,
        course: &mut Course,
        waiting: &mut Waiting<'s>,
        spot: Spot,
        locals: &'s [LocalDef],
        flow: Flow,
    ) -> Result<Option<Flow>, AllocError>
        requires { RowWalks (known_by self.now) stand.now (row_tree (rows.Locals locals)) course.old flow }
        ensures { (start : stands.Stand) → IsAt (known_by self.now) start spot stand.now → IfOk result
            (StepsTo (known_by self.now) start
            (RowGoal (known_by self.now) stand.now (row_tree (rows.Locals locals.entry)) course.old flow)
            (λ d. row_most d stand.now (rows.Locals locals.entry)) (stack waiting.old) (stack waiting.new)
            course.new) }
    {
        let [first, others @ ..] = locals else {
            return Ok(Some(flow));
        };
        waiting.leave(Todo::Row(spot, Row::Locals(others)))?;
        let name = from_ref(&first.name);
        self.assign(
            stand,
            course,
            waiting,
            spot,
            name,
            &None,
            &first.value,
            flow,
        )
    }

    // Leads runs through the first statement of a row.
    fn first_stmt(
        &self,
        stand: &Stand<'s>,
        course: &mut Course,
        waiting: &mut Waiting<'s>,
        spot: Spot,
        stmts: &'s [Stmt],
        flow: Flow,
    ) -> Result<Option<Flow>, AllocError>
        requires { RowWalks (known_by self.now) stand.now (row_of (stmt_trees stmts.now)) course.old flow }
        ensures { (start : stands.Stand) → IsAt (known_by self.now) start spot stand.now → IfOk result
            (StepsTo (known_by self.now) start
            (RowGoal (known_by self.now) stand.now (row_of (stmt_trees stmts.now)) course.old flow)
            (λ d. row_most d stand.now (rows.Stmts stmts.entry)) (stack waiting.old) (stack waiting.new)
            course.new) }
    {
        let [first, others @ ..] = stmts else {
            return Ok(Some(flow));
        };
        waiting.leave(Todo::Row(spot, Row::Stmts(others)))?;
        self.walk(stand, course, waiting, spot, first, flow)
    }

    // Begins the second row of an `if`, behind its first one.
    pub(crate) fn begin_second(
        &self,
        start: &Stand<'s>,
        course: &Course,
        waiting: &mut Waiting<'s>,
        spot: Spot,
        second: &'s [Stmt],
        other: Flow,
        here: Option<Flow>,
    ) -> Result<Option<Flow>, AllocError>
        requires { SecondWalks (known_by self.now) start.now spot (row_of (stmt_trees second.now)) other course.now
            here }
        ensures { IfOk result (StepsTo (known_by self.now) start.now
            (Does (known_by self.now) start.now (todo.Second spot second.entry other) course.now here)
            (λ d. todo_weight d (known_by self.now) start.now (todo.Second spot second.entry other))
            (stack waiting.old) (stack waiting.new) course.now) }
    {
        waiting.leave(Todo::Join(here))?;
        waiting.leave(Todo::Row(spot, Row::Stmts(second)))?;
        Ok(Some(other))
    }
}

//! Leads runs through the statements of a design, with a stack of its own: calls may nest as deep as a text lets them.
ghost use Rattle.std.specs.Prelude.{IfOk, map};
ghost use Rattle.tm_syntax.specs.Tree.{row_of};
ghost use Rattle.tm_syntax.specs.Tree.View.{body_tree, local_tree, stmt_trees};
ghost use Rattle.tm_flat_bodies.specs.Inner.Passing.{local_stmts};
ghost use Rattle.tm_flat_bodies.specs.Inner.Places.{row_tree, stack};
ghost use Rattle.tm_flat_bodies.specs.Inner.Waiting.{Asks, Does, StepsTo};
ghost use Rattle.tm_flat_bodies.specs.Inner.Weights.{todo_weight};
ghost use Rattle.tm_flat_bodies.specs.Tables.{known_by};
ghost use Rattle.tm_flat_bodies.specs.Walks.{BodyLeads, BodyWalks, RowLeads, RowWalks};

use crate::branches::join;
use crate::course::Course;
use crate::stand::Stand;
use crate::waiting::{Row, Spot, Todo, Waiting};
use crate::walker::Walker;
use std::alloc::AllocError;
use tm_flat_stmts::Flow;
use tm_syntax::tree::{Body, LocalDef, Stmt};

impl<'s> Walker<'s> {
    /// Leads runs through a body: the flow behind it, if it falls through. A local's declaration is an assignment that
    /// stands before the statements. Linear in the statements, those of called bodies counted at each call, times the
    /// cells. `AllocError` is want of memory.
    pub fn walk_body(
        &self,
        stand: &Stand<'s>,
        course: &mut Course,
        body: &'s Body,
        flow: Flow,
    ) -> Result<Option<Flow>, AllocError>
        requires { BodyWalks (known_by self.now) stand.now (body_tree body.now) course.old flow }
        ensures { IfOk result
            (BodyLeads (known_by self.now) stand.now (body_tree body.now) course.old course.new flow) }
    {
        self.walk_whole(stand, course, Row::Body(body), flow)
    }

    /// Leads runs through the declarations of locals.
    pub fn walk_locals(
        &self,
        stand: &Stand<'s>,
        course: &mut Course,
        locals: &'s [LocalDef],
        flow: Flow,
    ) -> Result<Option<Flow>, AllocError>
        requires { RowWalks (known_by self.now) stand.now (row_of (local_stmts (map local_tree locals.now)))
            course.old flow }
        ensures { IfOk result (RowLeads (known_by self.now) stand.now
            (row_of (local_stmts (map local_tree locals.now))) course.old course.new flow) }
    {
        self.walk_whole(stand, course, Row::Locals(locals), flow)
    }

    /// Leads runs through the statements of a row.
    pub fn walk_row(
        &self,
        stand: &Stand<'s>,
        course: &mut Course,
        stmts: &'s [Stmt],
        flow: Flow,
    ) -> Result<Option<Flow>, AllocError>
        requires { RowWalks (known_by self.now) stand.now (row_of (stmt_trees stmts.now)) course.old flow }
        ensures { IfOk result
            (RowLeads (known_by self.now) stand.now (row_of (stmt_trees stmts.now)) course.old course.new flow) }
    {
        self.walk_whole(stand, course, Row::Stmts(stmts), flow)
    }

    // Leads runs through a row, and all that it calls.
    fn walk_whole(
        &self,
        start: &Stand<'s>,
        course: &mut Course,
        row: Row<'s>,
        flow: Flow,
    ) -> Result<Option<Flow>, AllocError>
        requires { RowWalks (known_by self.now) start.now (row_tree row) course.old flow }
        ensures { IfOk result
            (RowLeads (known_by self.now) start.now (row_tree row.entry) course.old course.new flow) }
    {
        let mut waiting = Waiting::new(course.alloc);
        waiting.leave(Todo::Row(Spot::Start, row))?;
        let mut here = Some(flow);
        while let Some(next) = waiting.next() {
            here = self.step(start, course, &mut waiting, next, here)?;
        }
        Ok(here)
    }

    // Does what is next, and leaves what is to be done behind it.
    fn step(
        &self,
        start: &Stand<'s>,
        course: &mut Course,
        waiting: &mut Waiting<'s>,
        next: Todo<'s>,
        here: Option<Flow>,
    ) -> Result<Option<Flow>, AllocError>
        requires { Asks (known_by self.now) start.now next course.old here }
        ensures { IfOk result (StepsTo (known_by self.now) start.now
            (Does (known_by self.now) start.now next.entry course.old here)
            (λ d. todo_weight d (known_by self.now) start.now next.entry) (stack waiting.old) (stack waiting.new)
            course.new) }
    {
        match next {
            Todo::Row(spot, row) => self.begin_row(start, course, waiting, spot, row, here),
            Todo::Second(spot, second, other) => {
                self.begin_second(start, course, waiting, spot, second, other, here)
            }
            Todo::Join(left) => join(course, left, here),
            Todo::Loop(after) => Ok(after),
            Todo::Alternatives(spot, choice, index, blocks) => {
                self.next_alternative(start, course, waiting, spot, choice, index, blocks, here)
            }
            Todo::Answer(spot, home, task, path, place) => {
                self.begin_answer(start, course, spot, home, task, path, place, here)
            }
        }
    }
}

//! What is passed to called tasks, and what they hand back.
ghost use Rattle.std.specs.Prelude.{◌≡◌, IfOk, List, Some};
ghost use Rattle.std.specs.Option.{option_map};
ghost use Rattle.tm_syntax.specs.declared.design.Ty as resolved;
ghost use Rattle.tm_syntax.specs.Tree as trees;
ghost use Rattle.tm_syntax.specs.Tree.View.{expr_tree, expr_trees};
ghost use Rattle.tm_term.specs.Table.{IsSound};
ghost use Rattle.tm_design.specs.Values.{HasParameters};
ghost use Rattle.tm_syntax.specs.Design.{DesignTree};
ghost use Rattle.tm_scope.specs.Cells.{HasCells};
ghost use Rattle.tm_syntax.specs.declared.tree.Ident.{Ident};
ghost use Rattle.tm_design.specs.Callees.{IsCallee};
ghost use Rattle.tm_design.specs.Typed.{HasTypeAt};
ghost use Rattle.tm_design.specs.StepCells.{AreApart};
ghost use Rattle.tm_flat_stmts.specs.Flows.{AreEnds, IsFlow};
ghost use Rattle.tm_flat_stmts.specs.Statements.{AreSettledCells};
ghost use Rattle.tm_flat_stmts.specs.Targets.{HasTargetAt};
ghost use Rattle.tm_flat_stmts.specs.Places.{IsPlace};
ghost use Rattle.tm_flat_bodies.specs.Asked.{AreArguments};
ghost use Rattle.tm_flat_bodies.specs.Inner.Passing.{Answers, Enters};

use crate::arguments::{put_all, valued_arguments};
use crate::called::CalledTask;
use crate::course::Course;
use crate::stand::Stand;
use std::alloc::AllocError;
use tm_design::parameter_cells;
use tm_flat_exprs::TermReader;
use tm_flat_stmts::{Flow, TargetPlace, put_at, target_type, value_operand};
use tm_syntax::tree::{Expr, Ident, TaskDef};

impl<'s> CalledTask<'s> {
    /// Leads runs to the start of the body: its parameters get the arguments, which are valued first. Runs fail at
    /// which one of them overruns. `AllocError` is want of memory.
    pub(crate) fn enter(
        &self,
        outer: &TermReader<'s>,
        course: &mut Course,
        args: &[Expr],
        flow: Flow,
    ) -> Result<Flow, AllocError>
        requires tables { self.now.stand.reader.tables ≡ outer.now.tables }
        requires callee { (names : List Ident) × IsCallee outer.now.tables outer.now.at names
            self.now.stand.reader.at self.now.task.now }
        requires typed { AreArguments outer.now self.now.task.now.params.items (expr_trees args.now) }
        requires parameters { (d : DesignTree) → HasCells outer.now.tables d → HasParameters d }
        requires settled { AreSettledCells outer.now }
        requires apart { AreApart outer.now.tables }
        requires sound { IsSound course.old.terms }
        requires flow { IsFlow outer.now.tables course.old.terms flow }
        requires ends { AreEnds outer.now.tables course.old.terms course.old.ends }
        ensures { IfOk result
            (Enters outer.now (expr_trees args.now) self.now.stand.reader.at course.old course.new flow) }
    {
        let inner = &self.stand.reader;
        let valued = valued_arguments(outer, course, self.task.params.as_slice(), args, flow)?;
        let cells = parameter_cells(course.alloc, inner.scope(), self.task)?;
        let entered = put_all(
            valued.flow,
            inner.at(),
            cells.as_slice(),
            valued.values.as_slice(),
        )?;
        Ok(entered)
    }
}

/// Puts what the body of a called task returns, if anything, where a target is. Runs fail at which it overruns.
/// `AllocError` is want of memory.
pub(crate) fn answer<'s>(
    inner: &Stand<'s>,
    task: &'s TaskDef,
    outer: &TermReader<'s>,
    course: &mut Course,
    path: &[Ident],
    place: &TargetPlace,
    flow: Flow,
) -> Result<Flow, AllocError>
    requires tables { inner.now.reader.tables ≡ outer.now.tables }
    requires typed { (ty : resolved.Ty) × HasTargetAt outer.now ty path.now × ((e : trees.ExprTree)
        → option_map expr_tree task.now.body.answer ≡ Some e → HasTypeAt inner.now.reader ty e) }
    requires place { IsPlace course.old.terms place.now }
    requires settled { AreSettledCells outer.now }
    requires apart { AreApart outer.now.tables }
    requires sound { IsSound course.old.terms }
    requires flow { IsFlow outer.now.tables course.old.terms flow }
    requires ends { AreEnds outer.now.tables course.old.terms course.old.ends }
    ensures { IfOk result (Answers outer.now path.now place.now (record { stand = inner.now; task = task.entry })
        course.old course.new flow) }
{
    match &task.body.answer {
        None => Ok(flow),
        Some(e) => {
            let asked = target_type(outer, path);
            let reader = &inner.reader;
            let valued = value_operand(
                reader,
                &mut course.terms,
                &mut course.ends,
                flow,
                e,
                asked,
            )?;
            let goes = put_at(
                outer,
                &mut course.terms,
                valued.flow,
                path,
                place,
                valued.value,
                asked,
            )?;
            Ok(goes)
        }
    }
}

//! The arguments of calls.
ghost use Rattle.std.specs.Prelude.{◌≡◌, IfOk, length};
ghost use Rattle.tm_syntax.specs.Tree.View.{expr_tree, expr_trees};
ghost use Rattle.tm_scope.specs.Types.{ty_of};
ghost use Rattle.tm_term.specs.Table.{IsSound};
ghost use Rattle.tm_design.specs.Typed.{HasTypeAt};
ghost use Rattle.tm_flat_stmts.specs.Flows.{AreEnds, IsFlow};
ghost use Rattle.tm_flat_stmts.specs.Statements.{AreSettledCells};
ghost use Rattle.tm_flat_bodies.specs.Asked.{AreArguments};
ghost use Rattle.tm_flat_bodies.specs.Inner.Passing.{AsksAll, AsksMore, PutsAll};

use crate::course::Course;
use std::alloc::AllocError;
use tm_flat_exprs::TermReader;
use tm_flat_stmts::{Flow, value_operand};
use tm_scope::{CellNumber, ExprType, SiteBody};
use tm_syntax::tree::{Expr, Param};
use tm_term::TermId;

/// The runs at which no argument of a call overruns, and the terms of the arguments there.
#[derive(Drop)]
pub(crate) struct Arguments {
    pub flow: Flow,
    pub values: Vec<TermId>,
}

// Values one more argument.
fn one_more<'s>(
    reader: &TermReader<'s>,
    course: &mut Course,
    so_far: Arguments,
    e: &Expr,
    asked: ExprType<'s>,
) -> Result<Arguments, AllocError>
    requires typed { HasTypeAt reader.now (ty_of asked) (expr_tree e.now) }
    requires settled { AreSettledCells reader.now }
    requires sound { IsSound course.old.terms }
    requires flow { IsFlow reader.now.tables course.old.terms so_far.flow }
    requires ends { AreEnds reader.now.tables course.old.terms course.old.ends }
    ensures { IfOk result
        (AsksMore reader.now (ty_of asked.entry) (expr_tree e.now) course.old course.new so_far) }
{
    let valued = value_operand(
        reader,
        &mut course.terms,
        &mut course.ends,
        so_far.flow,
        e,
        asked,
    )?;
    let mut values = so_far.values;
    values.push(valued.value)?;
    Ok(Arguments {
        flow: valued.flow,
        values,
    })
}

/// Values the arguments of a call where runs stand, each of which is asked for its parameter's type: runs fail at which
/// one of them overruns. `AllocError` is want of memory.
pub(crate) fn valued_arguments<'s>(
    reader: &TermReader<'s>,
    course: &mut Course,
    params: &'s [Param],
    args: &[Expr],
    flow: Flow,
) -> Result<Arguments, AllocError>
    requires typed { AreArguments reader.now params.now (expr_trees args.now) }
    requires settled { AreSettledCells reader.now }
    requires sound { IsSound course.old.terms }
    requires flow { IsFlow reader.now.tables course.old.terms flow }
    requires ends { AreEnds reader.now.tables course.old.terms course.old.ends }
    ensures { IfOk result
        (AsksAll reader.now params.now (expr_trees args.now) course.old course.new flow) }
{
    let mut so_far = Arguments {
        flow,
        values: Vec::new(course.alloc),
    };
    for index in 0..args.len() {
        let asked = ExprType::of(&params[index].ty);
        so_far = one_more(reader, course, so_far, &args[index], asked)?;
    }
    Ok(so_far)
}

/// The runs of a flow after terms were put into the cells of numbers, one after the other, as a body of an instance
/// numbers them. `AllocError` is want of memory.
pub(crate) fn put_all(
    flow: Flow,
    at: SiteBody,
    cells: &[CellNumber],
    values: &[TermId],
) -> Result<Flow, AllocError>
    requires { length cells.now ≡ length values.now }
    ensures { IfOk result (PutsAll at cells.now values.now flow) }
{
    let mut goes = flow;
    for index in 0..cells.len() {
        goes = goes.with(at, cells[index], values[index])?;
    }
    Ok(goes)
}

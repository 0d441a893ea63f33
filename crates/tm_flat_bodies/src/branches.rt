//! Flows that are parted and joined.
ghost use Rattle.std.specs.Prelude.{◌<◌, ◌^◌, IfOk, IfSome};
ghost use Rattle.tm_base.specs.Arithmetic.{IsWidth};
ghost use Rattle.tm_term.specs.Table.{IsSound};
ghost use Rattle.tm_flat.specs.Steps.{IsTerm};
ghost use Rattle.tm_flat_stmts.specs.Flows.{IsFlow};
ghost use Rattle.tm_scope.specs.Cells.{CellTables};
ghost use Rattle.tm_syntax.specs.declared.design.Ty.TheVariants as types;
ghost use Rattle.tm_syntax.specs.Tree.View.{expr_tree};
ghost use Rattle.tm_design.specs.Typed.{HasTypeAt};
ghost use Rattle.tm_flat_stmts.specs.Flows.{AreEnds};
ghost use Rattle.tm_flat_stmts.specs.Statements.{AreSettledCells};
ghost use Rattle.tm_flat_stmts.specs.Parted.{Parts};
ghost use Rattle.tm_flat_bodies.specs.Inner.Passing.{IsAlternative, JoinsFlows};

use crate::course::Course;
use std::alloc::AllocError;
use tm_flat_exprs::{TermReader, make};
use tm_flat_stmts::{Branches, Flow, joined_flows, parted};
use tm_syntax::tree::Expr;
use tm_term::{Term, TermId};

/// Parts runs by a condition: those at which it overruns fail. Linear in the cells. `AllocError` is want of memory.
pub(crate) fn part(
    reader: &TermReader<'_>,
    course: &mut Course,
    e: &Expr,
    flow: Flow,
) -> Result<Branches, AllocError>
    requires typed { HasTypeAt reader.now types.Bool (expr_tree e.now) }
    requires settled { AreSettledCells reader.now }
    requires sound { IsSound course.old.terms }
    requires flow { IsFlow reader.now.tables course.old.terms flow }
    requires ends { AreEnds reader.now.tables course.old.terms course.old.ends }
    ensures { IfOk result
        (Parts reader.now (expr_tree e.now) course.old.terms course.new.terms flow course.old.ends course.new.ends) }
{
    let parts = parted(
        course.alloc,
        reader,
        &mut course.terms,
        &mut course.ends,
        flow,
        e,
    )?;
    Ok(parts)
}

/// Two flows as one, of those that are there. Linear in the cells.
pub(crate) fn join(
    course: &mut Course,
    first: Option<Flow>,
    second: Option<Flow>,
) -> Result<Option<Flow>, AllocError>
    requires sound { IsSound course.old.terms }
    requires flows { (x : CellTables) × IfSome first (IsFlow x course.old.terms)
        × IfSome second (IsFlow x course.old.terms) }
    ensures { IfOk result (JoinsFlows course.old course.new first second) }
{
    let joined = joined_flows(course.alloc, &mut course.terms, first, second)?;
    Ok(joined)
}

/// A copy of those runs of a flow at which a number of a width is this one. Linear in the cells.
pub(crate) fn alternative(
    course: &mut Course,
    flow: &Flow,
    number: TermId,
    width: u8,
    index: u64,
) -> Result<Flow, AllocError>
    requires sound { IsSound course.old.terms }
    requires guard { IsTerm course.old.terms 1 flow.now.guard }
    requires width { IsWidth width }
    requires within { index < 2 ^ width }
    requires term { IsTerm course.old.terms width number }
    ensures { IfOk result (IsAlternative course.old course.new flow.now number index) }
{
    let constant = make(&mut course.terms, Term::Const(width, index))?;
    let here = make(&mut course.terms, Term::Eq(number, constant))?;
    let copy = flow.copied(course.alloc)?;
    let goes = copy.narrowed(&mut course.terms, here)?;
    Ok(goes)
}

//! Elements of arrays as targets of assignments.
ghost use Rattle.std.specs.Prelude.{◌≡◌, ◌^◌, ◌<◌, ◌≤◌, ℕ, IfOk, Some};
ghost use Rattle.tm_syntax.specs.declared.design.Ty as resolved;
ghost use Rattle.tm_syntax.specs.Tree as trees;
ghost use Rattle.tm_syntax.specs.Tree.View.{expr_tree};
ghost use Rattle.tm_scope.specs.Types.{ty_of};
ghost use Rattle.tm_term.specs.Table.{IsKnown, IsSound, width_of};
ghost use Rattle.tm_typing.specs.HasType.{IsSized};
ghost use Rattle.tm_design.specs.Typed.{HasTypeAt};
ghost use Rattle.tm_flat.specs.Steps.{IsTerm};
ghost use Rattle.tm_design.specs.StepCells.{AreApart};
ghost use Rattle.tm_flat_exprs.specs.Valued.{CellHasType, bits_in};
ghost use Rattle.tm_flat_stmts.specs.Flows.{AreEnds, IsFlow};
ghost use Rattle.tm_flat_stmts.specs.Statements.{AreSettledCells, AsksOne, LeadsThrough};
ghost use Rattle.tm_flat_stmts.specs.Elements.{PutsElement, PutsOne, PutsSome};

use crate::places::{element_place, put_at};
use crate::{Ends, Flow, Operand, put, target_type, value_operand};
use std::alloc::AllocError;
use tm_flat_exprs::{TermReader, make};
use tm_scope::ExprType;
use tm_syntax::tree::{Expr, Ident};
use tm_term::{Term, TermId, Terms};

/// Values an element of an array where runs stand: those at which it overruns fail. `AllocError` is want of memory.
pub fn element<'s>(
    reader: &TermReader<'s>,
    terms: &mut Terms,
    ends: &mut Ends,
    flow: Flow,
    path: &[Ident],
    index: &Expr,
    asked: ExprType<'s>,
) -> Result<Operand, AllocError>
    requires typed { HasTypeAt reader.now (ty_of asked) (trees.element path.now (expr_tree index.now)) }
    requires settled { AreSettledCells reader.now }
    requires sound { IsSound terms.old }
    requires flow { IsFlow reader.now.tables terms.old flow }
    requires ends { AreEnds reader.now.tables terms.old ends.old }
    ensures { IfOk result (AsksOne reader.now (ty_of asked.entry) (trees.element path.now (expr_tree index.now))
        terms.old terms.new flow ends.old ends.new) }
{
    let valued = reader.element(terms, flow.memory(), path, index, asked)?;
    ends.fail(terms, &flow, valued.overrun)?;
    let goes = flow.without(terms, valued.overrun)?;
    Ok(Operand {
        flow: goes,
        value: valued.value,
    })
}

// Puts a term into the element of a number where another term is that number; elsewhere it stays as it is.
fn put_one<'s>(
    reader: &TermReader<'s>,
    terms: &mut Terms,
    flow: Flow,
    path: &[Ident],
    number: u64,
    index: TermId,
    id: TermId,
    ty: ExprType<'s>,
) -> Result<Flow, AllocError>
    requires sized { IsSized (ty_of ty) }
    requires typed { CellHasType reader.now path.now (Some number) (ty_of ty) }
    requires settled { AreSettledCells reader.now }
    requires apart { AreApart reader.now.tables }
    requires sound { IsSound terms.old }
    requires flow { IsFlow reader.now.tables terms.old flow }
    requires known { IsKnown terms.old index }
    requires below { number < 2 ^ width_of terms.old index }
    requires term { IsTerm terms.old (bits_in reader.now (ty_of ty)) id }
    ensures { IfOk result (PutsOne reader.now path.now number index id terms.old terms.new flow) }
{
    let element = reader.element_at(terms, flow.memory(), path, number, ty)?;
    let width = terms.width(index);
    let constant = make(terms, Term::Const(width, number))?;
    let here = make(terms, Term::Eq(index, constant))?;
    let value = make(terms, Term::Ite(here, id, element))?;
    let goes = put(reader, flow, path, Some(number), value)?;
    Ok(goes)
}

/// Puts a term into the element that another term numbers, where it is one of so many, each of which the index can
/// number. Linear in the count. `AllocError` is want of memory.
pub(crate) fn put_some<'s>(
    reader: &TermReader<'s>,
    terms: &mut Terms,
    flow: Flow,
    path: &[Ident],
    index: TermId,
    count: u64,
    id: TermId,
    ty: ExprType<'s>,
) -> Result<Flow, AllocError>
    requires sized { IsSized (ty_of ty) }
    requires typed { (k : ℕ) → CellHasType reader.now path.now (Some k) (ty_of ty) }
    requires settled { AreSettledCells reader.now }
    requires apart { AreApart reader.now.tables }
    requires sound { IsSound terms.old }
    requires flow { IsFlow reader.now.tables terms.old flow }
    requires known { IsKnown terms.old index }
    requires within { count ≤ 2 ^ width_of terms.old index }
    requires term { IsTerm terms.old (bits_in reader.now (ty_of ty)) id }
    ensures { IfOk result (PutsSome reader.now path.now index count id terms.old terms.new flow) }
{
    let mut goes = flow;
    for number in 0..count {
        goes = put_one(reader, terms, goes, path, number, index, id, ty)?;
    }
    Ok(goes)
}

/// Puts a term into the element that an index numbers, where it does not overrun. Linear in the array's length.
/// `AllocError` is want of memory.
pub(crate) fn put_element<'s>(
    reader: &TermReader<'s>,
    terms: &mut Terms,
    flow: Flow,
    path: &[Ident],
    index: &Expr,
    id: TermId,
    ty: ExprType<'s>,
) -> Result<Flow, AllocError>
    requires typed { HasTypeAt reader.now (ty_of ty) (trees.element path.now (expr_tree index.now)) }
    requires settled { AreSettledCells reader.now }
    requires apart { AreApart reader.now.tables }
    requires sound { IsSound terms.old }
    requires flow { IsFlow reader.now.tables terms.old flow }
    requires term { IsTerm terms.old (bits_in reader.now (ty_of ty)) id }
    ensures { IfOk result (PutsElement reader.now path.now (expr_tree index.now) id terms.old terms.new flow) }
{
    let place = element_place(reader, terms, &flow, path, index)?;
    let goes = put_at(reader, terms, flow, path, &place, id, ty)?;
    Ok(goes)
}

/// Leads runs through an assignment of a value to an element of an array. Linear in its length.
pub fn assigned_element(
    reader: &TermReader<'_>,
    terms: &mut Terms,
    ends: &mut Ends,
    flow: Flow,
    path: &[Ident],
    index: &Expr,
    e: &Expr,
) -> Result<Flow, AllocError>
    requires typed { (ty : resolved.Ty) × HasTypeAt reader.now ty (trees.element path.now (expr_tree index.now))
        × HasTypeAt reader.now ty (expr_tree e.now) }
    requires settled { AreSettledCells reader.now }
    requires apart { AreApart reader.now.tables }
    requires sound { IsSound terms.old }
    requires flow { IsFlow reader.now.tables terms.old flow }
    requires ends { AreEnds reader.now.tables terms.old ends.old }
    ensures { (first : ℕ) → IfOk result (λ g. LeadsThrough reader.now first
        (trees.assign path.now (Some (expr_tree index.now)) (trees.plain (expr_tree e.now))) terms.old terms.new flow
        ends.old (Some g) ends.new) }
{
    let asked = target_type(reader, path);
    let within = element(reader, terms, ends, flow, path, index, asked)?;
    let valued = value_operand(reader, terms, ends, within.flow, e, asked)?;
    let goes = put_element(reader, terms, valued.flow, path, index, valued.value, asked)?;
    Ok(goes)
}

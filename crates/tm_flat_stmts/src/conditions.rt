//! Statements that ask for a condition.
ghost use Rattle.std.specs.Prelude.{ℕ, IfOk, Some};
ghost use Rattle.tm_base.specs.declared.place.Place as placed;
ghost use Rattle.tm_syntax.specs.declared.design.Ty.TheVariants as types;
ghost use Rattle.tm_syntax.specs.Tree as trees;
ghost use Rattle.tm_syntax.specs.Tree.View.{expr_tree};
ghost use Rattle.tm_term.specs.Table.{IsSound};
ghost use Rattle.tm_design.specs.Typed.{HasTypeAt};
ghost use Rattle.tm_flat_stmts.specs.Flows.{AreEnds, IsFlow};
ghost use Rattle.tm_flat_stmts.specs.Statements.{AreSettledCells, LeadsThrough};

use crate::ends::Ends;
use crate::flow::Flow;
use crate::operands::value_operand;
use std::alloc::AllocError;
use tm_flat_exprs::{TermReader, denial};
use tm_scope::ExprType;
use tm_syntax::tree::Expr;
use tm_term::Terms;

/// Leads runs through an `assume`: those go on at which its condition holds.
pub fn assumed(
    reader: &TermReader<'_>,
    terms: &mut Terms,
    ends: &mut Ends,
    flow: Flow,
    e: &Expr,
) -> Result<Flow, AllocError>
    requires typed { HasTypeAt reader.now types.Bool (expr_tree e.now) }
    requires settled { AreSettledCells reader.now }
    requires sound { IsSound terms.old }
    requires flow { IsFlow reader.now.tables terms.old flow }
    requires ends { AreEnds reader.now.tables terms.old ends.old }
    ensures { (at : placed.Place) (first : ℕ) → IfOk result (λ g. LeadsThrough reader.now first
        (trees.assume at (expr_tree e.now)) terms.old terms.new flow ends.old (Some g) ends.new) }
{
    let tested = value_operand(reader, terms, ends, flow, e, ExprType::Bool)?;
    let goes = tested.flow.narrowed(terms, tested.value)?;
    Ok(goes)
}

/// Leads runs through an `assert`: those fail at which its condition does not hold.
pub fn asserted(
    reader: &TermReader<'_>,
    terms: &mut Terms,
    ends: &mut Ends,
    flow: Flow,
    e: &Expr,
) -> Result<Flow, AllocError>
    requires typed { HasTypeAt reader.now types.Bool (expr_tree e.now) }
    requires settled { AreSettledCells reader.now }
    requires sound { IsSound terms.old }
    requires flow { IsFlow reader.now.tables terms.old flow }
    requires ends { AreEnds reader.now.tables terms.old ends.old }
    ensures { (at : placed.Place) (first : ℕ) → IfOk result (λ g. LeadsThrough reader.now first
        (trees.assert at (expr_tree e.now)) terms.old terms.new flow ends.old (Some g) ends.new) }
{
    let tested = value_operand(reader, terms, ends, flow, e, ExprType::Bool)?;
    let fails = denial(terms, tested.value)?;
    ends.fail(terms, &tested.flow, Some(fails))?;
    let goes = tested.flow.narrowed(terms, tested.value)?;
    Ok(goes)
}

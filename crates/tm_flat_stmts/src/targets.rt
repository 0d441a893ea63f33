//! Targets of assignments.
ghost use Rattle.std.specs.Prelude.{◌≡◌, ℕ, IfOk, None, Some};
ghost use Rattle.tm_syntax.specs.declared.design.Ty as resolved;
ghost use Rattle.tm_syntax.specs.Tree as trees;
ghost use Rattle.tm_syntax.specs.Tree.View.{expr_tree};
ghost use Rattle.tm_scope.specs.Types.{ty_of};
ghost use Rattle.tm_term.specs.Table.{IsSound};
ghost use Rattle.tm_design.specs.Typed.{HasTypeAt};
ghost use Rattle.tm_design.specs.StepCells.{AreApart};
ghost use Rattle.tm_flat_stmts.specs.Flows.{AreEnds, IsFlow};
ghost use Rattle.tm_flat_stmts.specs.Statements.{AreSettledCells, LeadsThrough};
ghost use Rattle.tm_flat_stmts.specs.Targets.{HasTargetAt, Puts};

use crate::ends::Ends;
use crate::flow::Flow;
use crate::operands::value_operand;
use std::alloc::AllocError;
use tm_flat_exprs::TermReader;
use tm_scope::ExprType;
use tm_syntax::tree::{Expr, Ident};
use tm_term::{TermId, Terms};

/// The type of what a path means that is assigned.
pub fn target_type<'s>(reader: &TermReader<'s>, path: &[Ident]) -> ExprType<'s>
    ensures { (ty : resolved.Ty) → HasTargetAt reader.now ty path.now → ty_of result ≡ ty }
{
    reader.scope().named_type(path).unwrap_or(ExprType::Bool)
}

/// The runs of a flow after a term was put into the cell that a path means, with the index of an element where there is
/// one; where there is no such cell all is as it was. `AllocError` is want of memory.
pub fn put(
    reader: &TermReader<'_>,
    flow: Flow,
    path: &[Ident],
    index: Option<u64>,
    id: TermId,
) -> Result<Flow, AllocError>
    ensures { IfOk result (Puts reader.now path.now index id flow) }
{
    match reader.scope().cell(path, index) {
        Some(cell) => {
            let goes = flow.with(reader.at(), cell, id)?;
            Ok(goes)
        }
        None => Ok(flow),
    }
}

/// Leads runs through an assignment of a value to a target without an index.
pub fn assigned(
    reader: &TermReader<'_>,
    terms: &mut Terms,
    ends: &mut Ends,
    flow: Flow,
    path: &[Ident],
    e: &Expr,
) -> Result<Flow, AllocError>
    requires typed { (ty : resolved.Ty) × HasTargetAt reader.now ty path.now
        × HasTypeAt reader.now ty (expr_tree e.now) }
    requires settled { AreSettledCells reader.now }
    requires apart { AreApart reader.now.tables }
    requires sound { IsSound terms.old }
    requires flow { IsFlow reader.now.tables terms.old flow }
    requires ends { AreEnds reader.now.tables terms.old ends.old }
    ensures { (first : ℕ) → IfOk result (λ g. LeadsThrough reader.now first
        (trees.assign path.now None (trees.plain (expr_tree e.now))) terms.old terms.new flow ends.old (Some g)
        ends.new) }
{
    let asked = target_type(reader, path);
    let valued = value_operand(reader, terms, ends, flow, e, asked)?;
    let goes = put(reader, valued.flow, path, None, valued.value)?;
    Ok(goes)
}

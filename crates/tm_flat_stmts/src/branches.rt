//! Branches.
ghost use Rattle.std.specs.Prelude.{IfOk};
ghost use Rattle.tm_syntax.specs.declared.design.Ty.TheVariants as types;
ghost use Rattle.tm_syntax.specs.Tree.View.{expr_tree};
ghost use Rattle.tm_term.specs.Table.{IsSound};
ghost use Rattle.tm_design.specs.Typed.{HasTypeAt};
ghost use Rattle.tm_flat_stmts.specs.Flows.{AreEnds, IsFlow};
ghost use Rattle.tm_flat_stmts.specs.Statements.{AreSettledCells};
ghost use Rattle.tm_flat_stmts.specs.Parted.{Parts};

use crate::{Ends, Flow, value_operand};
use std::alloc::{AllocError, Global};
use tm_flat_exprs::{TermReader, denial};
use tm_scope::ExprType;
use tm_syntax::tree::Expr;
use tm_term::Terms;

/// The runs at which a condition holds, and those at which it does not.
#[derive(Drop)]
pub struct Branches {
    pub first: Flow,
    pub second: Flow,
}

/// Parts runs by a condition: those at which it overruns fail. Linear in the cells. `AllocError` is want of memory.
pub fn parted(
    alloc: Global,
    reader: &TermReader<'_>,
    terms: &mut Terms,
    ends: &mut Ends,
    flow: Flow,
    e: &Expr,
) -> Result<Branches, AllocError>
    requires typed { HasTypeAt reader.now types.Bool (expr_tree e.now) }
    requires settled { AreSettledCells reader.now }
    requires sound { IsSound terms.old }
    requires flow { IsFlow reader.now.tables terms.old flow }
    requires ends { AreEnds reader.now.tables terms.old ends.old }
    ensures { IfOk result (Parts reader.now (expr_tree e.now) terms.old terms.new flow ends.old ends.new) }
{
    let tested = value_operand(reader, terms, ends, flow, e, ExprType::Bool)?;
    let other = tested.flow.copied(alloc)?;
    let fails = denial(terms, tested.value)?;
    let first = tested.flow.narrowed(terms, tested.value)?;
    let second = other.narrowed(terms, fails)?;
    Ok(Branches { first, second })
}

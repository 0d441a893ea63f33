//! Expressions that statements value.
ghost use Rattle.std.specs.Prelude.{IfOk};
ghost use Rattle.tm_syntax.specs.Tree.View.{expr_tree};
ghost use Rattle.tm_scope.specs.Types.{ty_of};
ghost use Rattle.tm_term.specs.Table.{IsSound};
ghost use Rattle.tm_design.specs.Typed.{HasTypeAt};
ghost use Rattle.tm_flat_stmts.specs.Flows.{AreEnds, IsFlow};
ghost use Rattle.tm_flat_stmts.specs.Statements.{AreSettledCells, AsksOne};

use crate::ends::Ends;
use crate::flow::Flow;
use std::alloc::AllocError;
use tm_flat_exprs::TermReader;
use tm_scope::ExprType;
use tm_syntax::tree::Expr;
use tm_term::{TermId, Terms};

/// The runs at which an expression does not overrun, and the term of its value there.
#[derive(Drop)]
pub struct Operand {
    pub flow: Flow,
    pub value: TermId,
}

/// Values an expression where runs stand, where its place asks for this type: those at which it overruns fail.
/// `AllocError` is want of memory.
pub fn value_operand<'s>(
    reader: &TermReader<'s>,
    terms: &mut Terms,
    ends: &mut Ends,
    flow: Flow,
    e: &Expr,
    asked: ExprType<'s>,
) -> Result<Operand, AllocError>
    requires typed { HasTypeAt reader.now (ty_of asked) (expr_tree e.now) }
    requires settled { AreSettledCells reader.now }
    requires sound { IsSound terms.old }
    requires flow { IsFlow reader.now.tables terms.old flow }
    requires ends { AreEnds reader.now.tables terms.old ends.old }
    ensures { IfOk result
        (AsksOne reader.now (ty_of asked.entry) (expr_tree e.now) terms.old terms.new flow ends.old ends.new) }
{
    let valued = reader.value(terms, &flow.memory, e, asked)?;
    ends.fail(terms, &flow, valued.overrun)?;
    let goes = flow.without(terms, valued.overrun)?;
    Ok(Operand {
        flow: goes,
        value: valued.value,
    })
}

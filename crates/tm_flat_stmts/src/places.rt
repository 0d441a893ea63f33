//! Where targets of assignments are.
ghost use Rattle.std.specs.Prelude.{◌≡◌, ◌^◌, IfOk, min};
ghost use Rattle.tm_syntax.specs.declared.design.Ty as resolved;
ghost use Rattle.tm_syntax.specs.Tree as trees;
ghost use Rattle.tm_syntax.specs.Tree.View.{expr_tree};
ghost use Rattle.tm_scope.specs.Types.{ty_of};
ghost use Rattle.tm_base.specs.Arithmetic.{IsWidth};
ghost use Rattle.tm_term.specs.Table.{IsSound};
ghost use Rattle.tm_design.specs.Typed.{HasTypeAt};
ghost use Rattle.tm_flat.specs.Steps.{IsTerm};
ghost use Rattle.tm_design.specs.StepCells.{AreApart};
ghost use Rattle.tm_flat_exprs.specs.Valued.{bits_in};
ghost use Rattle.tm_flat_stmts.specs.Flows.{IsFlow};
ghost use Rattle.tm_flat_stmts.specs.Statements.{AreSettledCells};
ghost use Rattle.tm_flat_stmts.specs.Targets.{HasTargetAt};
ghost use Rattle.tm_flat_stmts.specs.Places.{FindsPlace, IsPlace, PutsPlace};

use crate::elements::put_some;
use crate::{Flow, put};
use std::alloc::AllocError;
use tm_base::greatest;
use tm_design::index_type;
use tm_flat_exprs::TermReader;
use tm_scope::ExprType;
use tm_syntax::tree::{Expr, Ident};
use tm_term::{TermId, Terms};

/// Where a target is: in the cell of its path, in the element of a number, or in the one that a term numbers, which is
/// one of so many.
#[derive(Drop)]
pub enum TargetPlace {
    Whole,
    Number(u64),
    Found(TermId, u64),
}

// How many elements an index of a width can number in an array of a length.
fn reached(width: u8, length: u64) -> u64
    requires { IsWidth width }
    ensures { result ≡ min length (2 ^ width) }
{
    let most = greatest(width);
    if length <= most { length } else { most + 1 }
}

/// Where the element is that an index numbers where runs stand, if it does not overrun. `AllocError` is want of memory.
pub fn element_place(
    reader: &TermReader<'_>,
    terms: &mut Terms,
    flow: &Flow,
    path: &[Ident],
    index: &Expr,
) -> Result<TargetPlace, AllocError>
    requires typed { (ty : resolved.Ty) × HasTypeAt reader.now ty (trees.element path.now (expr_tree index.now)) }
    requires settled { AreSettledCells reader.now }
    requires sound { IsSound terms.old }
    requires flow { IsFlow reader.now.tables terms.old flow.now }
    ensures { IfOk result
        (FindsPlace reader.now flow.now.memory path.now (expr_tree index.now) terms.old terms.new) }
{
    if let Expr::Number(number) = index {
        return Ok(TargetPlace::Number(number.value.unwrap_or(0)));
    }
    let length = reader.scope().array_length(path).unwrap_or(0);
    let asked = index_type(reader.scope(), index);
    let number = reader.value(terms, flow.memory(), index, asked)?;
    let count = reached(terms.width(number.value), length);
    Ok(TargetPlace::Found(number.value, count))
}

/// Puts a term where a target is. Linear in how many elements it may be. `AllocError` is want of memory.
pub fn put_at<'s>(
    reader: &TermReader<'s>,
    terms: &mut Terms,
    flow: Flow,
    path: &[Ident],
    place: &TargetPlace,
    id: TermId,
    ty: ExprType<'s>,
) -> Result<Flow, AllocError>
    requires typed { HasTargetAt reader.now (ty_of ty) path.now }
    requires settled { AreSettledCells reader.now }
    requires apart { AreApart reader.now.tables }
    requires sound { IsSound terms.old }
    requires flow { IsFlow reader.now.tables terms.old flow }
    requires place { IsPlace terms.old place.now }
    requires term { IsTerm terms.old (bits_in reader.now (ty_of ty)) id }
    ensures { IfOk result (PutsPlace reader.now path.now place.now id terms.old terms.new flow) }
{
    match place {
        TargetPlace::Whole => {
            let goes = put(reader, flow, path, None, id)?;
            Ok(goes)
        }
        TargetPlace::Number(number) => {
            let goes = put(reader, flow, path, Some(*number), id)?;
            Ok(goes)
        }
        TargetPlace::Found(index, count) => {
            let goes = put_some(reader, terms, flow, path, *index, *count, id, ty)?;
            Ok(goes)
        }
    }
}

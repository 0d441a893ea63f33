//! Choices that are assigned.
ghost use Rattle.std.specs.Prelude.{◌≡◌, ◌^◌, ℕ, IfOk, None, Some, nat_lt, unwrap_or};
ghost use Rattle.tm_base.specs.declared.place.Place as placed;
ghost use Rattle.tm_syntax.specs.declared.design.Ty as resolved;
ghost use Rattle.tm_syntax.specs.Tree as trees;
ghost use Rattle.tm_syntax.specs.Tree.View.{expr_tree};
ghost use Rattle.tm_base.specs.Arithmetic.{IsWidth};
ghost use Rattle.tm_term.specs.Table.{IsSound};
ghost use Rattle.tm_term.specs.Value.{value_of};
ghost use Rattle.tm_flat.specs.Steps.{IsTerm};
ghost use Rattle.tm_design.specs.StepCells.{AreApart};
ghost use Rattle.tm_flat_exprs.specs.Valued.{bits_in};
ghost use Rattle.tm_flat_stmts.specs.Choices.{AreChoiceBits};
ghost use Rattle.tm_flat_stmts.specs.Flows.{AreEnds, EndTerms, IsFlow, Narrows};
ghost use Rattle.tm_flat_stmts.specs.Statements.{AreSettledCells, LeadsThrough};
ghost use Rattle.tm_flat_stmts.specs.Targets.{HasTargetAt};
ghost use Rattle.tm_design.specs.Typed.{HasTypeAt};
ghost use Rattle.tm_flat_stmts.specs.Elements.{HasCell, HasElements};

use crate::choices::choice_number;
use crate::elements::{element, put_element};
use crate::{Ends, Flow, put, target_type};
use std::alloc::AllocError;
use tm_base::greatest;
use tm_design::{type_bits, type_size};
use tm_flat_exprs::{TermReader, make};
use tm_syntax::tree::{Expr, Ident};
use tm_term::{Term, TermId, Terms};

// The runs of a flow at which a number of a width is below a count.
fn below_count(
    terms: &mut Terms,
    flow: Flow,
    number: TermId,
    width: u8,
    count: u64,
) -> Result<Flow, AllocError>
    requires sound { IsSound terms.old }
    requires guard { IsTerm terms.old 1 flow.guard }
    requires width { IsWidth width }
    requires term { IsTerm terms.old width number }
    ensures { IfOk result (λ g.
        Narrows terms.old terms.new flow g (λ u v. nat_lt (value_of u v number) count)) }
{
    if count > greatest(width) {
        return Ok(flow);
    }
    let end = make(terms, Term::Const(width, count))?;
    let below = make(terms, Term::Less(number, end))?;
    let goes = flow.narrowed(terms, below)?;
    Ok(goes)
}

/// The runs of a flow at which a number of a width is below a count, which is 2^64 where it is wanting.
pub fn within(
    terms: &mut Terms,
    flow: Flow,
    number: TermId,
    width: u8,
    count: Option<u64>,
) -> Result<Flow, AllocError>
    requires sound { IsSound terms.old }
    requires guard { IsTerm terms.old 1 flow.guard }
    requires width { IsWidth width }
    requires term { IsTerm terms.old width number }
    ensures { IfOk result (λ g. Narrows terms.old terms.new flow g
        (λ u v. nat_lt (value_of u v number) (unwrap_or count (2 ^ 64)))) }
{
    match count {
        Some(many) => {
            let goes = below_count(terms, flow, number, width, many)?;
            Ok(goes)
        }
        None => Ok(flow),
    }
}

/// Leads runs through an assignment of a choice to a target without an index. `first` is the number of the first input
/// that is a bit of choices.
pub fn chosen(
    reader: &TermReader<'_>,
    terms: &mut Terms,
    flow: Flow,
    path: &[Ident],
    first: u32,
) -> Result<Flow, AllocError>
    requires typed { (ty : resolved.Ty) × HasTargetAt reader.now ty path.now
        × AreChoiceBits terms.old first flow.position (bits_in reader.now ty) }
    requires there { HasCell reader.now path.now None }
    requires settled { AreSettledCells reader.now }
    requires apart { AreApart reader.now.tables }
    requires sound { IsSound terms.old }
    requires flow { IsFlow reader.now.tables terms.old flow }
    ensures { (at : placed.Place) (ends : EndTerms) → AreEnds reader.now.tables terms.old ends → IfOk result (λ g.
        LeadsThrough reader.now first (trees.assign path.now None (trees.star at)) terms.old terms.new flow ends
        (Some g) ends) }
{
    let ty = target_type(reader, path);
    let width = type_bits(reader.scopes(), ty);
    let start = flow.position();
    let number = choice_number(terms, first, start, width)?;
    let goes = within(terms, flow, number, width, type_size(reader.scopes(), ty))?;
    let chosen = put(reader, goes, path, None, number)?;
    Ok(chosen.moved(start + u64::from(width)))
}

/// Leads runs through an assignment of a choice to an element of an array. Linear in its length. `first` is the number
/// of the first input that is a bit of choices.
pub fn chosen_element(
    reader: &TermReader<'_>,
    terms: &mut Terms,
    ends: &mut Ends,
    flow: Flow,
    path: &[Ident],
    index: &Expr,
    first: u32,
) -> Result<Flow, AllocError>
    requires typed { (ty : resolved.Ty) × HasTypeAt reader.now ty (trees.element path.now (expr_tree index.now))
        × AreChoiceBits terms.old first flow.position (bits_in reader.now ty) }
    requires there { HasElements reader.now path.now }
    requires settled { AreSettledCells reader.now }
    requires apart { AreApart reader.now.tables }
    requires sound { IsSound terms.old }
    requires flow { IsFlow reader.now.tables terms.old flow }
    requires ends { AreEnds reader.now.tables terms.old ends.old }
    ensures { (at : placed.Place) → IfOk result (λ g. LeadsThrough reader.now first
        (trees.assign path.now (Some (expr_tree index.now)) (trees.star at)) terms.old terms.new flow ends.old (Some g)
        ends.new) }
{
    let ty = target_type(reader, path);
    let found = element(reader, terms, ends, flow, path, index, ty)?;
    let width = type_bits(reader.scopes(), ty);
    let start = found.flow.position();
    let number = choice_number(terms, first, start, width)?;
    let size = type_size(reader.scopes(), ty);
    let goes = within(terms, found.flow, number, width, size)?;
    let chosen = put_element(reader, terms, goes, path, index, number, ty)?;
    Ok(chosen.moved(start + u64::from(width)))
}

//! `F6` of an expression for which its place asks a type.
ghost use Rattle.std.specs.Prelude.{◌≡◌, List, Option};
ghost use Rattle.std.specs.Option.{option_map};
ghost use Rattle.tm_base.specs.declared.place.Place as stands;
ghost use Rattle.tm_syntax.specs.declared.design.Ty as resolved;
ghost use Rattle.tm_syntax.specs.Scopes.Types.{own_type};
ghost use Rattle.tm_syntax.specs.Faults.Mismatches.{asked_faults};
ghost use Rattle.tm_syntax.specs.Faults.Operands.{expr_faults, expr_place, value_faults};
ghost use Rattle.tm_scope.specs.Context.{context_of};
ghost use Rattle.tm_scope.specs.Types.{ty_of};
ghost use Rattle.tm_names.specs.Asked.{part_tree};
ghost use Rattle.tm_types.specs.Firsts.{first_of};
ghost use Rattle.tm_types.specs.Findings.{IsOperand};
ghost use Rattle.tm_types.specs.Inner.TextParts.{expr_at};

use crate::mismatches::exprs::{element_operand, expr_place, path_place, whole_operand};
use crate::mismatches::operators::{Operand, judged};
use tm_base::Place;
use tm_names::{Asked, ExprPart, Site};
use tm_scope::ExprType;

// The first fault of a value, which fits the type that its place asks for, if it asks for one.
fn value_faults(asked: Option<ExprType>, place: Place, x: Operand) -> Option<Place>
    ensures { (xs : List stands.Place) (tx : Option resolved.Ty) → IsOperand x.entry xs tx
        → result ≡ first_of (value_faults (option_map ty_of asked.entry) place xs tx) }
{
    match asked {
        Some(ty) => judged(x.first, x.found.is_value_of(ty), place),
        None => x.first,
    }
}

// The place of the first token of an expression of a text.
fn part_place(part: ExprPart) -> Place
    ensures { result ≡ expr_place (part_tree part.entry) }
{
    match part {
        ExprPart::Whole(e) => expr_place(e),
        ExprPart::Element(path, _) => path_place(path.names.as_slice()),
    }
}

// What is found of an expression of a text.
fn part_operand<'a>(at: &Site<'a>, part: ExprPart<'a>) -> Operand<'a>
    ensures { IsOperand result (expr_faults (context_of at.now) (part_tree part.entry))
        (own_type (context_of at.now) (part_tree part.entry)) }
{
    match part {
        ExprPart::Whole(e) => whole_operand(at, e),
        ExprPart::Element(path, index) => element_operand(at, path, index),
    }
}

/// The first fault within an expression of a text, or of it as a value of the type that its place asks for.
pub(crate) fn asked_faults<'a>(at: &Site<'a>, asked: &Asked<'a>) -> Option<Place>
    ensures { result ≡ first_of (asked_faults (expr_at at.now asked.now)) }
{
    value_faults(
        asked.ty,
        part_place(asked.expr),
        part_operand(at, asked.expr),
    )
}

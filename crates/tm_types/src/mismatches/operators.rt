//! `F6` of an operator, given what is found of its operands.
ghost use Rattle.std.specs.Prelude.{◌≡◌, List, Option};
ghost use Rattle.tm_base.specs.declared.place.Place as stands;
ghost use Rattle.tm_syntax.specs.declared.design.Ty as resolved;
ghost use Rattle.tm_syntax.specs.Faults.Operands as text;
ghost use Rattle.tm_types.specs.Firsts.{first_of};
ghost use Rattle.tm_types.specs.Findings.{IsOperand};

use crate::firsts::{earlier_place, place_unless};
use crate::mismatches::findings::{Finding, branches_fit, operand_fits, operands_fit};
use tm_base::Place;
use tm_syntax::tree::{BinaryOperator, UnaryOperator};

/// What is found of an operand: the first fault within it, and what it is found to be.
#[derive(Clone, Copy)]
pub(crate) struct Operand<'a> {
    pub(crate) first: Option<Place>,
    pub(crate) found: Finding<'a>,
}

/// The first of the faults within some parts, and of the place where these do not fit.
pub(crate) fn judged(within: Option<Place>, fits: bool, at: Place) -> Option<Place>
    ensures { (faults : List stands.Place) → within ≡ first_of faults
        → result ≡ first_of (text.judged faults fits at) }
{
    earlier_place(place_unless(fits, at), within)
}

/// The first fault of a prefix operator.
pub(crate) fn unary_faults(at: Place, op: UnaryOperator, x: Operand) -> Option<Place>
    ensures { (xs : List stands.Place) (tx : Option resolved.Ty) → IsOperand x.entry xs tx
        → result ≡ first_of (text.unary_faults at op xs tx) }
{
    judged(x.first, operand_fits(op, x.found), at)
}

/// The first fault of an operator between two operands.
pub(crate) fn binary_faults(at: Place, op: BinaryOperator, x: Operand, y: Operand) -> Option<Place>
    ensures { (xs : List stands.Place) (tx : Option resolved.Ty) (ys : List stands.Place) (ty : Option resolved.Ty)
        → IsOperand x.entry xs tx → IsOperand y.entry ys ty
        → result ≡ first_of (text.binary_faults at op xs tx ys ty) }
{
    judged(
        earlier_place(x.first, y.first),
        operands_fit(op, x.found, y.found),
        at,
    )
}

/// The first fault of a shift.
pub(crate) fn shift_faults(at: Place, x: Operand) -> Option<Place>
    ensures { (xs : List stands.Place) (tx : Option resolved.Ty) → IsOperand x.entry xs tx
        → result ≡ first_of (text.shift_faults at xs tx) }
{
    judged(x.first, x.found.may_be_uint(), at)
}

/// The first fault of `? :`.
pub(crate) fn conditional_faults(at: Place, x: Operand, y: Operand, z: Operand) -> Option<Place>
    ensures { (xs : List stands.Place) (tx : Option resolved.Ty) (ys : List stands.Place) (ty : Option resolved.Ty)
        (zs : List stands.Place) (tz : Option resolved.Ty)
        → IsOperand x.entry xs tx → IsOperand y.entry ys ty → IsOperand z.entry zs tz
        → result ≡ first_of (text.conditional_faults at xs tx ys ty zs tz) }
{
    let in_first = earlier_place(x.first, y.first);
    judged(
        earlier_place(in_first, z.first),
        branches_fit(x.found, y.found, z.found),
        at,
    )
}

/// The first fault of a cast: its operand has a type of its own.
pub(crate) fn cast_faults(at: Place, x: Operand) -> Option<Place>
    ensures { (xs : List stands.Place) (tx : Option resolved.Ty) → IsOperand x.entry xs tx
        → result ≡ first_of (text.cast_faults at xs tx) }
{
    judged(x.first, x.found.is_number_typed(), at)
}

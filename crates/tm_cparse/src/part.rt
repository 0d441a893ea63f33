//! What of an expression was begun, and waits.
ghost use Rattle.std.specs.Prelude.{◌≡◌, Some, IfOk};
ghost use Rattle.std.specs.Option.{option_map};
ghost use Rattle.tm_cir.specs.Tree as trees;
ghost use Rattle.tm_cir.specs.View.{num_tree, truth_tree};
ghost use Rattle.tm_cparse.specs.View.{sign_tree};
ghost use Rattle.tm_cparse.specs.Inner.Parts.{part_tree, IsOf, Closes, sort_of, number_in, begun_by, closed_by};

use crate::token::Sign;
use std::alloc::{AllocError, Global};
use tm_base::ShiftOperator;
use tm_cir::block::{Comparison, Junction, NumOperator};
use tm_cir::{Num64, Truth};

/// What a place asks for. A number may stand where a truth value is asked for.
#[derive(Clone, Copy, Debug, PartialEq, Eq)]
pub enum Sort {
    Number,
    Truth,
}

/// The part of an expression in parentheses that was read, and waits for an operand.
#[derive(Drop)]
pub enum Part {
    /// The parenthesis alone.
    First,
    Complement,
    Negation,
    Binary(NumOperator, Num64),
    Compare(Comparison, Num64),
    Join(Junction, Truth),
    /// The test of `? :`.
    Then(Truth),
    /// The test and the first number of `? :`.
    Else(Truth, Num64),
}

/// What a part asks for.
pub fn part_sort(part: &Part) -> Sort
    ensures { result ≡ sort_of (part_tree part.now) }
{
    match part {
        Part::First | Part::Negation | Part::Join(_, _) => Sort::Truth,
        Part::Complement | Part::Binary(_, _) | Part::Compare(_, _) => Sort::Number,
        Part::Then(_) | Part::Else(_, _) => Sort::Number,
    }
}

/// The part that an operator begins with its first operand, if it stands where this sort is asked for.
pub fn begun(sort: Sort, sign: Sign, operand: Truth) -> Option<Part>
    ensures { option_map part_tree result ≡ begun_by sort (sign_tree sign) (truth_tree operand) }
{
    match (sign, operand) {
        (Sign::Arithmetic(op), Truth::Num(a)) => Some(Part::Binary(op, a)),
        (Sign::Comparing(op), Truth::Num(a)) if sort == Sort::Truth => Some(Part::Compare(op, a)),
        (Sign::Joining(op), left) if sort == Sort::Truth => Some(Part::Join(op, left)),
        (Sign::Question, test) => Some(Part::Then(test)),
        (_, other) => {
            drop(other);
            None
        }
    }
}

/// The number that an operand is, if it is one.
pub fn number_in(operand: Truth) -> Option<Num64>
    ensures { option_map num_tree result ≡ number_in (truth_tree operand) }
{
    match operand {
        Truth::Num(a) => Some(a),
        other => {
            drop(other);
            None
        }
    }
}

/// The number that an operand is.
pub fn number_of(operand: Truth) -> Num64
    requires { IsOf Sort.Number (truth_tree operand) }
    ensures { trees.num (num_tree result) ≡ truth_tree operand }
{
    match operand {
        Truth::Num(a) => a,
        _ => unreachable!(),
    }
}

/// The expression that a part is with its last operand.
pub fn closed(alloc: Global, part: Part, operand: Truth) -> Result<Truth, AllocError>
    requires sort { IsOf (sort_of (part_tree part)) (truth_tree operand) }
    requires closes { Closes (part_tree part) }
    ensures { IfOk result (λ t. closed_by (part_tree part) (truth_tree operand) ≡ Some (truth_tree t)) }
{
    match part {
        Part::Complement => complement(alloc, number_of(operand)),
        Part::Negation => negation(alloc, operand),
        Part::Binary(op, a) => binary(alloc, op, a, number_of(operand)),
        Part::Compare(op, a) => Ok(Truth::Compare(op, a, number_of(operand))),
        Part::Join(op, left) => join(alloc, op, left, operand),
        Part::Else(test, a) => conditional(alloc, test, a, number_of(operand)),
        Part::First | Part::Then(_) => unreachable!(),
    }
}

fn complement(alloc: Global, a: Num64) -> Result<Truth, AllocError>
    ensures { IfOk result (λ t. truth_tree t ≡ trees.num (trees.complement (num_tree a))) }
{
    let a = boxed!(alloc, a);
    Ok(Truth::Num(Num64::Not(a)))
}

fn negation(alloc: Global, truth: Truth) -> Result<Truth, AllocError>
    ensures { IfOk result (λ t. truth_tree t ≡ trees.negation (truth_tree truth)) }
{
    let truth = boxed!(alloc, truth);
    Ok(Truth::Not(truth))
}

fn binary(alloc: Global, op: NumOperator, a: Num64, b: Num64) -> Result<Truth, AllocError>
    ensures { IfOk result (λ t. truth_tree t ≡ trees.num (trees.binary op (num_tree a) (num_tree b))) }
{
    let a = boxed!(alloc, a, b);
    let b = boxed!(alloc, b, a);
    Ok(Truth::Num(Num64::Binary(op, a, b)))
}

/// A number shifted by a constant.
pub fn shifted(alloc: Global, op: ShiftOperator, a: Num64, by: u8) -> Result<Truth, AllocError>
    ensures { IfOk result (λ t. truth_tree t ≡ trees.num (trees.shift op (num_tree a) by)) }
{
    let a = boxed!(alloc, a);
    Ok(Truth::Num(Num64::Shift(op, a, by)))
}

fn conditional(alloc: Global, test: Truth, a: Num64, b: Num64) -> Result<Truth, AllocError>
    ensures { IfOk result (λ t.
        truth_tree t ≡ trees.num (trees.conditional (truth_tree test) (num_tree a) (num_tree b))) }
{
    let test = boxed!(alloc, test, a, b);
    let a = boxed!(alloc, a, test, b);
    let b = boxed!(alloc, b, test, a);
    Ok(Truth::Num(Num64::Cond(test, a, b)))
}

fn join(alloc: Global, op: Junction, left: Truth, right: Truth) -> Result<Truth, AllocError>
    ensures { IfOk result (λ t. truth_tree t ≡ trees.join op (truth_tree left) (truth_tree right)) }
{
    let left = boxed!(alloc, left, right);
    let right = boxed!(alloc, right, left);
    Ok(Truth::Join(op, left, right))
}

//! The terms of operators.
ghost use Rattle.std.specs.Prelude.{◌≡◌, IfOk};
ghost use Rattle.tm_sem.specs.Value.{binary_value};
ghost use Rattle.tm_term.specs.Table.{count_of, width_of, AreAlike, IsSound};
ghost use Rattle.tm_term.specs.Value.{value_of};
ghost use Rattle.tm_flat.specs.Steps.{IsTerm};
ghost use Rattle.tm_design.specs.declared.sorts.OperatorSort.TheVariants as sorts;
ghost use Rattle.tm_design.specs.Sorts.{sort_of};
ghost use Rattle.tm_flat_exprs.specs.Made.{IsTruth, Makes, MakesTruth, truth_at};
ghost use Rattle.tm_flat_exprs.specs.Operators.{chosen_overrun, is_denial, joined_overrun, joined_term, joined_width};
ghost use Rattle.tm_flat_exprs.specs.Operators.{shifted_term};

use crate::gates::{denial, either, make, where_false, where_true};
use crate::valued::Valued;
use std::alloc::AllocError;
use tm_base::ShiftOperator;
use tm_syntax::tree::BinaryOperator;
use tm_term::{Term, TermId, Terms};

// The term of an operator between two terms, or of the operator that it denies.
fn joined_term(op: BinaryOperator, a: TermId, b: TermId) -> Term
    ensures { result ≡ joined_term op a b }
{
    match op {
        BinaryOperator::Add => Term::Add(a, b),
        BinaryOperator::Subtract => Term::Sub(a, b),
        BinaryOperator::And | BinaryOperator::AndAlso => Term::And(a, b),
        BinaryOperator::Or | BinaryOperator::OrElse => Term::Or(a, b),
        BinaryOperator::Xor => Term::Xor(a, b),
        BinaryOperator::Equal | BinaryOperator::NotEqual => Term::Eq(a, b),
        BinaryOperator::Less | BinaryOperator::GreaterEqual => Term::Less(a, b),
        BinaryOperator::Greater | BinaryOperator::LessEqual => Term::Less(b, a),
    }
}

// Whether an operator is the denial of its term.
fn is_denial(op: BinaryOperator) -> bool
    ensures { result ≡ is_denial op }
{
    matches!(
        op,
        BinaryOperator::NotEqual | BinaryOperator::LessEqual | BinaryOperator::GreaterEqual
    )
}

/// The term of an operator between two terms of one width, which is 1 where it joins truths.
pub(crate) fn joined(
    terms: &mut Terms,
    op: BinaryOperator,
    a: TermId,
    b: TermId,
) -> Result<TermId, AllocError>
    requires alike { AreAlike terms.old (count_of terms.old) a b }
    requires conjunction { sort_of op ≡ sorts.Conjunction → width_of terms.old a ≡ 1 }
    requires disjunction { sort_of op ≡ sorts.Disjunction → width_of terms.old a ≡ 1 }
    ensures { IfOk result (λ id. Makes terms.old terms.new (joined_width (sort_of op) (width_of terms.old a)) id
        (λ u v. binary_value op (width_of terms.old a) (value_of u v a) (value_of u v b))) }
{
    let made = make(terms, joined_term(op, a, b))?;
    if is_denial(op) {
        let id = denial(terms, made)?;
        Ok(id)
    } else {
        Ok(made)
    }
}

/// The term of a shift.
pub(crate) fn shifted_term(op: ShiftOperator, a: TermId, by: u8) -> Term
    ensures { result ≡ shifted_term op a by }
{
    match op {
        ShiftOperator::Left => Term::Shl(a, by),
        ShiftOperator::Right => Term::Shr(a, by),
    }
}

/// Whether an operator overruns, by its first operand and by whether the second one does, which counts only where it is
/// valued.
pub(crate) fn joined_overrun(
    terms: &mut Terms,
    op: BinaryOperator,
    first: Valued,
    second: Option<TermId>,
) -> Result<Option<TermId>, AllocError>
    requires sound { IsSound terms.old }
    requires conjunction { sort_of op ≡ sorts.Conjunction → IsTerm terms.old 1 first.value }
    requires disjunction { sort_of op ≡ sorts.Disjunction → IsTerm terms.old 1 first.value }
    requires first { IsTruth terms.old first.overrun }
    requires second { IsTruth terms.old second }
    ensures { IfOk result (λ id. MakesTruth terms.old terms.new id
        (λ u v. joined_overrun op (value_of u v first.value) (truth_at u v first.overrun) (truth_at u v second))) }
{
    match op {
        BinaryOperator::AndAlso => {
            let other = where_true(terms, first.value, second)?;
            let id = either(terms, first.overrun, other)?;
            Ok(id)
        }
        BinaryOperator::OrElse => {
            let other = where_false(terms, first.value, second)?;
            let id = either(terms, first.overrun, other)?;
            Ok(id)
        }
        _ => {
            let id = either(terms, first.overrun, second)?;
            Ok(id)
        }
    }
}

/// Whether a conditional overruns, by its test and by whether each branch does, which counts only where it is chosen.
pub(crate) fn chosen_overrun(
    terms: &mut Terms,
    test: Valued,
    first: Option<TermId>,
    second: Option<TermId>,
) -> Result<Option<TermId>, AllocError>
    requires sound { IsSound terms.old }
    requires test { IsTerm terms.old 1 test.value }
    requires tested { IsTruth terms.old test.overrun }
    requires first { IsTruth terms.old first }
    requires second { IsTruth terms.old second }
    ensures { IfOk result (λ id. MakesTruth terms.old terms.new id
        (λ u v. chosen_overrun (value_of u v test.value) (truth_at u v test.overrun) (truth_at u v first)
        (truth_at u v second))) }
{
    let one = where_true(terms, test.value, first)?;
    let other = where_false(terms, test.value, second)?;
    let branch = either(terms, one, other)?;
    let id = either(terms, test.overrun, branch)?;
    Ok(id)
}

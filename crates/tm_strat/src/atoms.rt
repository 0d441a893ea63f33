//! Atoms of a specification as tests, read from their terms.

use crate::expressions::Expression;
use crate::numbers::{Counts, Number, greatest, number_at};
use crate::predicates::Predicate;
use tm_cir::block::Comparison;
use tm_term::{Term, TermId, Terms};

/// The test of the term of an atom, where the atom is a comparison of two short expressions over the numbers of a
/// state.
pub(crate) fn predicate_of(terms: &Terms, counts: Counts, id: TermId) -> Option<Predicate> {
    match term_of(terms, id)? {
        Term::Eq(a, b) => comparison(terms, counts, Comparison::Equal, a, b),
        Term::Less(a, b) => comparison(terms, counts, Comparison::Less, a, b),
        Term::Not(inner) => match term_of(terms, inner)? {
            Term::Eq(a, b) => comparison(terms, counts, Comparison::NotEqual, a, b),
            Term::Less(a, b) => comparison(terms, counts, Comparison::GreaterEqual, a, b),
            _ => None,
        },
        _ => None,
    }
}

// The term of an id, where it is known.
fn term_of(terms: &Terms, id: TermId) -> Option<Term> {
    if terms.is_known(id) {
        Some(terms.term(id))
    } else {
        None
    }
}

// The width of the term of an id, or 64 where it is not known.
fn width_of(terms: &Terms, id: TermId) -> u8 {
    if terms.is_known(id) {
        terms.width(id)
    } else {
        64
    }
}

// A comparison of two short expressions.
fn comparison(
    terms: &Terms,
    counts: Counts,
    comparison: Comparison,
    a: TermId,
    b: TermId,
) -> Option<Predicate> {
    let one = expression_of(terms, counts, a)?;
    let other = expression_of(terms, counts, b)?;
    Some(Predicate::Compare(comparison, one, other))
}

// A short expression: a constant, a number, some of its bits, or a sum or difference.
fn expression_of(terms: &Terms, counts: Counts, id: TermId) -> Option<Expression> {
    let mask = greatest(width_of(terms, id));
    match term_of(terms, id)? {
        Term::Const(_, number) => Some(Expression::Constant(number)),
        Term::Add(a, b) => sum(terms, counts, a, b, mask),
        Term::Sub(a, b) => difference(terms, counts, a, b, mask),
        Term::And(a, b) => conjunction(terms, counts, a, b),
        Term::Resize(_, inner) => part_of(terms, counts, inner, mask),
        Term::Input(_) | Term::Shr(_, _) => part_of(terms, counts, id, mask),
        _ => None,
    }
}

// The bits of a number, or of one that is shifted down, that a mask has.
fn part_of(terms: &Terms, counts: Counts, id: TermId, mask: u64) -> Option<Expression> {
    let width = width_of(terms, id);
    match term_of(terms, id)? {
        Term::Input(_) => {
            let number = number_of(terms, counts, id)?;
            if mask >= greatest(width) {
                return Some(Expression::Number(number));
            }
            Some(Expression::Part(number, 0, mask))
        }
        Term::Shr(inner, by) => {
            let number = number_of(terms, counts, inner)?;
            Some(Expression::Part(number, by, mask))
        }
        _ => None,
    }
}

// The number of a state that an input is.
fn number_of(terms: &Terms, counts: Counts, id: TermId) -> Option<Number> {
    match term_of(terms, id)? {
        Term::Input(input) => {
            if input as usize <= counts.vars.saturating_add(counts.processes) {
                Some(number_at(counts, input))
            } else {
                None
            }
        }
        _ => None,
    }
}

// The number of a constant.
fn constant_of(terms: &Terms, id: TermId) -> Option<u64> {
    match term_of(terms, id)? {
        Term::Const(_, number) => Some(number),
        _ => None,
    }
}

// A sum of two numbers, or of one and a constant.
fn sum(terms: &Terms, counts: Counts, a: TermId, b: TermId, mask: u64) -> Option<Expression> {
    let one = number_of(terms, counts, a)?;
    match constant_of(terms, b) {
        Some(constant) => Some(Expression::Plus(one, constant, mask)),
        None => {
            let other = number_of(terms, counts, b)?;
            Some(Expression::Sum(one, other, mask))
        }
    }
}

// A difference of two numbers, or of one and a constant, which is a sum with the constant's complement.
fn difference(
    terms: &Terms,
    counts: Counts,
    a: TermId,
    b: TermId,
    mask: u64,
) -> Option<Expression> {
    let one = number_of(terms, counts, a)?;
    match constant_of(terms, b) {
        Some(constant) => {
            let other = 0_u64.wrapping_sub(constant) & mask;
            Some(Expression::Plus(one, other, mask))
        }
        None => {
            let other = number_of(terms, counts, b)?;
            Some(Expression::Difference(one, other, mask))
        }
    }
}

// The bits of a number that a constant has.
fn conjunction(terms: &Terms, counts: Counts, a: TermId, b: TermId) -> Option<Expression> {
    let number = number_of(terms, counts, a)?;
    let mask = constant_of(terms, b)?;
    Some(Expression::Part(number, 0, mask))
}

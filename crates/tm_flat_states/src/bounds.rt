//! Terms of bounds: which numbers the inputs may have.
ghost use Rattle.std.specs.Prelude.{◌≡◌, ◌<◌, ◌≤◌, ◌^◌, IfOk, Some, length, slice_get, slice_index};
ghost use Rattle.tm_term.specs.Table.{IsKnown, IsSound, width_of};
ghost use Rattle.tm_term.specs.Value.{value_of};
ghost use Rattle.tm_flat.specs.Steps.{IsTerm};
ghost use Rattle.tm_flat_states.specs.Bounds.{FitAll, MakesTest, MeetAll, Meets, bound_number};

use crate::truths::is_number;
use std::alloc::AllocError;
use tm_flat_exprs::{denial, make};
use tm_term::{Term, TermId, Terms};

/// Which numbers an input may have: those up to one, or one alone.
#[derive(Clone, Copy)]
pub(crate) enum Bound {
    AtMost(u64),
    Exactly(u64),
}

// Whether a term is at most a number.
fn is_at_most(terms: &mut Terms, of: TermId, most: u64) -> Result<TermId, AllocError>
    requires sound { IsSound terms.old }
    requires known { IsKnown terms.old of }
    requires within { most < 2 ^ width_of terms.old of }
    ensures { IfOk result (λ id. MakesTest terms.old terms.new id (λ u v. value_of u v of ≤ most)) }
{
    let width = terms.width(of);
    let constant = make(terms, Term::Const(width, most))?;
    let above = make(terms, Term::Less(constant, of))?;
    let id = denial(terms, above)?;
    Ok(id)
}

// Whether a term is the number.
fn is_exactly(terms: &mut Terms, of: TermId, one: u64) -> Result<TermId, AllocError>
    requires sound { IsSound terms.old }
    requires known { IsKnown terms.old of }
    requires within { one < 2 ^ width_of terms.old of }
    ensures { IfOk result (λ id. MakesTest terms.old terms.new id (λ u v. value_of u v of ≡ one)) }
{
    let id = is_number(terms, of, one)?;
    Ok(id)
}

// Whether a term is within a bound.
fn is_within(terms: &mut Terms, of: TermId, bound: Bound) -> Result<TermId, AllocError>
    requires sound { IsSound terms.old }
    requires known { IsKnown terms.old of }
    requires within { bound_number bound < 2 ^ width_of terms.old of }
    ensures { IfOk result (λ id. MakesTest terms.old terms.new id (λ u v. Meets bound (value_of u v of))) }
{
    match bound {
        Bound::AtMost(most) => {
            let id = is_at_most(terms, of, most)?;
            Ok(id)
        }
        Bound::Exactly(one) => {
            let id = is_exactly(terms, of, one)?;
            Ok(id)
        }
    }
}

// Whether a truth holds and an input is within a bound.
fn and_within(
    terms: &mut Terms,
    before: TermId,
    input: u32,
    bound: Bound,
) -> Result<TermId, AllocError>
    requires sound { IsSound terms.old }
    requires before { IsTerm terms.old 1 before }
    requires input { input < length terms.old.inputs }
    requires within { bound_number bound < 2 ^ slice_index terms.old.inputs input }
    ensures { IfOk result (λ id. MakesTest terms.old terms.new id
        (λ u v. (value_of u v before ≡ 1) × Meets bound (slice_index v input))) }
{
    let number = make(terms, Term::Input(input))?;
    let here = is_within(terms, number, bound)?;
    let id = make(terms, Term::And(before, here))?;
    Ok(id)
}

// The bound of a number.
fn bound_at(bounds: &[Bound], index: usize) -> Bound
    requires { index < length bounds.now }
    ensures { slice_get bounds.now index ≡ Some result }
{
    bounds[index]
}

/// Whether the first inputs are within bounds. Linear in the bounds.
pub(crate) fn are_within(terms: &mut Terms, bounds: &[Bound]) -> Result<TermId, AllocError>
    requires sound { IsSound terms.old }
    requires few { length bounds.now < 2 ^ 32 }
    requires fit { FitAll terms.old.inputs bounds.now }
    ensures { IfOk result (λ id. MakesTest terms.old terms.new id (λ u v. MeetAll bounds.now v)) }
{
    let mut all = make(terms, Term::Const(1, 1))?;
    for index in 0..bounds.len() {
        let bound = bound_at(bounds, index);
        all = and_within(terms, all, index as u32, bound)?;
    }
    Ok(all)
}

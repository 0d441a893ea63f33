//! Terms of truths and choices.
ghost use Rattle.std.specs.Prelude.{◌==◌, ◌||◌, ◌&&◌, IfOk, Some, not};
ghost use Rattle.tm_base.specs.Arithmetic.{bit};
ghost use Rattle.tm_term.specs.Table.{Fits, IsSound, term_width};
ghost use Rattle.tm_term.specs.Value.{term_value, value_of};
ghost use Rattle.tm_flat.specs.Steps.{IsTerm};
ghost use Rattle.tm_flat_exprs.specs.Made.{IsTruth, Makes, MakesTruth, truth_at};

use std::alloc::AllocError;
use tm_term::{Term, TermId, Terms};

/// Makes a term. `AllocError` is want of memory.
pub fn make(terms: &mut Terms, term: Term) -> Result<TermId, AllocError>
    requires { Fits terms.old term }
    ensures { IfOk result (λ id.
        Makes terms.old terms.new (term_width terms.old term) id (λ u v. term_value u v term)) }
{
    let id = terms.mk(term)?;
    Ok(id)
}

/// The denial of a truth.
pub fn denial(terms: &mut Terms, a: TermId) -> Result<TermId, AllocError>
    requires { IsTerm terms.old 1 a }
    ensures { IfOk result (λ id. Makes terms.old terms.new 1 id (λ u v. bit (value_of u v a == 0))) }
{
    let id = make(terms, Term::Not(a))?;
    Ok(id)
}

/// Whether one of two truths holds. One that is wanting never does.
pub fn either(
    terms: &mut Terms,
    a: Option<TermId>,
    b: Option<TermId>,
) -> Result<Option<TermId>, AllocError>
    requires sound { IsSound terms.old }
    requires first { IsTruth terms.old a }
    requires second { IsTruth terms.old b }
    ensures { IfOk result (λ id. MakesTruth terms.old terms.new id (λ u v. truth_at u v a || truth_at u v b)) }
{
    let Some(first) = a else {
        return Ok(b);
    };
    let id = either_beside(terms, first, b)?;
    Ok(id)
}

// Whether one of two truths holds, of which the second may be wanting.
fn either_beside(
    terms: &mut Terms,
    a: TermId,
    b: Option<TermId>,
) -> Result<Option<TermId>, AllocError>
    requires sound { IsSound terms.old }
    requires first { IsTerm terms.old 1 a }
    requires second { IsTruth terms.old b }
    ensures { IfOk result (λ id.
        MakesTruth terms.old terms.new id (λ u v. truth_at u v (Some a) || truth_at u v b)) }
{
    let Some(second) = b else {
        return Ok(Some(a));
    };
    let id = make(terms, Term::Or(a, second))?;
    Ok(Some(id))
}

/// Whether a test holds and a truth does.
pub fn where_true(
    terms: &mut Terms,
    test: TermId,
    a: Option<TermId>,
) -> Result<Option<TermId>, AllocError>
    requires sound { IsSound terms.old }
    requires test { IsTerm terms.old 1 test }
    requires truth { IsTruth terms.old a }
    ensures { IfOk result (λ id.
        MakesTruth terms.old terms.new id (λ u v. not (value_of u v test == 0) && truth_at u v a)) }
{
    let Some(truth) = a else {
        return Ok(None);
    };
    let id = make(terms, Term::And(test, truth))?;
    Ok(Some(id))
}

/// Whether a test does not hold and a truth does.
pub fn where_false(
    terms: &mut Terms,
    test: TermId,
    a: Option<TermId>,
) -> Result<Option<TermId>, AllocError>
    requires sound { IsSound terms.old }
    requires test { IsTerm terms.old 1 test }
    requires truth { IsTruth terms.old a }
    ensures { IfOk result (λ id.
        MakesTruth terms.old terms.new id (λ u v. not (not (value_of u v test == 0)) && truth_at u v a)) }
{
    let Some(truth) = a else {
        return Ok(None);
    };
    let fails = denial(terms, test)?;
    let id = make(terms, Term::And(fails, truth))?;
    Ok(Some(id))
}

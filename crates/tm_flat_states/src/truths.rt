//! Terms of truths: comparisons with a number, and the truth of the number that a term has.
ghost use Rattle.std.specs.Prelude.{◌==◌, ◌&&◌, ◌||◌, ◌<◌, ◌≤◌, ◌^◌, IfOk, length};
ghost use Rattle.tm_base.specs.Arithmetic.{bit};
ghost use Rattle.tm_term.specs.Table.{IsKnown, IsSound, width_of};
ghost use Rattle.tm_term.specs.Value.{value_of};
ghost use Rattle.tm_flat_exprs.specs.Made.{IsTruth, Makes, MakesTruth, truth_at, value_at};
ghost use Rattle.tm_flat_states.specs.Truths.{AreTruths, numbered_truth};

use std::alloc::AllocError;
use tm_flat_exprs::{either, make, where_true};
use tm_term::{Term, TermId, Terms};

/// A truth that may be wanting, which then never holds.
pub(crate) fn truth(terms: &mut Terms, id: Option<TermId>) -> Result<TermId, AllocError>
    requires sound { IsSound terms.old }
    requires truth { IsTruth terms.old id }
    ensures { IfOk result (λ made. Makes terms.old terms.new 1 made (λ u v. value_at u v id)) }
{
    match id {
        Some(id) => Ok(id),
        None => {
            let never = make(terms, Term::Const(1, 0))?;
            Ok(never)
        }
    }
}

/// Whether a term has a number.
pub(crate) fn is_number(terms: &mut Terms, of: TermId, number: u64) -> Result<TermId, AllocError>
    requires sound { IsSound terms.old }
    requires known { IsKnown terms.old of }
    requires within { number < 2 ^ width_of terms.old of }
    ensures { IfOk result (λ id. Makes terms.old terms.new 1 id (λ u v. bit (value_of u v of == number))) }
{
    let width = terms.width(of);
    let constant = make(terms, Term::Const(width, number))?;
    let id = make(terms, Term::Eq(of, constant))?;
    Ok(id)
}

// Whether a truth holds, or a term has a number and another truth holds.
fn or_at_number(
    terms: &mut Terms,
    before: Option<TermId>,
    of: TermId,
    number: u64,
    here: Option<TermId>,
) -> Result<Option<TermId>, AllocError>
    requires sound { IsSound terms.old }
    requires known { IsKnown terms.old of }
    requires within { number < 2 ^ width_of terms.old of }
    requires before { IsTruth terms.old before }
    requires here { IsTruth terms.old here }
    ensures { IfOk result (λ id. MakesTruth terms.old terms.new id
        (λ u v. truth_at u v before || ((value_of u v of == number) && truth_at u v here))) }
{
    let stands = is_number(terms, of, number)?;
    let both = where_true(terms, stands, here)?;
    let id = either(terms, before, both)?;
    Ok(id)
}

/// Whether the truth of the number holds that a term has. Linear in the truths.
pub(crate) fn truth_of_number(
    terms: &mut Terms,
    of: TermId,
    truths: &[Option<TermId>],
) -> Result<Option<TermId>, AllocError>
    requires sound { IsSound terms.old }
    requires known { IsKnown terms.old of }
    requires within { length truths.now ≤ 2 ^ width_of terms.old of }
    requires truths { AreTruths terms.old truths.now }
    ensures { IfOk result (λ id. MakesTruth terms.old terms.new id
        (λ u v. truth_at u v (numbered_truth truths.now (value_of u v of)))) }
{
    let mut found = None;
    for number in 0..truths.len() {
        found = or_at_number(terms, found, of, number as u64, truths[number])?;
    }
    Ok(found)
}

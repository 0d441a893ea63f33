//! What a step changes that leaves the state as it is, but for who moved last.
ghost use Rattle.std.specs.Prelude.{◌-◌, ◌<◌, ◌≤◌, ◌^◌, IfOk, length, slice_index};
ghost use Rattle.tm_game_steps.specs.Inner.Inputs.{AreInputTerms};
ghost use Rattle.tm_game_steps.specs.Passing.{ArePassing};
ghost use Rattle.tm_term.specs.Value.{Extends};

use std::alloc::{AllocError, Global};
use tm_term::{Term, TermId, Terms};

/// A term for each of so many first inputs, which is the input, but for the last one, which is a number.
///
/// Every earlier id means what it meant, also where memory runs out.
pub fn pass_terms(
    alloc: Global,
    terms: &mut Terms,
    count: usize,
    last: u64,
) -> Result<Vec<TermId>, AllocError>
    requires some { 0 < count }
    requires inputs { count ≤ length terms.old.inputs }
    requires few { length terms.old.inputs < 2 ^ 32 }
    requires last { last < 2 ^ slice_index terms.old.inputs (count - 1) }

    ensures earlier { Extends terms.old terms.new }
    ensures terms { IfOk result (λ ids. ArePassing terms.new count last ids.items) }
{
    let mut ids = input_terms(alloc, terms, count - 1)?;
    let input = terms.mk(Term::Input((count - 1) as u32))?;
    let width = terms.width(input);
    let id = terms.mk(Term::Const(width, last))?;
    ids.push(id)?;
    Ok(ids)
}

// The first inputs.
fn input_terms(alloc: Global, terms: &mut Terms, count: usize) -> Result<Vec<TermId>, AllocError>
    requires inputs { count ≤ length terms.old.inputs }
    requires few { length terms.old.inputs < 2 ^ 32 }

    ensures earlier { Extends terms.old terms.new }
    ensures terms { IfOk result (λ ids. AreInputTerms terms.new count ids.items) }
{
    let mut ids = Vec::new(alloc);
    for input in 0..count {
        let id = terms.mk(Term::Input(input as u32))?;
        ids.push(id)?;
    }
    Ok(ids)
}

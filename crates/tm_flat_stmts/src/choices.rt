//! Choices, as numbers that are read from the bits that there are for them.
ghost use Rattle.std.specs.Prelude.{◌≡◌, ◌<◌, IfOk, Some, bit_or, slice_get, slice_index};
ghost use Rattle.tm_base.specs.Arithmetic.{IsWidth, resize, shift_left};
ghost use Rattle.tm_term.specs.Table.{IsSound};
ghost use Rattle.tm_term.specs.Value.{value_of};
ghost use Rattle.tm_flat.specs.Steps.{IsTerm};
ghost use Rattle.tm_flat.specs.BitRun.{number_at};
ghost use Rattle.tm_flat_exprs.specs.Made.{Makes};
ghost use Rattle.tm_flat_stmts.specs.Choices.{AreChoiceBits, choice_bit};

use std::alloc::AllocError;
use tm_flat_exprs::make;
use tm_term::{Term, TermId, Terms};

// The number of so many bits of choices and one more at its low end.
fn one_more_bit(terms: &mut Terms, id: TermId, input: u32, width: u8) -> Result<TermId, AllocError>
    requires width { IsWidth width }
    requires many { 1 < width }
    requires term { IsTerm terms.old width id }
    requires input { slice_get terms.old.inputs input ≡ Some 1 }
    ensures { IfOk result (λ next. Makes terms.old terms.new width next
        (λ u v. bit_or (shift_left width (value_of u v id) 1) (resize width (slice_index v input)))) }
{
    let twice = make(terms, Term::Shl(id, 1))?;
    let bit = make(terms, Term::Input(input))?;
    let low = make(terms, Term::Resize(width, bit))?;
    let next = make(terms, Term::Or(twice, low))?;
    Ok(next)
}

/// The number that so many bits of choices are from a position on, the most significant first. `first` is the number of
/// the first input that is such a bit.
pub fn choice_number(
    terms: &mut Terms,
    first: u32,
    position: u64,
    width: u8,
) -> Result<TermId, AllocError>
    requires sound { IsSound terms.old }
    requires width { IsWidth width }
    requires bits { AreChoiceBits terms.old first position width }
    ensures { IfOk result (λ id. Makes terms.old terms.new width id
        (λ u v. number_at (choice_bit first v) position width)) }
{
    let start = first + position as u32;
    let top = make(terms, Term::Input(start))?;
    let mut id = make(terms, Term::Resize(width, top))?;
    for index in 1..width {
        id = one_more_bit(terms, id, start + u32::from(index), width)?;
    }
    Ok(id)
}

//! Whether the driver can be picked, as a term.
ghost use Rattle.std.specs.Prelude.{◌&&◌, ◌<◌, ◌==◌, ◌||◌, ◌≡◌, ◌^◌, ℕ, IfOk, length, slice_index};
ghost use Rattle.tm_base.specs.Arithmetic.{IsWidth};
ghost use Rattle.tm_syntax.specs.Design.{DesignTree};
ghost use Rattle.tm_syntax.specs.Design.Locations.{is_magic_at};
ghost use Rattle.tm_syntax.specs.Design.View.{design_tree};
ghost use Rattle.tm_locations.specs.Locations.{AreLocations, table_of};
ghost use Rattle.tm_term.specs.Table.{IsSound};
ghost use Rattle.tm_term.specs.Value.{value_of};
ghost use Rattle.tm_flat.specs.Inputs.{AreSmall, first_choice, input_widths};
ghost use Rattle.tm_flat.specs.Steps.{IsTerm};
ghost use Rattle.tm_flat_exprs.specs.Made.{IsTruth, MakesTruth, truth_at};
ghost use Rattle.tm_plain.specs.Machine.{AreLocated};
ghost use Rattle.tm_flat_moves.specs.Turn.{MakesTurn};

use std::alloc::AllocError;
use tm_flat_exprs::{either, make};
use tm_locations::{LocationRow, Locations};
use tm_syntax::design::Design;
use tm_term::{Term, TermId, Terms};

// Whether a truth holds, or a place is the number of a location.
fn block_more(
    terms: &mut Terms,
    before: Option<TermId>,
    place: TermId,
    number: u64,
    width: u8,
) -> Result<Option<TermId>, AllocError>
    requires sound { IsSound terms.old }
    requires before { IsTruth terms.old before }
    requires place { IsTerm terms.old width place }
    requires width { IsWidth width }
    requires within { number < 2 ^ width }
    ensures { IfOk result (λ id.
        MakesTruth terms.old terms.new id (λ u v. truth_at u v before || (value_of u v place == number))) }
{
    let here = make(terms, Term::Const(width, number))?;
    let stands = make(terms, Term::Eq(place, here))?;
    let truth = either(terms, before, Some(stands))?;
    Ok(truth)
}

// Whether a truth holds, or a place is the number of a location that is a magic block.
fn one_more_block(
    terms: &mut Terms,
    before: Option<TermId>,
    row: &LocationRow,
    place: TermId,
    number: u64,
    width: u8,
) -> Result<Option<TermId>, AllocError>
    requires sound { IsSound terms.old }
    requires before { IsTruth terms.old before }
    requires place { IsTerm terms.old width place }
    requires width { IsWidth width }
    requires within { number < 2 ^ width }
    ensures { IfOk result (λ id. MakesTruth terms.old terms.new id
        (λ u v. truth_at u v before || (row.now.is_magic && (value_of u v place == number)))) }
{
    if row.is_magic {
        return block_more(terms, before, place, number, width);
    }
    Ok(before)
}

// Whether a process stands at a magic block, whose location is the input of a number.
fn magic_place(
    terms: &mut Terms,
    locations: &Locations<'_>,
    input: u32,
) -> Result<Option<TermId>, AllocError>
    requires sound { IsSound terms.old }
    requires within { input < length terms.old.inputs }
    requires places { length (table_of locations.now).rows < 2 ^ slice_index terms.old.inputs input }
    ensures { (d : DesignTree) (p : ℕ) → AreLocations (table_of locations.now) d p → IfOk result (λ id.
        MakesTruth terms.old terms.new id (λ u v. is_magic_at d p (slice_index v input))) }
{
    let width = terms.inputs()[input as usize];
    let place = make(terms, Term::Input(input))?;
    let rows = locations.rows();
    let mut stands = None;
    for index in 0..rows.len() {
        stands = one_more_block(terms, stands, &rows[index], place, index as u64 + 1, width)?;
    }
    Ok(stands)
}

/// Whether some process of a design stands at a magic block, by the locations of all of them. Linear in these.
/// `AllocError` is want of memory.
pub fn driver_turn(
    terms: &mut Terms,
    design: &Design,
    all: &[Locations<'_>],
) -> Result<Option<TermId>, AllocError>
    requires sound { IsSound terms.old }
    requires located { AreLocated design.now (length design.now.processes.items) all.now }
    requires inputs { terms.old.inputs ≡ input_widths (design_tree design.now) }
    requires few { first_choice (design_tree design.now) < 2 ^ 32 }
    requires small { AreSmall (design_tree design.now) }
    ensures { IfOk result (MakesTurn terms.old terms.new (design_tree design.now)) }
{
    let first = design.vars.len() as u32;
    let mut turn = None;
    for index in 0..all.len() {
        let here = magic_place(terms, &all[index], first + index as u32)?;
        turn = either(terms, turn, here)?;
    }
    Ok(turn)
}

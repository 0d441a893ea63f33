//! Where processes stand, as terms.
ghost use Rattle.std.specs.Prelude.{◌≡◌, ◌+◌, ◌<◌, ◌≤◌, ◌^◌, ℕ, Bool, IfOk, OnOk, Some, length, slice_index};
ghost use Rattle.tm_game_steps.specs.Inner.Below.{ArePlacesBelow};
ghost use Rattle.tm_game_steps.specs.Places.{ArePlaces, IsTest, flag_at, flags_of};
ghost use Rattle.tm_term.specs.Value.{Extends};

use std::alloc::{AllocError, Global};
use tm_term::{Term, TermId, Terms};

/// A location of a process, whether it is a magic block, and the term that is 1 exactly where the process stands there.
#[derive(Clone, Copy)]
pub struct Place {
    pub process: usize,
    pub location: usize,
    pub magic: bool,
    pub stands: TermId,
}

/// The places of all processes, process by process, whose locations are the inputs from one on. `magic` tells of each
/// location whether it is a magic block.
///
/// Every earlier id means what it meant, also where memory runs out.
pub fn place_terms(
    alloc: Global,
    terms: &mut Terms,
    magic: &[Vec<bool>],
    first: usize,
) -> Result<Vec<Place>, AllocError>
    requires inputs { first + length magic.now ≤ length terms.old.inputs }
    requires few { length terms.old.inputs < 2 ^ 32 }
    requires locations { (p k : ℕ) (b : Bool) → flag_at (flags_of magic.now) p k ≡ Some b
        → k < 2 ^ slice_index terms.old.inputs (first + p) }

    ensures earlier { Extends terms.old terms.new }
    ensures places { IfOk result (λ places. ArePlaces terms.new (flags_of magic.now) first places.items) }
{
    let mut places = Vec::new(alloc);
    for process in 0..magic.len() {
        push_places(terms, magic, process, first, &mut places)?;
    }
    Ok(places)
}

// Puts the places of one process behind those of the processes before it.
fn push_places(
    terms: &mut Terms,
    magic: &[Vec<bool>],
    process: usize,
    first: usize,
    places: &mut Vec<Place>,
) -> Result<(), AllocError>
    requires inputs { first + length magic.now ≤ length terms.old.inputs }
    requires few { length terms.old.inputs < 2 ^ 32 }
    requires locations { (p k : ℕ) (b : Bool) → flag_at (flags_of magic.now) p k ≡ Some b
        → k < 2 ^ slice_index terms.old.inputs (first + p) }
    requires process { process < length magic.now }
    requires below { ArePlacesBelow terms.old (flags_of magic.now) first process 0 places.old.items }

    ensures earlier { Extends terms.old terms.new }
    ensures below { OnOk result
        (ArePlacesBelow terms.new (flags_of magic.now) first (process + 1) 0 places.new.items) }
{
    let row = &magic[process];
    for location in 0..row.len() {
        let stands = stands(terms, first + process, location as u64)?;
        places.push(Place {
            process,
            location,
            magic: row[location],
            stands,
        })?;
    }
    Ok(())
}

// The term that is 1 exactly where an input has a value.
fn stands(terms: &mut Terms, input: usize, value: u64) -> Result<TermId, AllocError>
    requires input { input < length terms.old.inputs }
    requires few { length terms.old.inputs < 2 ^ 32 }
    requires value { value < 2 ^ slice_index terms.old.inputs input }

    ensures earlier { Extends terms.old terms.new }
    ensures test { IfOk result (IsTest terms.new input value) }
{
    let width = terms.inputs()[input];
    let number = terms.mk(Term::Input(input as u32))?;
    let constant = terms.mk(Term::Const(width, value))?;
    let same = terms.mk(Term::Eq(number, constant))?;
    Ok(same)
}

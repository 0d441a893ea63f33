//! Where the driver can be picked, and where a process can, as terms.
ghost use Rattle.std.specs.Prelude.{◌≡◌, ◌==◌, ◌||◌, ◌+◌, ◌<◌, ℕ, IfOk, length, map, not, slice_index};
ghost use Rattle.std.specs.List.{AllZip, list_any, range_with_len};
ghost use Rattle.tm_base.specs.Arithmetic.{bit};
ghost use Rattle.tm_syntax.specs.Design.{DesignTree};
ghost use Rattle.tm_syntax.specs.Design.Locations.{end_number, is_magic_at};
ghost use Rattle.tm_syntax.specs.Design.Sizes.{bits_of_number};
ghost use Rattle.tm_syntax.specs.Design.View.{design_tree};
ghost use Rattle.tm_states.specs.States.{HaveLocations};
ghost use Rattle.tm_locations.specs.Locations.{AreLocations, table_of};
ghost use Rattle.tm_term.specs.Table.{IsSound};
ghost use Rattle.tm_flat.specs.Flat.{step_terms};
ghost use Rattle.tm_flat.specs.Inputs.{input_widths};
ghost use Rattle.tm_flat.specs.IsFlat.{location_numbers};
ghost use Rattle.tm_flat.specs.Steps.{IsProcessStep};
ghost use Rattle.tm_flat_exprs.specs.Made.{IsTruth, Makes, MakesTruth, truth_at};
ghost use Rattle.tm_flat_states.specs.Actors.{legal_truth, magic_truth};
ghost use Rattle.tm_flat_states.specs.Markable.{IsMarkable};

use crate::magic::is_magic;
use crate::marker::Marker;
use crate::truths::{is_number, truth, truth_of_number};
use std::alloc::{AllocError, Global};
use tm_flat::FlatStep;
use tm_flat_exprs::{denial, either, make};
use tm_locations::Locations;
use tm_term::{Term, TermId, Terms};

// A truth at a location, where this is a magic block.
fn magic_truth(locations: &Locations<'_>, place: usize, always: TermId) -> Option<TermId>
    ensures { (d : DesignTree) (p : ℕ) → AreLocations (table_of locations.now) d p
        → result ≡ magic_truth d p always place }
{
    if is_magic(locations, place) {
        return Some(always);
    }
    None
}

// For each location of a process, its start and its end included, a truth where it is a magic block.
fn magic_truths(
    alloc: Global,
    locations: &Locations<'_>,
    always: TermId,
) -> Result<Vec<Option<TermId>>, AllocError>
    ensures { IfOk result (λ truths. (d : DesignTree) (p : ℕ) → AreLocations (table_of locations.now) d p
        → truths.items ≡ map (magic_truth d p always) (location_numbers d p)) }
{
    let mut truths = Vec::new(alloc);
    for place in 0..locations.rows().len() + 2 {
        truths.push(magic_truth(locations, place, always))?;
    }
    Ok(truths)
}

// Whether the step from a location has an outcome, where this is no magic block.
fn legal_truth(locations: &Locations<'_>, steps: &[FlatStep], place: usize) -> Option<TermId>
    ensures { (d : DesignTree) (p : ℕ) → AreLocations (table_of locations.now) d p
        → result ≡ legal_truth d p (map step_terms steps.now) place }
{
    if is_magic(locations, place) {
        return None;
    }
    match steps.get(place) {
        Some(step) => Some(step.legal),
        None => None,
    }
}

// For each location of a process, by its steps, whether the step from it has an outcome, where it is no magic block.
fn legal_truths(
    alloc: Global,
    locations: &Locations<'_>,
    steps: &[FlatStep],
) -> Result<Vec<Option<TermId>>, AllocError>
    ensures { IfOk result (λ truths. (d : DesignTree) (p : ℕ) → AreLocations (table_of locations.now) d p
        → truths.items ≡ map (legal_truth d p (map step_terms steps.now)) (range_with_len 0 (length steps.now))) }
{
    let mut truths = Vec::new(alloc);
    for place in 0..steps.len() {
        truths.push(legal_truth(locations, steps, place))?;
    }
    Ok(truths)
}

impl<'s> Marker<'s> {
    // The location of a process.
    fn place(&self, terms: &mut Terms, process: usize) -> Result<TermId, AllocError>
        requires markable { IsMarkable self.now.design.now }
        requires sound { IsSound terms.old }
        requires inputs { terms.old.inputs ≡ input_widths (design_tree self.now.design.now) }
        requires process { process < length self.now.design.now.processes.items }
        ensures { IfOk result (λ id. Makes terms.old terms.new
            (bits_of_number (end_number (design_tree self.now.design.now) process)) id
            (λ u v. slice_index v (length self.now.design.now.vars.items + process))) }
    {
        let id = make(
            terms,
            Term::Input((self.design.vars.len() + process) as u32),
        )?;
        Ok(id)
    }

    // Whether a process stands at a magic block.
    fn stands_at_magic(
        &self,
        alloc: Global,
        terms: &mut Terms,
        process: usize,
    ) -> Result<Option<TermId>, AllocError>
        requires located { HaveLocations (design_tree self.now.design.now) self.now.locations.now }
        requires markable { IsMarkable self.now.design.now }
        requires sound { IsSound terms.old }
        requires inputs { terms.old.inputs ≡ input_widths (design_tree self.now.design.now) }
        requires process { process < length self.now.design.now.processes.items }
        ensures { IfOk result (λ id. MakesTruth terms.old terms.new id (λ u v. is_magic_at
            (design_tree self.now.design.now) process
            (slice_index v (length self.now.design.now.vars.items + process)))) }
    {
        let place = self.place(terms, process)?;
        let always = make(terms, Term::Const(1, 1))?;
        let truths = magic_truths(alloc, &self.locations[process], always)?;
        let id = truth_of_number(terms, place, truths.as_slice())?;
        Ok(id)
    }

    // Whether a truth holds or a process stands at a magic block.
    fn or_at_magic(
        &self,
        alloc: Global,
        terms: &mut Terms,
        before: Option<TermId>,
        process: usize,
    ) -> Result<Option<TermId>, AllocError>
        requires located { HaveLocations (design_tree self.now.design.now) self.now.locations.now }
        requires markable { IsMarkable self.now.design.now }
        requires sound { IsSound terms.old }
        requires inputs { terms.old.inputs ≡ input_widths (design_tree self.now.design.now) }
        requires process { process < length self.now.design.now.processes.items }
        requires before { IsTruth terms.old before }
        ensures { IfOk result (λ id. MakesTruth terms.old terms.new id (λ u v. truth_at u v before || is_magic_at
            (design_tree self.now.design.now) process
            (slice_index v (length self.now.design.now.vars.items + process)))) }
    {
        let here = self.stands_at_magic(alloc, terms, process)?;
        let id = either(terms, before, here)?;
        Ok(id)
    }

    /// Whether some process stands at a magic block. Linear in the locations. `AllocError` is want of memory.
    pub(crate) fn turn(
        &self,
        alloc: Global,
        terms: &mut Terms,
    ) -> Result<Option<TermId>, AllocError>
        requires located { HaveLocations (design_tree self.now.design.now) self.now.locations.now }
        requires markable { IsMarkable self.now.design.now }
        requires sound { IsSound terms.old }
        requires inputs { terms.old.inputs ≡ input_widths (design_tree self.now.design.now) }
        ensures { IfOk result (λ id. MakesTruth terms.old terms.new id (λ u v. list_any
            (λ p. is_magic_at (design_tree self.now.design.now) p
            (slice_index v (length self.now.design.now.vars.items + p)))
            (range_with_len 0 (length self.now.design.now.processes.items)))) }
    {
        let mut turn = None;
        for process in 0..self.design.processes.len() {
            turn = self.or_at_magic(alloc, terms, turn, process)?;
        }
        Ok(turn)
    }

    /// Whether the step of a process from its location has an outcome, where this is no magic block. Linear in the
    /// locations. `AllocError` is want of memory.
    pub(crate) fn enabled(
        &self,
        alloc: Global,
        terms: &mut Terms,
        process: usize,
        steps: &[FlatStep],
    ) -> Result<Option<TermId>, AllocError>
        requires located { HaveLocations (design_tree self.now.design.now) self.now.locations.now }
        requires markable { IsMarkable self.now.design.now }
        requires sound { IsSound terms.old }
        requires inputs { terms.old.inputs ≡ input_widths (design_tree self.now.design.now) }
        requires process { process < length self.now.design.now.processes.items }
        requires steps { AllZip (IsProcessStep terms.old (design_tree self.now.design.now) process)
            (location_numbers (design_tree self.now.design.now) process) (map step_terms steps.now) }
        ensures { IfOk result (λ id. MakesTruth terms.old terms.new id (λ u v. truth_at u v (legal_truth
            (design_tree self.now.design.now) process (map step_terms steps.now)
            (slice_index v (length self.now.design.now.vars.items + process))))) }
    {
        let place = self.place(terms, process)?;
        let truths = legal_truths(alloc, &self.locations[process], steps)?;
        let id = truth_of_number(terms, place, truths.as_slice())?;
        Ok(id)
    }

    /// Whether an actor of this number moved last, or a truth does not hold. `AllocError` is want of memory.
    pub(crate) fn moved_or_idle(
        &self,
        terms: &mut Terms,
        number: u64,
        busy: Option<TermId>,
    ) -> Result<TermId, AllocError>
        requires markable { IsMarkable self.now.design.now }
        requires sound { IsSound terms.old }
        requires inputs { terms.old.inputs ≡ input_widths (design_tree self.now.design.now) }
        requires number { number < 2 + length self.now.design.now.processes.items }
        requires busy { IsTruth terms.old busy }
        ensures { IfOk result (λ id. Makes terms.old terms.new 1 id (λ u v. bit ((slice_index v
            (length self.now.design.now.vars.items + length self.now.design.now.processes.items) == number)
            || not (truth_at u v busy)))) }
    {
        let input = (self.design.vars.len() + self.design.processes.len()) as u32;
        let last = make(terms, Term::Input(input))?;
        let moved = is_number(terms, last, number)?;
        let may = truth(terms, busy)?;
        let idle = denial(terms, may)?;
        let id = make(terms, Term::Or(moved, idle))?;
        Ok(id)
    }
}

//! How high the levels stand that terms read.
ghost use Rattle.std.specs.Prelude.{◌≡◌, ◌<◌, ◌≤◌, All, IfOk, Some, length, slice_index};
ghost use Rattle.tm_blast.specs.Numbers.{level_lists};
ghost use Rattle.tm_game_steps.specs.Inner.Reading.{AreReadings, AreReadingsBelow, ReadsBelow};
ghost use Rattle.tm_term.specs.Parts.{parts_of};
ghost use Rattle.tm_term.specs.Table.{IsKnown, term_of};
ghost use Rattle.tm_term.specs.declared.term.Parts.TheVariants as parts;
ghost use Rattle.tm_term.specs.declared.term.Term.{Term as TermData};
ghost use Rattle.tm_term.specs.declared.term.TermId.{TermId as Id};

use std::alloc::{AllocError, Global};
use tm_flat::FlatStep;
use tm_term::{Parts, Term, TermId, Terms};

/// For each term a number above all levels that it reads.
pub(crate) fn readings(
    alloc: Global,
    terms: &Terms,
    levels: &[Vec<u32>],
) -> Result<Vec<u64>, AllocError>
    requires inputs { length levels.now ≡ length terms.now.inputs }
    ensures { IfOk result (λ reads. AreReadings terms.now (level_lists levels.now) reads.items) }
{
    let mut reads = Vec::new(alloc);
    for id in 0..terms.count() {
        let above = above_term(terms, TermId(id), levels, &reads);
        reads.push(above)?;
    }
    Ok(reads)
}

// A number above all levels that a term reads, from those of its parts.
fn above_term(terms: &Terms, id: TermId, levels: &[Vec<u32>], reads: &[u64]) -> u64
    requires known { IsKnown terms.now id }
    requires inputs { length levels.now ≡ length terms.now.inputs }
    requires parts { AreReadingsBelow terms.now (level_lists levels.now) id.0 reads.now }

    ensures { ReadsBelow terms.now (level_lists levels.now) id result }
{
    let term = terms.term(id);
    match term.parts() {
        Parts::None => above_leaf(terms, id, levels),
        Parts::One(a) => reads[a.0 as usize],
        Parts::Two(a, b) => greater(reads[a.0 as usize], reads[b.0 as usize]),
        Parts::Three(c, a, b) => {
            let branches = greater(reads[a.0 as usize], reads[b.0 as usize]);
            greater(reads[c.0 as usize], branches)
        }
    }
}

// A number above the levels of an input. A constant has none.
fn above_leaf(terms: &Terms, id: TermId, levels: &[Vec<u32>]) -> u64
    requires known { IsKnown terms.now id }
    requires inputs { length levels.now ≡ length terms.now.inputs }
    requires leaf { (term : TermData) → term_of terms.now id ≡ Some term → parts_of term ≡ parts.None }

    ensures { ReadsBelow terms.now (level_lists levels.now) id result }
{
    match terms.term(id) {
        Term::Const(..) => 0,
        Term::Input(input) => above_levels(&levels[input as usize]),
        Term::Not(_)
        | Term::And(..)
        | Term::Or(..)
        | Term::Xor(..)
        | Term::Add(..)
        | Term::Sub(..)
        | Term::Shl(..)
        | Term::Shr(..)
        | Term::Eq(..)
        | Term::Less(..)
        | Term::Ite(..)
        | Term::Resize(..) => unreachable!(),
    }
}

// A number above some levels.
fn above_levels(levels: &[u32]) -> u64
    ensures { All (λ level. level < result) levels.now }
{
    let mut above = 0;
    for index in 0..levels.len() {
        above = greater(above, levels[index] as u64 + 1);
    }
    above
}

/// A number above all levels that the terms of a step read, where `reads` has one for each term.
pub(crate) fn above_step(step: &FlatStep, reads: &[u64]) -> u64
    requires legal { step.now.legal.0 < length reads.now }
    requires error { step.now.error.0 < length reads.now }
    requires next { All (λ (id : Id). id.0 < length reads.now) step.now.next.items }

    ensures legal { slice_index reads.now step.now.legal.0 ≤ result }
    ensures error { slice_index reads.now step.now.error.0 ≤ result }
    ensures next { All (λ (id : Id). slice_index reads.now id.0 ≤ result) step.now.next.items }
{
    let truths = greater(reads[step.legal.0 as usize], reads[step.error.0 as usize]);
    greater(truths, above_terms(&step.next, reads))
}

// A number above all levels that some terms read, where `reads` has one for each term.
fn above_terms(ids: &[TermId], reads: &[u64]) -> u64
    requires { All (λ (id : Id). id.0 < length reads.now) ids.now }
    ensures { All (λ (id : Id). slice_index reads.now id.0 ≤ result) ids.now }
{
    let mut above = 0;
    for index in 0..ids.len() {
        let id = ids[index];
        above = greater(above, reads[id.0 as usize]);
    }
    above
}

// The greater of two numbers.
fn greater(one: u64, other: u64) -> u64
    ensures first { one ≤ result }
    ensures second { other ≤ result }
{
    if one < other { other } else { one }
}

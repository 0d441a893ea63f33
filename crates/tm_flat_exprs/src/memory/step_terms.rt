//! The terms of parameters and locals that live for one step.
ghost use Rattle.std.specs.Prelude.{◌≡◌, ◌+◌, ◌^◌, ◌++◌, ◌∷◌, ◌≤◌, ◌<◌, [], ℕ, All, IfOk, IfSome, List, OnOk, length, map};
ghost use Rattle.std.specs.Prelude.{slice_index};
ghost use Rattle.tm_base.specs.Arithmetic.{IsWidth};
ghost use Rattle.tm_term.specs.Table.{IsSound, Table};
ghost use Rattle.tm_term.specs.Value.{value_of};
ghost use Rattle.tm_flat.specs.Steps.{IsTerm};
ghost use Rattle.tm_flat_exprs.specs.Made.{Makes};
ghost use Rattle.tm_flat_exprs.specs.Versions.{HasWidth, IsLatest, next_value, step_value};
ghost use Rattle.tm_flat_exprs.specs.Inner.Appending.{appended, moved, moved_number};
ghost use Rattle.tm_flat_exprs.specs.Inner.Merging.{Appends, MergesSteps};
ghost use Rattle.tm_flat_exprs.specs.Inner.Shared.{HaveSame};
ghost use Rattle.tm_flat_exprs.specs.declared.memory.versions.Version.TheVariants as made;

use crate::gates::make;
use crate::memory::choices::chosen;
use crate::memory::versions::{Version, Versions};
use std::alloc::{AllocError, Global};
use std::marker::Model;
use tm_design::StepCell;
use tm_term::{Term, TermId, Terms};

/// The terms of parameters and locals that live for one step, by the versions that they had: where memories become one,
/// no term is made before one is read.
///
/// Contracts see the versions.
#[derive(Drop)]
pub struct StepTerms {
    versions: Versions,
}

impl Model for StepTerms {
    ghost use Rattle.std.specs.Prelude.{List};
    ghost use Rattle.tm_flat_exprs.specs.declared.memory.versions.Version.{Version};

    ghost Value = { List Version };

    ghost view = { λ v. v.versions };
}

impl StepTerms {
    /// No parameter or local has got a value.
    pub fn new(alloc: Global) -> StepTerms
        ensures { result ≡ [] }
    {
        StepTerms {
            versions: Versions::new(alloc),
        }
    }

    /// Gives a parameter or local a term. `AllocError` is want of memory.
    pub fn set(&mut self, cell: StepCell, id: TermId) -> Result<(), AllocError>
        ensures { OnOk result (self.new ≡ self.old ++ made.Put cell id ∷ []) }
    {
        self.versions.push(Version::Put(cell, id))?;
        Ok(())
    }

    /// A copy: a word for each 64 versions. `AllocError` is want of memory.
    pub fn copied(&self) -> Result<StepTerms, AllocError>
        ensures { IfOk result (λ copy. copy ≡ self.now) }
    {
        Ok(StepTerms {
            versions: self.versions.copied()?,
        })
    }

    /// The term of a parameter or local, of so many bits. Where memories became one since it got its term that is made
    /// of those of all versions, and else it is found.
    pub(crate) fn read(
        &self,
        terms: &mut Terms,
        cell: StepCell,
        width: u8,
    ) -> Result<TermId, AllocError>
        requires sound { IsSound terms.old }
        requires width { IsWidth width }
        requires versions { All (HasWidth terms.old cell width) self.now }
        ensures { IfOk result (λ id. Makes terms.old terms.new width id (λ u v. step_value u v self.now cell)) }
    {
        let zero = make(terms, Term::Const(width, 0))?;
        match self.latest(cell, zero) {
            Some(id) => Ok(id),
            None => {
                let id = self.chosen(terms, cell, width, zero)?;
                Ok(id)
            }
        }
    }

    // The term that a parameter or local has got since the last choice. Where there is no choice, and it has got none,
    // it is that of the number 0.
    fn latest(&self, cell: StepCell, zero: TermId) -> Option<TermId>
        ensures { IfSome result (IsLatest self.now cell zero) }
    {
        let count = self.versions.len();
        for behind in 0..count {
            match self.versions.get(count - 1 - behind) {
                Some(Version::Put(found, id)) => {
                    if found == cell {
                        return Some(id);
                    }
                }
                _ => return None,
            }
        }
        Some(zero)
    }

    // The term of a parameter or local in the last version, by those in all before it.
    fn chosen(
        &self,
        terms: &mut Terms,
        cell: StepCell,
        width: u8,
        zero: TermId,
    ) -> Result<TermId, AllocError>
        requires zero { Makes terms.old terms.old width zero (λ u v. 0) }
        requires versions { All (HasWidth terms.old cell width) self.now }
        ensures { IfOk result (λ id. Makes terms.old terms.new width id (λ u v. step_value u v self.now cell)) }
    {
        let mut ids = Vec::new(self.versions.allocator());
        ids.push(zero)?;
        let mut last = zero;
        for index in 0..self.versions.len() {
            if let Some(version) = self.versions.get(index) {
                last = next_term(terms, cell, &ids, last, version, width, zero)?;
                ids.push(last)?;
            }
        }
        Ok(last)
    }

    /// Makes of these terms those that are these where a truth holds, and else other ones; a parameter or local that
    /// either lacks has the value 0 there. Linear in the versions of both, with a comparison for each that they have in
    /// common.
    pub(crate) fn merge(self, guard: TermId, other: &StepTerms) -> Result<StepTerms, AllocError>
        ensures { IfOk result (MergesSteps guard self other.now) }
    {
        let common = self.versions.common(&other.versions);
        let own = self.versions.len();
        let others = other.versions.len();
        if own == common && others == common {
            return Ok(self);
        }
        if others <= own {
            let mut all = self.versions;
            let behind = append(&mut all, guard, &other.versions, common)?;
            all.push(Version::Choice(guard, own, behind))?;
            return Ok(StepTerms { versions: all });
        }
        let mut all = other.versions.copied()?;
        let behind = append(&mut all, guard, &self.versions, common)?;
        all.push(Version::Choice(guard, behind, others))?;
        Ok(StepTerms { versions: all })
    }
}

// The term of the version of a number, and that of the number 0 if there is none.
fn term_at(ids: &[TermId], number: usize, zero: TermId) -> TermId
    ensures value { (u : Table) (v : List ℕ) → value_of u v zero ≡ 0
        → value_of u v result ≡ slice_index (map (value_of u v) ids.now) number }
    ensures width { (t : Table) (w : ℕ) → IsTerm t w zero → All (IsTerm t w) ids.now → IsTerm t w result }
{
    if number < ids.len() {
        return ids[number];
    }
    zero
}

// The term of a parameter or local in a version, by those in the versions before it and in the last of them.
fn next_term(
    terms: &mut Terms,
    cell: StepCell,
    ids: &[TermId],
    last: TermId,
    version: Version,
    width: u8,
    zero: TermId,
) -> Result<TermId, AllocError>
    requires zero { Makes terms.old terms.old width zero (λ u v. 0) }
    requires ids { All (IsTerm terms.old width) ids.now }
    requires last { IsTerm terms.old width last }
    requires version { HasWidth terms.old cell width version }
    ensures { IfOk result (λ id. Makes terms.old terms.new width id
        (λ u v. next_value u v cell (map (value_of u v) ids.now) (value_of u v last) version)) }
{
    match version {
        Version::Put(found, id) => {
            if found == cell {
                return Ok(id);
            }
            Ok(last)
        }
        Version::Choice(guard, a, b) => {
            let first = term_at(ids, a, zero);
            let second = term_at(ids, b, zero);
            let id = chosen(terms, guard, first, second)?;
            Ok(id)
        }
    }
}

// The number that a version gets behind other ones: those in common keep theirs, the later ones move on.
fn number_behind(number: usize, common: usize, index: usize, by: usize) -> usize
    requires { index + by < 2 ^ 64 }
    ensures { result ≡ moved_number by common index number }
{
    if number <= common {
        return number;
    }
    if number <= index {
        return number + by;
    }
    0
}

// A version by the new numbers.
fn version_behind(version: Version, common: usize, index: usize, by: usize) -> Version
    requires { index + by < 2 ^ 64 }
    ensures { result ≡ moved by common index version }
{
    match version {
        Version::Put(cell, id) => Version::Put(cell, id),
        Version::Choice(guard, a, b) => Version::Choice(
            guard,
            number_behind(a, common, index, by),
            number_behind(b, common, index, by),
        ),
    }
}

// Puts the versions of a list behind those of another one, with which it has the first ones in common.
fn append_rest(
    all: &mut Versions,
    guard: TermId,
    other: &Versions,
    common: usize,
) -> Result<(), AllocError>
    requires { common ≤ length all.old }
    ensures { OnOk result (all.new ≡ appended guard all.old other.now common) }
{
    let start = all.len();
    all.push(Version::Choice(guard, common, common))?;
    for index in common..other.len() {
        if let Some(version) = other.get(index) {
            let by = all.len() - index;
            all.push(version_behind(version, common, index, by))?;
        }
    }
    Ok(())
}

// Puts the versions of a list behind those of another one, as far as they are not in common, and answers the number
// that its last one has got.
fn append(
    all: &mut Versions,
    guard: TermId,
    other: &Versions,
    common: usize,
) -> Result<usize, AllocError>
    requires { HaveSame common 0 all.old other.now }
    ensures { IfOk result (Appends guard all.old other.now all.new) }
{
    if other.len() == common {
        return Ok(common);
    }
    append_rest(all, guard, other, common)?;
    Ok(all.len())
}

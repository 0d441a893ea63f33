//! A list of versions whose copies share all but the last ones.
ghost use Rattle.std.specs.Prelude.{◌≡◌, ◌++◌, ◌∷◌, ◌+◌, ◌*◌, [], IfOk, IsTrue, OnOk, length, slice_get};
ghost use Rattle.tm_flat_exprs.specs.Inner.Shared.{HaveSame};

use std::alloc::{AllocError, Global};
use std::marker::Model;
use std::rc::Rc;
use tm_design::StepCell;
use tm_term::TermId;

// How many versions the parts have that copies share.
const PART: usize = 64;

/// How a version of the terms of parameters and locals was made. Versions have numbers: in version 0 none has a term,
/// and each later one is the next of a list.
#[derive(Clone, Copy, PartialEq, Eq)]
pub enum Version {
    /// The version before, after a parameter or local got a term.
    Put(StepCell, TermId),
    /// The version of the first number where a truth holds, and else that of the second one. The number of none means
    /// version 0.
    Choice(TermId, usize, usize),
}

/// Versions in order. A copy costs a word for each 64 of them.
///
/// Contracts see the list.
#[derive(Drop)]
pub(crate) struct Versions {
    full: Vec<Rc<Vec<Version>>>,
    last: Vec<Version>,
    count: usize,
}

impl Model for Versions {
    ghost use Rattle.std.specs.Prelude.{◌≡◌, All, List, length};
    ghost use Rattle.tm_flat_exprs.specs.declared.memory.versions.Version.{Version};
    ghost use Rattle.tm_flat_exprs.specs.Inner.Shared.{IsFull, all_versions};

    ghost Value = { List Version };

    ghost view = { λ v. all_versions v.full.items v.last.items };

    ghost invariant = { λ v. (v.count ≡ length (all_versions v.full.items v.last.items))
        × All IsFull v.full.items };
}

// The version at an index.
fn version_at(versions: &[Version], index: usize) -> Option<Version>
    ensures { result ≡ slice_get versions.now index }
{
    versions.get(index).copied()
}

impl Versions {
    /// No version.
    pub(crate) fn new(alloc: Global) -> Versions
        ensures { result ≡ [] }
    {
        Versions {
            full: Vec::new(alloc),
            last: Vec::new(alloc),
            count: 0,
        }
    }

    /// How many there are.
    pub(crate) fn len(&self) -> usize
        ensures { result ≡ length self.now }
    {
        self.count
    }

    /// The allocator.
    pub(crate) fn allocator(&self) -> Global {
        *self.last.allocator()
    }

    /// The one at an index. Takes constant time.
    pub(crate) fn get(&self, index: usize) -> Option<Version>
        ensures { result ≡ slice_get self.now index }
    {
        let part = index / PART;
        if part < self.full.len() {
            return version_at(&self.full[part], index % PART);
        }
        version_at(&self.last, index - self.full.len() * PART)
    }

    // Lets copies share the last ones, if they are a whole part.
    fn share_last(&mut self) -> Result<(), AllocError>
        ensures { self.new ≡ self.old }
    {
        if self.last.len() != PART {
            return Ok(());
        }
        let alloc = self.allocator();
        let part = Rc::new(alloc, Vec::from_slice(alloc, &self.last)?)?;
        self.full.push(part)?;
        self.last.clear();
        Ok(())
    }

    /// One more. `AllocError` is want of memory.
    pub(crate) fn push(&mut self, version: Version) -> Result<(), AllocError>
        ensures { OnOk result (self.new ≡ self.old ++ version ∷ []) }
    {
        let Some(count) = self.count.checked_add(1) else {
            return Err(AllocError);
        };
        self.share_last()?;
        self.last.push(version)?;
        self.count = count;
        Ok(())
    }

    /// A copy. `AllocError` is want of memory.
    pub(crate) fn copied(&self) -> Result<Versions, AllocError>
        ensures { IfOk result (λ copy. copy ≡ self.now) }
    {
        let alloc = self.allocator();
        Ok(Versions {
            full: Vec::from_clones(alloc, &self.full)?,
            last: Vec::from_slice(alloc, &self.last)?,
            count: self.count,
        })
    }

    // Whether two lists have the same part at a place, if both have one.
    fn has_part(&self, other: &Versions, place: usize) -> bool
        ensures { IsTrue result → HaveSame (place * 64 + 64) (place * 64) self.now other.now }
    {
        if place < self.full.len() && place < other.full.len() {
            return self.full[place].as_slice() == other.full[place].as_slice();
        }
        false
    }

    // Whether two lists have the same version at an index.
    fn has_version(&self, other: &Versions, index: usize) -> bool
        ensures { IsTrue result → slice_get self.now index ≡ slice_get other.now index }
    {
        let Some(own) = self.get(index) else {
            return false;
        };
        let Some(others) = other.get(index) else {
            return false;
        };
        own == others
    }

    // How many versions are in the first parts that two lists have in common.
    fn common_parts(&self, other: &Versions) -> usize
        ensures { HaveSame result 0 self.now other.now }
    {
        let parts = self.len() / PART;
        for place in 0..parts {
            if !self.has_part(other, place) {
                return place * PART;
            }
        }
        parts * PART
    }

    /// How many versions two lists have in common at their starts. Linear in the shorter one.
    pub(crate) fn common(&self, other: &Versions) -> usize
        ensures { HaveSame result 0 self.now other.now }
    {
        let least = self.len().min(other.len());
        for index in self.common_parts(other)..least {
            if !self.has_version(other, index) {
                return index;
            }
        }
        least
    }
}

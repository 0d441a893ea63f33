//! Entries whose levels may stand in any order.
ghost use Rattle.std.specs.Prelude.{◌≡◌, ◌<◌, IfOk, IsTrue, []};
ghost use Rattle.tm_cert.specs.Nodes.{ids_of};
ghost use Rattle.tm_reorder.specs.Inner.Raised.{AreBelow, AreBranches, AreBranchesOf, IsBranchOf, Keeps};

use indexmap::IndexSet;
use std::alloc::{AllocError, Global};
use std::hash::BuildHasherDefault;
use tm_cert::Entry;
use tm_dd::NumberHasher;

// Entries, each over those before it: 0 is false, 1 is true, and `k + 2` is the entry `k`. None stands twice.
#[derive(Drop)]
pub(crate) struct Graph {
    pub(crate) entries: IndexSet<Entry, BuildHasherDefault<NumberHasher>>,
}

impl Graph {
    // No entries, with room for so many.
    pub(crate) fn new(alloc: Global, room: usize) -> Result<Graph, AllocError>
        ensures { IfOk result (λ g. g.entries.keys ≡ []) }
    {
        let entries = IndexSet::with_capacity_and_hasher(alloc, room, BuildHasherDefault::new())?;
        Ok(Graph { entries })
    }

    // The id of what is `hi` where the bit of the level is 1, and `lo` where it is 0.
    pub(crate) fn branch(&mut self, level: u32, lo: u64, hi: u64) -> Result<u64, AllocError>
        requires branches { AreBranches self.old.entries.keys }
        requires lo { lo < ids_of self.old.entries.keys }
        requires hi { hi < ids_of self.old.entries.keys }

        ensures branches { AreBranches self.new.entries.keys }
        ensures keeps { Keeps self.old.entries.keys self.new.entries.keys }
        ensures answer { IfOk result (IsBranchOf self.old.entries.keys self.new.entries.keys level lo hi) }
    {
        if lo == hi {
            return Ok(lo);
        }
        let (position, _) = self.entries.insert_full(Entry { level, lo, hi })?;
        prove!(position < self.entries.len());
        Ok(position as u64 + 2)
    }

    // Two such ids, one over the first ids of two pairs and one over the second ones. Over whole pairs they are one.
    pub(crate) fn branches(
        &mut self,
        level: u32,
        lo: (u64, u64),
        hi: (u64, u64),
    ) -> Result<(u64, u64), AllocError>
        requires branches { AreBranches self.old.entries.keys }
        requires lo { AreBelow (ids_of self.old.entries.keys) lo }
        requires hi { AreBelow (ids_of self.old.entries.keys) hi }

        ensures branches { AreBranches self.new.entries.keys }
        ensures keeps { Keeps self.old.entries.keys self.new.entries.keys }
        ensures answer { IfOk result (AreBranchesOf self.old.entries.keys self.new.entries.keys level lo hi) }
    {
        let off = self.branch(level, lo.0, hi.0)?;
        if are_whole(lo, hi) {
            return Ok((off, off));
        }
        let on = self.branch(level, lo.1, hi.1)?;
        Ok((off, on))
    }
}

// Whether each of two pairs is whole: one id twice.
pub(crate) fn are_whole(lo: (u64, u64), hi: (u64, u64)) -> bool
    ensures { IsTrue result → (lo.0 ≡ lo.1) × (hi.0 ≡ hi.1) }
{
    lo.0 == lo.1 && hi.0 == hi.1
}

//! Sets whose levels are put into another order, one after the other: each is raised to its place among those above it
//! (after Rudell 1993). What an entry is for each value of that level is found for all entries in one pass.
ghost use Rattle.std.specs.Prelude.{◌≡◌, ◌+◌, ◌<◌, ◌^◌, ℕ, All, IfOk, List, length};
ghost use Rattle.tm_cert.specs.declared.cert.Entry.{Entry as Node};
ghost use Rattle.tm_cert.specs.Nodes.{ids_of};
ghost use Rattle.tm_game_bits.specs.Order.{IsOrder};
ghost use Rattle.tm_numbering.specs.Parts.{ArePairs};
ghost use Rattle.tm_reorder.specs.Inner.Raised.{AreBelow, AreBranches, ArePart, AreParts, AreRaised, IsBranch, IsPartOver, Keeps, entries_of};
ghost use Rattle.tm_reorder.specs.Inner.Told.{IsTold};

use crate::graph::{Graph, are_whole};
use std::alloc::{AllocError, Global};
use tm_cert::Entry;
use tm_game_bits::levels_by_place;

// Sets by their ids, and the graph that these are of once a level was raised.
#[derive(Drop)]
pub(crate) struct Sets {
    pub(crate) raised: Option<Graph>,
    pub(crate) ids: Vec<u64>,
}

impl Sets {
    // The entries that the ids are of, where the sets were given with these.
    pub(crate) fn entries<'s>(&'s self, given: &'s [Entry]) -> &'s [Entry]
        ensures { result.now ≡ entries_of self.now.raised given.now }
    {
        match &self.raised {
            Some(graph) => graph.entries.as_slice(),
            None => given,
        }
    }
}

// The parts of an entry that stands above a level: the entry over its whole children.
fn kept_whole(
    graph: &mut Graph,
    lo: (u64, u64),
    hi: (u64, u64),
    entry: Entry,
    level: u32,
) -> Result<(u64, u64), AllocError>
    requires branches { AreBranches graph.old.entries.keys }
    requires lo { AreBelow (ids_of graph.old.entries.keys) lo }
    requires hi { AreBelow (ids_of graph.old.entries.keys) hi }

    ensures branches { AreBranches graph.new.entries.keys }
    ensures keeps { Keeps graph.old.entries.keys graph.new.entries.keys }
    ensures part { IfOk result (IsPartOver graph.old.entries.keys graph.new.entries.keys level entry lo hi) }
{
    let whole_lo = graph.branch(level, lo.0, lo.1)?;
    let whole_hi = graph.branch(level, hi.0, hi.1)?;
    let whole = graph.branch(entry.level, whole_lo, whole_hi)?;
    Ok((whole, whole))
}

// The parts of an entry from those of its children.
fn part_of(
    graph: &mut Graph,
    parts: &[(u64, u64)],
    entry: Entry,
    level: u32,
    ranks: &[u32],
) -> Result<(u64, u64), AllocError>
    requires branches { AreBranches graph.old.entries.keys }
    requires parts { (old : List Node) × (k : ℕ) × AreParts old graph.old.entries.keys level k parts.now
        × IsBranch old k entry }

    ensures branches { AreBranches graph.new.entries.keys }
    ensures keeps { Keeps graph.old.entries.keys graph.new.entries.keys }
    ensures part { IfOk result (λ part. (old : List Node) (k : ℕ)
        → AreParts old graph.old.entries.keys level k parts.now → IsBranch old k entry
        → ArePart old graph.new.entries.keys level (k + 2) part) }
{
    let lo = parts[entry.lo as usize];
    let hi = parts[entry.hi as usize];
    if entry.level == level {
        return Ok((lo.0, hi.1));
    }
    if !are_whole(lo, hi) && is_above(ranks, entry.level, level) {
        kept_whole(graph, lo, hi, entry, level)
    } else {
        graph.branches(entry.level, lo, hi)
    }
}

// Whether a level is to stand above another one.
fn is_above(ranks: &[u32], level: u32, other: u32) -> bool {
    rank_of(ranks, level) < rank_of(ranks, other)
}

// The parts of all ids of some entries.
fn all_parted(
    alloc: Global,
    graph: &mut Graph,
    entries: &[Entry],
    level: u32,
    ranks: &[u32],
) -> Result<Vec<(u64, u64)>, AllocError>
    requires branches { AreBranches graph.old.entries.keys }
    requires entries { AreBranches entries.now }

    ensures branches { AreBranches graph.new.entries.keys }
    ensures parts { IfOk result (λ parts.
        AreParts entries.now graph.new.entries.keys level (length entries.now) parts.items) }
{
    let mut parts = Vec::with_capacity(alloc, entries.len().saturating_add(2))?;
    parts.push((0, 0))?;
    parts.push((1, 1))?;
    for entry in entries {
        let part = part_of(graph, &parts, *entry, level, ranks)?;
        parts.push(part)?;
    }
    Ok(parts)
}

// The ids of sets from the parts of their ids before.
fn all_joined(
    alloc: Global,
    graph: &mut Graph,
    parts: &[(u64, u64)],
    ids: &[u64],
    level: u32,
) -> Result<Vec<u64>, AllocError>
    requires branches { AreBranches graph.old.entries.keys }
    requires ids { All (λ id. id < length parts.now) ids.now }
    requires parts { (old : List Node) × (k : ℕ) × AreParts old graph.old.entries.keys level k parts.now }

    ensures branches { AreBranches graph.new.entries.keys }
    ensures told { IfOk result (λ news. (old : List Node) (k : ℕ)
        → AreParts old graph.old.entries.keys level k parts.now
        → ArePairs (IsTold (λ v. v) old graph.new.entries.keys) ids.now news.items (length ids.now)) }
{
    let mut joined = Vec::new(alloc);
    for id in ids {
        let (off, on) = parts[*id as usize];
        let whole = graph.branch(level, off, on)?;
        joined.push(whole)?;
    }
    Ok(joined)
}

// The sets of these ids, with a level raised above all that have a greater rank.
fn raised(
    alloc: Global,
    entries: &[Entry],
    ids: &[u64],
    level: u32,
    ranks: &[u32],
) -> Result<Sets, AllocError>
    requires entries { AreBranches entries.now }
    requires ids { All (λ id. id < ids_of entries.now) ids.now }
    ensures { IfOk result (λ sets. (given : List Node)
        → AreRaised entries.now ids.now (entries_of sets.raised given) sets.ids.items) }
{
    let mut graph = Graph::new(alloc, entries.len())?;
    let parts = all_parted(alloc, &mut graph, entries, level, ranks)?;
    let ids = all_joined(alloc, &mut graph, &parts, ids, level)?;
    Ok(Sets {
        raised: Some(graph),
        ids,
    })
}

// Whether an entry reads a level.
fn is_read(entries: &[Entry], level: u32) -> bool {
    for entry in entries {
        if entry.level == level {
            return true;
        }
    }
    false
}

// The sets of these ids, with the levels raised one after the other, each among those above it, until they stand in the
// order of their ranks.
pub(crate) fn all_raised(
    alloc: Global,
    entries: &[Entry],
    ids: &[u64],
    ranks: &[u32],
) -> Result<Sets, AllocError>
    requires entries { AreBranches entries.now }
    requires ids { All (λ id. id < ids_of entries.now) ids.now }
    ensures { IfOk result (λ sets.
        AreRaised entries.now ids.now (entries_of sets.raised entries.now) sets.ids.items) }
{
    let mut sets = Sets {
        raised: None,
        ids: Vec::from_slice(alloc, ids)?,
    };
    let mut lowest = 0;
    let mut level: u32 = 0;
    for rank in ranks {
        if *rank < lowest && is_read(sets.entries(entries), level) {
            sets = raised(alloc, sets.entries(entries), &sets.ids, level, ranks)?;
        }
        lowest = lowest.max(*rank);
        level = level.wrapping_add(1);
    }
    Ok(sets)
}

// The ranks of the levels of an order among those of another one.
pub(crate) fn ranks_in(alloc: Global, old: &[u32], new: &[u32]) -> Result<Vec<u32>, AllocError>
    requires order { IsOrder (length new.now) new.now }
    requires count { length new.now < 2 ^ 32 }
{
    let levels = levels_by_place(alloc, new)?;
    let mut ranks = Vec::new(alloc);
    for place in old {
        ranks.push(rank_of(&levels, *place))?;
    }
    Ok(ranks)
}

// What is listed for a level or a place.
fn rank_of(ranks: &[u32], index: u32) -> u32 {
    match ranks.get(index as usize) {
        Some(rank) => *rank,
        None => 0,
    }
}

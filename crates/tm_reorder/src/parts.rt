//! The parts of a certificate, numbered anew. Each takes the diagrams of the old numbers, and adds the entries that
//! it wants.
ghost use Rattle.std.specs.Prelude.{◌≡◌, ◌<◌, All, IfOk, Some, length, map, slice_get};
ghost use Rattle.tm_reorder.specs.Inner.Parts.{AreEntries, AreIds, AreLevelSets, ChainStands, ChainsStand, GoalsStand, LevelStands, LevelsStand, Places, RanksStand, Stands};

use indexmap::IndexSet;
use std::alloc::{AllocError, Global};
use tm_cert::{CertLevel, Entry, Rank};
use tm_dd::{NodeId, Store};
use tm_numbering::number;

// A set.
pub(crate) fn place(
    store: &Store,
    ids: &[NodeId],
    kept: &mut IndexSet<NodeId>,
    nodes: &mut Vec<Entry>,
    set: u64,
) -> Result<u64, AllocError>
    requires ids { AreIds store.now ids.now }
    requires set { set < length ids.now }
    requires entries { AreEntries store.now kept.old.keys nodes.old.items }
    ensures { IfOk result (λ n. Places store.now kept.old.keys kept.new.keys nodes.new.items
        (Stands ids.now kept.new.keys set n)) }
{
    let id = id_at(ids, set);
    number(store, kept, nodes, id)
}

// The diagram of an old number.
fn id_at(ids: &[NodeId], set: u64) -> NodeId
    requires { set < length ids.now }
    ensures { slice_get ids.now set ≡ Some result }
{
    ids[set as usize]
}

// The ranks of a goal.
fn place_ranks(
    alloc: Global,
    store: &Store,
    ids: &[NodeId],
    kept: &mut IndexSet<NodeId>,
    nodes: &mut Vec<Entry>,
    ranks: &[Rank],
) -> Result<Vec<Rank>, AllocError>
    requires ids { AreIds store.now ids.now }
    requires sets { All (λ r. r.set < length ids.now) ranks.now }
    requires entries { AreEntries store.now kept.old.keys nodes.old.items }
    ensures { IfOk result (λ placed. Places store.now kept.old.keys kept.new.keys nodes.new.items
        (RanksStand ids.now kept.new.keys ranks.now placed.items)) }
{
    let mut placed = Vec::new(alloc);
    for rank in ranks {
        let fair = rank.fair;
        let set = place(store, ids, kept, nodes, rank.set)?;
        placed.push(Rank { fair, set })?;
    }
    Ok(placed)
}

// The ranks of all goals.
pub(crate) fn place_goals(
    alloc: Global,
    store: &Store,
    ids: &[NodeId],
    kept: &mut IndexSet<NodeId>,
    nodes: &mut Vec<Entry>,
    goals: &[Vec<Rank>],
) -> Result<Vec<Vec<Rank>>, AllocError>
    requires ids { AreIds store.now ids.now }
    requires sets { All (All (λ r. r.set < length ids.now)) (map (λ ranks. ranks.items) goals.now) }
    requires entries { AreEntries store.now kept.old.keys nodes.old.items }
    ensures { IfOk result (λ placed. Places store.now kept.old.keys kept.new.keys nodes.new.items
        (GoalsStand ids.now kept.new.keys (map (λ ranks. ranks.items) goals.now)
        (map (λ ranks. ranks.items) placed.items))) }
{
    let mut placed = Vec::new(alloc);
    for ranks in goals {
        let row = place_ranks(alloc, store, ids, kept, nodes, ranks.as_slice())?;
        placed.push(row)?;
    }
    Ok(placed)
}

// A chain of sets.
fn place_chain(
    alloc: Global,
    store: &Store,
    ids: &[NodeId],
    kept: &mut IndexSet<NodeId>,
    nodes: &mut Vec<Entry>,
    chain: &[u64],
) -> Result<Vec<u64>, AllocError>
    requires ids { AreIds store.now ids.now }
    requires sets { All (λ set. set < length ids.now) chain.now }
    requires entries { AreEntries store.now kept.old.keys nodes.old.items }
    ensures { IfOk result (λ placed. Places store.now kept.old.keys kept.new.keys nodes.new.items
        (ChainStands ids.now kept.new.keys chain.now placed.items)) }
{
    let mut placed = Vec::new(alloc);
    for set in chain {
        let number = place(store, ids, kept, nodes, *set)?;
        placed.push(number)?;
    }
    Ok(placed)
}

// The chains of a level.
fn place_chains(
    alloc: Global,
    store: &Store,
    ids: &[NodeId],
    kept: &mut IndexSet<NodeId>,
    nodes: &mut Vec<Entry>,
    chains: &[Vec<u64>],
) -> Result<Vec<Vec<u64>>, AllocError>
    requires ids { AreIds store.now ids.now }
    requires sets { All (All (λ set. set < length ids.now)) (map (λ chain. chain.items) chains.now) }
    requires entries { AreEntries store.now kept.old.keys nodes.old.items }
    ensures { IfOk result (λ placed. Places store.now kept.old.keys kept.new.keys nodes.new.items
        (ChainsStand ids.now kept.new.keys (map (λ chain. chain.items) chains.now)
        (map (λ chain. chain.items) placed.items))) }
{
    let mut placed = Vec::new(alloc);
    for chain in chains {
        let row = place_chain(alloc, store, ids, kept, nodes, chain.as_slice())?;
        placed.push(row)?;
    }
    Ok(placed)
}

// A level of an environment's certificate.
fn place_level(
    alloc: Global,
    store: &Store,
    ids: &[NodeId],
    kept: &mut IndexSet<NodeId>,
    nodes: &mut Vec<Entry>,
    level: &CertLevel,
) -> Result<CertLevel, AllocError>
    requires ids { AreIds store.now ids.now }
    requires sets { AreLevelSets (length ids.now) level.now }
    requires entries { AreEntries store.now kept.old.keys nodes.old.items }
    ensures { IfOk result (λ placed. Places store.now kept.old.keys kept.new.keys nodes.new.items
        (LevelStands ids.now kept.new.keys level.now placed)) }
{
    let goal = level.goal;
    let set = place(store, ids, kept, nodes, level.set)?;
    let chains = place_chains(alloc, store, ids, kept, nodes, level.chains.as_slice())?;
    Ok(CertLevel { goal, set, chains })
}

// The levels of an environment's certificate.
pub(crate) fn place_levels(
    alloc: Global,
    store: &Store,
    ids: &[NodeId],
    kept: &mut IndexSet<NodeId>,
    nodes: &mut Vec<Entry>,
    levels: &[CertLevel],
) -> Result<Vec<CertLevel>, AllocError>
    requires ids { AreIds store.now ids.now }
    requires sets { All (AreLevelSets (length ids.now)) levels.now }
    requires entries { AreEntries store.now kept.old.keys nodes.old.items }
    ensures { IfOk result (λ placed. Places store.now kept.old.keys kept.new.keys nodes.new.items
        (LevelsStand ids.now kept.new.keys levels.now placed.items)) }
{
    let mut placed = Vec::new(alloc);
    for level in levels {
        let row = place_level(alloc, store, ids, kept, nodes, level)?;
        placed.push(row)?;
    }
    Ok(placed)
}

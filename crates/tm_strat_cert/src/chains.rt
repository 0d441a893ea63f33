//! The levels of lost states in a certificate, with their chains.
ghost use Rattle.std.specs.Prelude.{IfOk, map};
ghost use Rattle.tm_cert.specs.Cert.{LevelData};
ghost use Rattle.tm_solve.specs.Iterates.{Each, KnowsChain, KnowsLevel};
ghost use Rattle.tm_solve_exact.specs.Exact.{exact_ids};
ghost use Rattle.tm_strat_cert.specs.Inner.Placed.{ChainsPlaced, IsNumbering, LevelPlaced, LevelsPlaced, Places, SetsPlaced};

use crate::place::place;
use indexmap::IndexSet;
use std::alloc::{AllocError, Global};
use tm_cert::{CertLevel, Entry};
use tm_dd::NodeId;
use tm_game::Game;
use tm_solve::{Chain, LevelSet};

// All levels.
pub(crate) fn place_levels(
    alloc: Global,
    game: &Game,
    kept: &mut IndexSet<NodeId>,
    nodes: &mut Vec<Entry>,
    levels: &[LevelSet],
) -> Result<Vec<CertLevel>, AllocError>
    requires known { Each (KnowsLevel (exact_ids game.now)) levels.now }
    requires numbered { IsNumbering game.now kept.old.keys nodes.old.items }
    ensures { IfOk result (λ placed. Places game.now kept.old.keys kept.new.keys nodes.new.items
        (LevelsPlaced kept.new.keys levels.now placed.items)) }
{
    let mut placed = Vec::new(alloc);
    for level in levels {
        let one = place_level(alloc, game, kept, nodes, level)?;
        placed.push(one)?;
    }
    Ok(placed)
}

// A level: its set, then its chains.
fn place_level(
    alloc: Global,
    game: &Game,
    kept: &mut IndexSet<NodeId>,
    nodes: &mut Vec<Entry>,
    level: &LevelSet,
) -> Result<CertLevel, AllocError>
    requires known { KnowsLevel (exact_ids game.now) level.now }
    requires numbered { IsNumbering game.now kept.old.keys nodes.old.items }
    ensures { IfOk result (λ placed. Places game.now kept.old.keys kept.new.keys nodes.new.items
        (LevelPlaced kept.new.keys level.now placed)) }
{
    let set = place(game, kept, nodes, level.set)?;
    let chains = place_chains(alloc, game, kept, nodes, level.chains.as_slice())?;
    Ok(CertLevel {
        goal: level.goal,
        set,
        chains,
    })
}

// The chains of a level.
fn place_chains(
    alloc: Global,
    game: &Game,
    kept: &mut IndexSet<NodeId>,
    nodes: &mut Vec<Entry>,
    chains: &[Chain],
) -> Result<Vec<Vec<u64>>, AllocError>
    requires known { Each (KnowsChain (exact_ids game.now)) chains.now }
    requires numbered { IsNumbering game.now kept.old.keys nodes.old.items }
    ensures { IfOk result (λ placed. Places game.now kept.old.keys kept.new.keys nodes.new.items
        (ChainsPlaced kept.new.keys chains.now (map (λ sets. sets.items) placed.items))) }
{
    let mut placed = Vec::new(alloc);
    for chain in chains {
        let sets = place_chain(alloc, game, kept, nodes, chain.sets.as_slice())?;
        placed.push(sets)?;
    }
    Ok(placed)
}

// The sets of a chain.
fn place_chain(
    alloc: Global,
    game: &Game,
    kept: &mut IndexSet<NodeId>,
    nodes: &mut Vec<Entry>,
    sets: &[NodeId],
) -> Result<Vec<u64>, AllocError>
    requires known { Each (exact_ids game.now).knows sets.now }
    requires numbered { IsNumbering game.now kept.old.keys nodes.old.items }
    ensures { IfOk result (λ placed. Places game.now kept.old.keys kept.new.keys nodes.new.items
        (SetsPlaced kept.new.keys sets.now placed.items)) }
{
    let mut placed = Vec::new(alloc);
    for set in sets {
        let n = place(game, kept, nodes, *set)?;
        placed.push(n)?;
    }
    Ok(placed)
}

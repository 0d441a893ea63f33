//! Copies of iterates, from which two solutions may go on.
ghost use Rattle.std.specs.Prelude.{◌≡◌, IfOk, map};
ghost use Rattle.tm_solve.specs.Begun.{IsCopy, ids_of, plain_level};

use crate::iterates::{Chain, Iterates, LevelSet};
use std::alloc::{AllocError, Global};

/// A copy of a set and its levels, without ranked sets. Want of memory is the only error.
pub fn copied(alloc: Global, it: &Iterates) -> Result<Iterates, AllocError>
    ensures { IfOk result (IsCopy it.now) }
{
    let levels = copied_levels(alloc, it.levels.as_slice())?;
    Ok(Iterates {
        region: it.region,
        ranks: Vec::new(alloc),
        levels,
    })
}

fn copied_levels(alloc: Global, levels: &[LevelSet]) -> Result<Vec<LevelSet>, AllocError>
    ensures { IfOk result (λ v. map plain_level v.items ≡ map plain_level levels.now) }
{
    let mut copies = Vec::new(alloc);
    for level in levels {
        let copy = copied_level(alloc, level)?;
        copies.push(copy)?;
    }
    Ok(copies)
}

fn copied_level(alloc: Global, level: &LevelSet) -> Result<LevelSet, AllocError>
    ensures { IfOk result (λ l. plain_level l ≡ plain_level level.now) }
{
    let chains = copied_chains(alloc, level.chains.as_slice())?;
    Ok(LevelSet {
        goal: level.goal,
        set: level.set,
        chains,
    })
}

fn copied_chains(alloc: Global, chains: &[Chain]) -> Result<Vec<Chain>, AllocError>
    ensures { IfOk result (λ v. map ids_of v.items ≡ map ids_of chains.now) }
{
    let mut copies = Vec::new(alloc);
    for chain in chains {
        let sets = Vec::from_slice(alloc, chain.sets.as_slice())?;
        copies.push(Chain { sets })?;
    }
    Ok(copies)
}

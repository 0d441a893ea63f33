//! The ids of the sets of certificates.
ghost use Rattle.std.specs.Prelude.{◌≡◌, ◌++◌, IfOk, OnOk, map};
ghost use Rattle.tm_reorder.specs.Inner.Keys.{chain_keys, driver_keys, environment_keys, level_keys, rank_keys};

use std::alloc::{AllocError, Global};
use tm_cert::{CertLevel, Rank};

// Those of ranks, behind others.
fn push_ranks(keys: &mut Vec<u64>, ranks: &[Rank]) -> Result<(), AllocError>
    ensures { OnOk result (keys.new.items ≡ keys.old.items ++ rank_keys ranks.now) }
{
    for rank in ranks {
        keys.push(rank.set)?;
    }
    Ok(())
}

// Those of a driver's certificate.
pub(crate) fn driver_keys(
    alloc: Global,
    region: u64,
    goals: &[Vec<Rank>],
) -> Result<Vec<u64>, AllocError>
    ensures { IfOk result (λ keys. keys.items ≡ driver_keys region (map (λ ranks. ranks.items) goals.now)) }
{
    let mut keys = Vec::new(alloc);
    keys.push(region)?;
    for ranks in goals {
        push_ranks(&mut keys, ranks)?;
    }
    Ok(keys)
}

// Those of chains, behind others.
fn push_chains(keys: &mut Vec<u64>, chains: &[Vec<u64>]) -> Result<(), AllocError>
    ensures { OnOk result (keys.new.items
        ≡ keys.old.items ++ chain_keys (map (λ chain. chain.items) chains.now)) }
{
    for chain in chains {
        keys.extend_from_slice(chain)?;
    }
    Ok(())
}

// Those of a level of an environment's certificate, behind others.
fn push_level(keys: &mut Vec<u64>, level: &CertLevel) -> Result<(), AllocError>
    ensures { OnOk result (keys.new.items ≡ keys.old.items ++ level_keys level.now) }
{
    keys.push(level.set)?;
    push_chains(keys, level.chains.as_slice())
}

// Those of an environment's certificate.
pub(crate) fn environment_keys(alloc: Global, levels: &[CertLevel]) -> Result<Vec<u64>, AllocError>
    ensures { IfOk result (λ keys. keys.items ≡ environment_keys levels.now) }
{
    let mut keys = Vec::new(alloc);
    for level in levels {
        push_level(&mut keys, level)?;
    }
    Ok(keys)
}

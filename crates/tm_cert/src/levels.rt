//! The levels of an environment's certificate.
ghost use Rattle.std.specs.Prelude.{◌≡◌, ◌<◌, Ok, map, IfOk, IfErr};
ghost use Rattle.serde_json.specs.View.{view, items_view, members_view};
ghost use Rattle.tm_cert.specs.Judged.{each_at, IsRefusalOf};
ghost use Rattle.tm_cert.specs.Levels.{chain_at, chains_at, id_at, level_at, levels_at, number_of_key};
ghost use Rattle.tm_cert.specs.Path.{path_text};

use crate::cert::CertLevel;
use crate::part::{read_below, read_counted, read_items, read_members, read_value, refuse_other};
use crate::path::Path;
use crate::refusal::ReadCertError;
use serde_json::{Map, Value};
use std::alloc::Global;

/// The levels. `ids` is the number of ids that the nodes have.
#[tactic(auto, unfolding(crate::specs::Levels::levels_at))]
pub(crate) fn read_levels(
    alloc: Global,
    path: &Path<'_>,
    goals: u32,
    fairs: u32,
    ids: u64,
    value: &Value,
) -> Result<Vec<CertLevel>, ReadCertError>
    ensures ok { IfOk result (λ levels.
        levels_at goals fairs ids (path_text path.now) (view value.now) ≡ Ok levels.items) }
    ensures refused { IfErr result
        (IsRefusalOf (levels_at goals fairs ids (path_text path.now) (view value.now))) }
{
    match read_items(alloc, path, value) {
        Ok(parts) => read_each_level(alloc, path, goals, fairs, ids, parts),
        Err(error) => Err(error),
    }
}

fn read_each_level(
    alloc: Global,
    path: &Path<'_>,
    goals: u32,
    fairs: u32,
    ids: u64,
    parts: &[Value],
) -> Result<Vec<CertLevel>, ReadCertError>
    ensures ok { IfOk result (λ levels.
        each_at (level_at goals fairs ids) (path_text path.now) (items_view parts.now) ≡ Ok levels.items) }
    ensures refused { IfErr result (IsRefusalOf
        (each_at (level_at goals fairs ids) (path_text path.now) (items_view parts.now))) }
{
    let mut levels = Vec::new(alloc);
    for value in parts {
        let place = Path::Index(&*path, levels.len());
        let level = given!(read_level(alloc, &place, goals, fairs, ids, value), levels);
        levels.push(level)?;
    }
    Ok(levels)
}

/// A level: its chains, its goal and its set.
#[tactic(auto, unfolding(crate::specs::Levels::level_at))]
fn read_level(
    alloc: Global,
    path: &Path<'_>,
    goals: u32,
    fairs: u32,
    ids: u64,
    value: &Value,
) -> Result<CertLevel, ReadCertError>
    ensures ok { IfOk result
        (λ level. level_at goals fairs ids (path_text path.now) (view value.now) ≡ Ok level) }
    ensures refused { IfErr result
        (IsRefusalOf (level_at goals fairs ids (path_text path.now) (view value.now))) }
{
    let members = given!(read_members(alloc, path, value));
    let at = Path::Member(path, "chains");
    let chains = given!(read_value(alloc, &at, members, "chains"));
    let chains = given!(read_chains(alloc, &at, fairs, ids, chains));
    let at = Path::Member(path, "goal");
    let goal = given!(
        read_key(alloc, &at, members, "goal", u64::from(goals)),
        chains
    );
    let at = Path::Member(path, "set");
    let set = given!(read_key(alloc, &at, members, "set", ids), chains);
    given!(
        refuse_other(alloc, path, members, &["chains", "goal", "set"]),
        chains
    );
    Ok(CertLevel {
        goal: goal as u32,
        set,
        chains,
    })
}

/// The number of a key, below a limit.
pub(crate) fn read_key(
    alloc: Global,
    path: &Path<'_>,
    members: &Map<String, Value>,
    key: &str,
    limit: u64,
) -> Result<u64, ReadCertError>
    ensures ok { IfOk result (λ n.
        number_of_key limit (path_text path.now) key.now (members_view members.now.entries) ≡ Ok n) }
    ensures below { IfOk result (λ n. n < limit) }
    ensures refused { IfErr result (IsRefusalOf
        (number_of_key limit (path_text path.now) key.now (members_view members.now.entries))) }
{
    match read_value(alloc, path, members, key) {
        Ok(value) => read_below(alloc, path, limit, value),
        Err(error) => Err(error),
    }
}

/// The chains of a level, one for each fairness condition.
#[tactic(auto, unfolding(crate::specs::Levels::chains_at))]
fn read_chains(
    alloc: Global,
    path: &Path<'_>,
    fairs: u32,
    ids: u64,
    value: &Value,
) -> Result<Vec<Vec<u64>>, ReadCertError>
    ensures ok { IfOk result (λ chains. chains_at fairs ids (path_text path.now) (view value.now)
        ≡ Ok (map (λ chain. chain.items) chains.items)) }
    ensures refused { IfErr result
        (IsRefusalOf (chains_at fairs ids (path_text path.now) (view value.now))) }
{
    match read_counted(alloc, path, fairs, value) {
        Ok(parts) => read_each_chain(alloc, path, ids, parts),
        Err(error) => Err(error),
    }
}

fn read_each_chain(
    alloc: Global,
    path: &Path<'_>,
    ids: u64,
    parts: &[Value],
) -> Result<Vec<Vec<u64>>, ReadCertError>
    ensures ok { IfOk result (λ chains.
        each_at (chain_at ids) (path_text path.now) (items_view parts.now)
        ≡ Ok (map (λ chain. chain.items) chains.items)) }
    ensures refused { IfErr result (IsRefusalOf
        (each_at (chain_at ids) (path_text path.now) (items_view parts.now))) }
{
    let mut chains = Vec::new(alloc);
    for value in parts {
        let place = Path::Index(&*path, chains.len());
        let chain = given!(read_chain(alloc, &place, ids, value), chains);
        chains.push(chain)?;
    }
    Ok(chains)
}

/// The ids of a chain.
#[tactic(auto, unfolding(crate::specs::Levels::chain_at))]
fn read_chain(
    alloc: Global,
    path: &Path<'_>,
    ids: u64,
    value: &Value,
) -> Result<Vec<u64>, ReadCertError>
    ensures ok { IfOk result
        (λ chain. chain_at ids (path_text path.now) (view value.now) ≡ Ok chain.items) }
    ensures refused { IfErr result
        (IsRefusalOf (chain_at ids (path_text path.now) (view value.now))) }
{
    match read_items(alloc, path, value) {
        Ok(parts) => read_each_id(alloc, path, ids, parts),
        Err(error) => Err(error),
    }
}

fn read_each_id(
    alloc: Global,
    path: &Path<'_>,
    ids: u64,
    parts: &[Value],
) -> Result<Vec<u64>, ReadCertError>
    ensures ok { IfOk result (λ chain.
        each_at (id_at ids) (path_text path.now) (items_view parts.now) ≡ Ok chain.items) }
    ensures refused { IfErr result (IsRefusalOf
        (each_at (id_at ids) (path_text path.now) (items_view parts.now))) }
{
    let mut chain = Vec::new(alloc);
    for value in parts {
        let place = Path::Index(&*path, chain.len());
        let id = given!(read_below(alloc, &place, ids, value), chain);
        chain.push(id)?;
    }
    Ok(chain)
}

//! The goals of a driver's certificate.
ghost use Rattle.std.specs.Prelude.{◌≡◌, Ok, map, IfOk, IfErr};
ghost use Rattle.serde_json.specs.View.{view, items_view};
ghost use Rattle.tm_cert.specs.Goals.{goal_at, goals_at, pair_numbers, rank_at, ranks_at};
ghost use Rattle.tm_cert.specs.Judged.{each_at, IsRefusalOf};
ghost use Rattle.tm_cert.specs.Path.{path_text};

use crate::cert::Rank;
use crate::part::{
    read_below, read_counted, read_items, read_members, read_value, refuse_other, wrong_shape,
};
use crate::path::Path;
use crate::refusal::ReadCertError;
use serde_json::Value;
use std::alloc::Global;

/// The ranks of each goal. `ids` is the number of ids that the nodes have.
#[tactic(auto, unfolding(crate::specs::Goals::goals_at))]
pub(crate) fn read_goals(
    alloc: Global,
    path: &Path<'_>,
    goals: u32,
    fairs: u32,
    ids: u64,
    value: &Value,
) -> Result<Vec<Vec<Rank>>, ReadCertError>
    ensures ok { IfOk result (λ found. goals_at goals fairs ids (path_text path.now) (view value.now)
        ≡ Ok (map (λ ranks. ranks.items) found.items)) }
    ensures refused { IfErr result
        (IsRefusalOf (goals_at goals fairs ids (path_text path.now) (view value.now))) }
{
    match read_counted(alloc, path, goals, value) {
        Ok(parts) => read_each_goal(alloc, path, fairs, ids, parts),
        Err(error) => Err(error),
    }
}

/// The ranks of each goal in a list.
fn read_each_goal(
    alloc: Global,
    path: &Path<'_>,
    fairs: u32,
    ids: u64,
    parts: &[Value],
) -> Result<Vec<Vec<Rank>>, ReadCertError>
    ensures ok { IfOk result (λ found.
        each_at (goal_at fairs ids) (path_text path.now) (items_view parts.now)
        ≡ Ok (map (λ ranks. ranks.items) found.items)) }
    ensures refused { IfErr result (IsRefusalOf
        (each_at (goal_at fairs ids) (path_text path.now) (items_view parts.now))) }
{
    let mut found = Vec::new(alloc);
    for value in parts {
        let place = Path::Index(&*path, found.len());
        let ranks = given!(read_goal(alloc, &place, fairs, ids, value), found);
        found.push(ranks)?;
    }
    Ok(found)
}

/// The ranks of a goal.
#[tactic(auto, unfolding(crate::specs::Goals::goal_at))]
fn read_goal(
    alloc: Global,
    path: &Path<'_>,
    fairs: u32,
    ids: u64,
    value: &Value,
) -> Result<Vec<Rank>, ReadCertError>
    ensures ok { IfOk result
        (λ ranks. goal_at fairs ids (path_text path.now) (view value.now) ≡ Ok ranks.items) }
    ensures refused { IfErr result
        (IsRefusalOf (goal_at fairs ids (path_text path.now) (view value.now))) }
{
    let members = given!(read_members(alloc, path, value));
    let ranks_path = Path::Member(path, "ranks");
    let ranks = given!(read_value(alloc, &ranks_path, members, "ranks"));
    let ranks = given!(read_ranks(alloc, &ranks_path, fairs, ids, ranks));
    given!(refuse_other(alloc, path, members, &["ranks"]), ranks);
    Ok(ranks)
}

/// The ranks in a list, rank 1 first.
#[tactic(auto, unfolding(crate::specs::Goals::ranks_at))]
fn read_ranks(
    alloc: Global,
    path: &Path<'_>,
    fairs: u32,
    ids: u64,
    value: &Value,
) -> Result<Vec<Rank>, ReadCertError>
    ensures ok { IfOk result
        (λ ranks. ranks_at fairs ids (path_text path.now) (view value.now) ≡ Ok ranks.items) }
    ensures refused { IfErr result
        (IsRefusalOf (ranks_at fairs ids (path_text path.now) (view value.now))) }
{
    match read_items(alloc, path, value) {
        Ok(parts) => read_each_rank(alloc, path, fairs, ids, parts),
        Err(error) => Err(error),
    }
}

fn read_each_rank(
    alloc: Global,
    path: &Path<'_>,
    fairs: u32,
    ids: u64,
    parts: &[Value],
) -> Result<Vec<Rank>, ReadCertError>
    ensures ok { IfOk result (λ ranks.
        each_at (rank_at fairs ids) (path_text path.now) (items_view parts.now) ≡ Ok ranks.items) }
    ensures refused { IfErr result (IsRefusalOf
        (each_at (rank_at fairs ids) (path_text path.now) (items_view parts.now))) }
{
    let mut ranks = Vec::new(alloc);
    for value in parts {
        let place = Path::Index(&*path, ranks.len());
        let rank = given!(read_rank(alloc, &place, fairs, ids, value), ranks);
        ranks.push(rank)?;
    }
    Ok(ranks)
}

/// A pair of a fairness number and an id.
#[tactic(auto, using(crate::proofs::Lists::two_parts))]
fn read_rank(
    alloc: Global,
    path: &Path<'_>,
    fairs: u32,
    ids: u64,
    value: &Value,
) -> Result<Rank, ReadCertError>
    ensures ok { IfOk result
        (λ rank. rank_at fairs ids (path_text path.now) (view value.now) ≡ Ok rank) }
    ensures refused { IfErr result
        (IsRefusalOf (rank_at fairs ids (path_text path.now) (view value.now))) }
{
    match read_items(alloc, path, value) {
        Ok(parts) if parts.len() == 2 => {
            read_pair(alloc, path, fairs, ids, &parts[0], &parts[1])
        }
        Ok(_) => Err(wrong_shape(alloc, path)),
        Err(error) => Err(error),
    }
}

fn read_pair(
    alloc: Global,
    path: &Path<'_>,
    fairs: u32,
    ids: u64,
    fair: &Value,
    set: &Value,
) -> Result<Rank, ReadCertError>
    ensures ok { IfOk result (λ rank.
        pair_numbers fairs ids (path_text path.now) (view fair.now) (view set.now) ≡ Ok rank) }
    ensures refused { IfErr result (IsRefusalOf
        (pair_numbers fairs ids (path_text path.now) (view fair.now) (view set.now))) }
{
    let fair = given!(read_below(alloc, &Path::Index(path, 0), u64::from(fairs), fair));
    let set = given!(read_below(alloc, &Path::Index(path, 1), ids, set));
    Ok(Rank {
        fair: fair as u32,
        set,
    })
}

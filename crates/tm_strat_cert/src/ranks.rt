//! The ranked sets of goals in a certificate.
ghost use Rattle.std.specs.Prelude.{IfOk, map};
ghost use Rattle.tm_solve.specs.Iterates.{Each, KnowsRanks};
ghost use Rattle.tm_solve_exact.specs.Exact.{exact_ids};
ghost use Rattle.tm_strat_cert.specs.Inner.Placed.{GoalsPlaced, IsNumbering, Places, RanksPlaced};

use crate::place::place;
use indexmap::IndexSet;
use std::alloc::{AllocError, Global};
use tm_cert::{Entry, Rank};
use tm_dd::NodeId;
use tm_game::Game;
use tm_solve::{RankSet, Ranking};

// The ranked sets of all goals.
pub(crate) fn place_goals(
    alloc: Global,
    game: &Game,
    kept: &mut IndexSet<NodeId>,
    nodes: &mut Vec<Entry>,
    rankings: &[Ranking],
) -> Result<Vec<Vec<Rank>>, AllocError>
    requires known { Each (λ r. KnowsRanks (exact_ids game.now) r.sets.items) rankings.now }
    requires numbered { IsNumbering game.now kept.old.keys nodes.old.items }
    ensures { IfOk result (λ goals. Places game.now kept.old.keys kept.new.keys nodes.new.items
        (GoalsPlaced kept.new.keys rankings.now (map (λ ranks. ranks.items) goals.items))) }
{
    let mut goals = Vec::new(alloc);
    for ranking in rankings {
        let ranks = place_ranks(alloc, game, kept, nodes, ranking.sets.as_slice())?;
        goals.push(ranks)?;
    }
    Ok(goals)
}

// The ranked sets of a goal.
fn place_ranks(
    alloc: Global,
    game: &Game,
    kept: &mut IndexSet<NodeId>,
    nodes: &mut Vec<Entry>,
    sets: &[RankSet],
) -> Result<Vec<Rank>, AllocError>
    requires known { KnowsRanks (exact_ids game.now) sets.now }
    requires numbered { IsNumbering game.now kept.old.keys nodes.old.items }
    ensures { IfOk result (λ ranks. Places game.now kept.old.keys kept.new.keys nodes.new.items
        (RanksPlaced kept.new.keys sets.now ranks.items)) }
{
    let mut ranks = Vec::new(alloc);
    for rank in sets {
        let set = place(game, kept, nodes, rank.set)?;
        let fair = rank.fair;
        ranks.push(Rank { fair, set })?;
    }
    Ok(ranks)
}

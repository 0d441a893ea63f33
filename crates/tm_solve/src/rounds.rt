//! One round of the greatest fixpoint over Z: all goals see the same Z.
ghost use Rattle.std.specs.Prelude.{◌<◌, ◌&&◌, IfOk};
ghost use Rattle.tm_solve.specs.Ids.{Follows, Is};
ghost use Rattle.tm_solve.specs.Inner.Rounds.{AddsLevel, IsLeveled, IsRemaining};
ghost use Rattle.tm_solve.specs.Narrowed.{narrowed};

use crate::goals::reach;
use crate::ids::same;
use crate::iterates::{Chain, LevelSet, Ranking};
use crate::pre::Pre;
use std::alloc::{AllocError, Global};
use tm_dd::NodeId;

// What is left of Z, and the ranked sets of each goal over Z.
#[derive(Drop)]
pub(crate) struct Remaining {
    pub(crate) region: NodeId,
    pub(crate) ranks: Vec<Ranking>,
}

// The states of z in AND_j mu Y . OR_i nu X . part(z, Y, X, j, i) within z. Each goal that loses a state adds a level.
// Levels that led to all outside z lead to all outside what is left.
pub(crate) fn play_round<P: Pre>(
    alloc: Global,
    pre: &mut P,
    z: NodeId,
    levels: &mut Vec<LevelSet>,
) -> Result<Remaining, AllocError>
    requires z_known { (P.ids pre.old).knows z }
    ensures remaining { let Z = (P.ids pre.old).means z in IfOk result (λ r.
        IsRemaining (narrowed (P.game pre.old) Z) (P.ids pre.new) Z r) }
    ensures leveled { IfOk result (λ r. IsLeveled (P.game pre.old) (P.ids pre.old) z levels.old.items
        → IsLeveled (P.game pre.old) (P.ids pre.new) r.region levels.new.items) }
    ensures follows { Follows (P.game pre.old) (P.ids pre.old) (P.game pre.new) (P.ids pre.new) }
{
    let goals = pre.goals();
    let mut ranks = Vec::new(alloc);
    let mut region = z;
    for goal in 0..goals {
        let reached = reach(alloc, pre, z, goal)?;
        region = remove(pre, levels, region, goal, reached.set, reached.chains)?;
        ranks.push(reached.ranks)?;
    }
    Ok(Remaining { region, ranks })
}

// The states of two sets. Where the first has others, all that is outside is a level.
pub(crate) fn remove<P: Pre>(
    pre: &mut P,
    levels: &mut Vec<LevelSet>,
    region: NodeId,
    goal: u32,
    set: NodeId,
    chains: Vec<Chain>,
) -> Result<NodeId, AllocError>
    requires region_known { (P.ids pre.old).knows region }
    requires set_known { (P.ids pre.old).knows set }
    ensures left { IfOk result (λ id. Is (P.game pre.old).states (P.ids pre.new) id
        (λ s. (P.ids pre.old).means region s && (P.ids pre.old).means set s)) }
    ensures levels { IfOk result (λ id. AddsLevel (P.game pre.old).states (P.ids pre.new) region goal chains.items id
        levels.old.items levels.new.items) }
    ensures follows { Follows (P.game pre.old) (P.ids pre.old) (P.game pre.new) (P.ids pre.new) }
{
    let left = pre.meet(region, set)?;
    if !same(left, region) {
        let whole = pre.whole();
        let removed = pre.without(whole, left)?;
        levels.push(LevelSet {
            goal,
            set: removed,
            chains,
        })?;
    }
    Ok(left)
}

//! One turn of the least fixpoint over Y: all fairness conditions see the same Y.
ghost use Rattle.std.specs.Prelude.{◌<◌, ◌||◌, IfOk};
ghost use Rattle.tm_solve.specs.Ids.{Follows, Is};
ghost use Rattle.tm_solve.specs.Inner.Turns.{AddsRank, IsRanked, IsTurned};
ghost use Rattle.tm_solve.specs.Narrowed.{narrowed};

use crate::conditions::wait;
use crate::ids::same;
use crate::iterates::{Chain, RankSet};
use crate::pre::Pre;
use std::alloc::{AllocError, Global};
use tm_dd::NodeId;

// Y with all states that wait for some condition, and a chain for each condition.
#[derive(Drop)]
pub(crate) struct Turned {
    pub(crate) set: NodeId,
    pub(crate) chains: Vec<Chain>,
}

// y and OR_i nu X . part(z, y, X, goal, i) within z. Each condition that adds a state adds a ranked set.
pub(crate) fn take_turn<P: Pre>(
    alloc: Global,
    pre: &mut P,
    z: NodeId,
    y: NodeId,
    goal: u32,
    ranks: &mut Vec<RankSet>,
) -> Result<Turned, AllocError>
    requires z_known { (P.ids pre.old).knows z }
    requires y_known { (P.ids pre.old).knows y }
    requires goal { goal < (P.game pre.old).goals }
    requires ranked { let Z = (P.ids pre.old).means z in
        IsRanked (narrowed (P.game pre.old) Z) (P.ids pre.old) Z goal y ranks.old.items }
    ensures turned { let Z = (P.ids pre.old).means z in IfOk result (λ t.
        IsTurned (narrowed (P.game pre.old) Z) (P.ids pre.new) Z ((P.ids pre.old).means y) goal t) }
    ensures ranked { let Z = (P.ids pre.old).means z in IfOk result (λ t.
        IsRanked (narrowed (P.game pre.old) Z) (P.ids pre.new) Z goal t.set ranks.new.items) }
    ensures follows { Follows (P.game pre.old) (P.ids pre.old) (P.game pre.new) (P.ids pre.new) }
{
    let fairs = pre.fairs();
    let mut chains = Vec::new(alloc);
    let mut set = y;
    for fair in 0..fairs {
        let waited = wait(alloc, pre, z, y, goal, fair)?;
        set = grow(pre, ranks, set, fair, waited.set)?;
        chains.push(waited.chain)?;
    }
    Ok(Turned { set, chains })
}

// The union of two sets. Where it is greater than the first it is a ranked set.
fn grow<P: Pre>(
    pre: &mut P,
    ranks: &mut Vec<RankSet>,
    set: NodeId,
    fair: u32,
    more: NodeId,
) -> Result<NodeId, AllocError>
    requires set_known { (P.ids pre.old).knows set }
    requires more_known { (P.ids pre.old).knows more }
    ensures grown { IfOk result (λ id. Is (P.game pre.old).states (P.ids pre.new) id
        (λ s. (P.ids pre.old).means set s || (P.ids pre.old).means more s)) }
    ensures ranks { IfOk result (λ id. AddsRank set fair id ranks.old.items ranks.new.items) }
    ensures follows { Follows (P.game pre.old) (P.ids pre.old) (P.game pre.new) (P.ids pre.new) }
{
    let grown = pre.union(set, more)?;
    if !same(grown, set) {
        ranks.push(RankSet { fair, set: grown })?;
    }
    Ok(grown)
}

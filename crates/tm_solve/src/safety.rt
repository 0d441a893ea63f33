//! Safe states: those from which the environment can force neither an error nor the state out of them.
ghost use Rattle.std.specs.Prelude.{◌<◌, IfOk};
ghost use Rattle.tm_solve.specs.Begun.{IsBegun};
ghost use Rattle.tm_solve.specs.Ids.{Follows};
ghost use Rattle.tm_solve.specs.Inner.Safety.{AreSingle, Keeps};
ghost use Rattle.tm_solve.specs.Safety.{IsSafe};
ghost use Rattle.tm_solve.specs.Sets.{IsWithin};

use crate::ids::same;
use crate::iterates::{Chain, Iterates, LevelSet};
use crate::pre::Pre;
use crate::rounds::remove;
use std::alloc::{AllocError, Global};
use tm_dd::NodeId;

/// Iterates from which a solution may go on, without the states from which the environment can force an error or the
/// state out of their set. This is one fixpoint in place of three nested ones, and saves rounds.
///
/// From what is left a solution may go on as well. The ranked sets stay, and without goals or fairness conditions so
/// does the set. Want of memory is the only error.
pub fn keep_safe<P: Pre>(
    alloc: Global,
    pre: &mut P,
    begun: Iterates,
) -> Result<Iterates, AllocError>
    requires begun { IsBegun (P.game pre.old) (P.ids pre.old) begun }
    ensures begun { IfOk result (IsBegun (P.game pre.old) (P.ids pre.new)) }
    ensures falls { IfOk result (λ it. IsWithin (P.game pre.old).states ((P.ids pre.new).means it.region)
        ((P.ids pre.old).means begun.region)) }
    ensures safe { IfOk result (λ it. 0 < (P.game pre.old).goals → 0 < (P.game pre.old).fairs →
        IsSafe (P.game pre.old) ((P.ids pre.new).means it.region)) }
    ensures follows { Follows (P.game pre.old) (P.ids pre.old) (P.game pre.new) (P.ids pre.new) }
{
    let mut levels = begun.levels;
    let region = safe_states(alloc, pre, begun.region, &mut levels)?;
    Ok(Iterates {
        region,
        ranks: begun.ranks,
        levels,
    })
}

// The safe states of a set, which hold the region if the set does: nu Z . part(Z, Z, Z, 0, 0) within the set. Over one
// set part is the same for each goal and condition. Without goals or conditions it is the set.
pub(crate) fn safe_states<P: Pre>(
    alloc: Global,
    pre: &mut P,
    start: NodeId,
    levels: &mut Vec<LevelSet>,
) -> Result<NodeId, AllocError>
    requires known { (P.ids pre.old).knows start }
    ensures safe { IfOk result (λ id. 0 < (P.game pre.old).goals → 0 < (P.game pre.old).fairs →
        IsSafe (P.game pre.old) ((P.ids pre.new).means id)) }
    ensures keeps { IfOk result (λ id. Keeps (P.game pre.old) (P.ids pre.old) (P.ids pre.new) start id
        levels.old.items levels.new.items) }
    ensures follows { Follows (P.game pre.old) (P.ids pre.old) (P.game pre.new) (P.ids pre.new) }
{
    if pre.goals() > 0 && pre.fairs() > 0 {
        stay_within(alloc, pre, start, levels)
    } else {
        Ok(start)
    }
}

// The safe states of a set, by the first goal and the first condition. Each removal is a level of its own: from what is
// removed the environment forces an error or a state that is lost already, whatever condition is waited for.
fn stay_within<P: Pre>(
    alloc: Global,
    pre: &mut P,
    start: NodeId,
    levels: &mut Vec<LevelSet>,
) -> Result<NodeId, AllocError>
    requires known { (P.ids pre.old).knows start }
    requires goal { 0 < (P.game pre.old).goals }
    requires fair { 0 < (P.game pre.old).fairs }
    ensures safe { IfOk result (λ id. IsSafe (P.game pre.old) ((P.ids pre.new).means id)) }
    ensures keeps { IfOk result (λ id. Keeps (P.game pre.old) (P.ids pre.old) (P.ids pre.new) start id
        levels.old.items levels.new.items) }
    ensures follows { Follows (P.game pre.old) (P.ids pre.old) (P.game pre.new) (P.ids pre.new) }
{
    let whole = pre.whole();
    let fairs = pre.fairs();
    let mut z = start;
    'steps: loop {
        let made = pre.part(z, z, z, 0, 0)?;
        let safe = pre.meet(made, z)?;
        if same(safe, z) {
            return Ok(z);
        }
        let removed = pre.without(whole, safe)?;
        let chains = single_chains(alloc, removed, fairs)?;
        z = remove(pre, levels, z, 0, safe, chains)?;
    }
}

// So many chains of one set.
fn single_chains(alloc: Global, set: NodeId, count: u32) -> Result<Vec<Chain>, AllocError>
    ensures { IfOk result (λ chains. AreSingle set count chains.items) }
{
    let mut chains = Vec::new(alloc);
    for _made in 0..count {
        let mut sets = Vec::new(alloc);
        sets.push(set)?;
        chains.push(Chain { sets })?;
    }
    Ok(chains)
}

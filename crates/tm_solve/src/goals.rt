//! The states from which a goal is reached: the least fixpoint over Y.
ghost use Rattle.std.specs.Prelude.{◌<◌, IfOk};
ghost use Rattle.tm_solve.specs.Ids.{Follows};
ghost use Rattle.tm_solve.specs.Inner.Goals.{IsReached};
ghost use Rattle.tm_solve.specs.Narrowed.{narrowed};

use crate::ids::same;
use crate::iterates::{Chain, Ranking};
use crate::pre::Pre;
use crate::turns::take_turn;
use std::alloc::{AllocError, Global};
use tm_dd::NodeId;

// The fixpoint, how its states are reached, and the chains of its last turn.
#[derive(Drop)]
pub(crate) struct Reached {
    pub(crate) set: NodeId,
    pub(crate) ranks: Ranking,
    pub(crate) chains: Vec<Chain>,
}

// mu Y . OR_i nu X . part(z, Y, X, goal, i) within z, from no state up.
pub(crate) fn reach<P: Pre>(
    alloc: Global,
    pre: &mut P,
    z: NodeId,
    goal: u32,
) -> Result<Reached, AllocError>
    requires z_known { (P.ids pre.old).knows z }
    requires goal { goal < (P.game pre.old).goals }
    ensures reached { let Z = (P.ids pre.old).means z in IfOk result (λ r.
        IsReached (narrowed (P.game pre.old) Z) (P.ids pre.new) Z goal r) }
    ensures follows { Follows (P.game pre.old) (P.ids pre.old) (P.game pre.new) (P.ids pre.new) }
{
    let whole = pre.whole();
    let mut y = pre.without(whole, whole)?;
    let mut sets = Vec::new(alloc);
    'turns: loop {
        let turned = take_turn(alloc, pre, z, y, goal, &mut sets)?;
        if same(turned.set, y) {
            return Ok(Reached {
                set: y,
                ranks: Ranking { sets },
                chains: turned.chains,
            });
        }
        y = turned.set;
    }
}

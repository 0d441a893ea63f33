//! The states in which a fairness condition is waited for: the greatest fixpoint over X, within Z.
ghost use Rattle.std.specs.Prelude.{◌<◌, IfOk};
ghost use Rattle.tm_solve.specs.Ids.{Follows};
ghost use Rattle.tm_solve.specs.Inner.Waits.{IsWaited};
ghost use Rattle.tm_solve.specs.Narrowed.{narrowed};

use crate::ids::same;
use crate::iterates::Chain;
use crate::pre::Pre;
use std::alloc::{AllocError, Global};
use tm_dd::NodeId;

// The fixpoint, and what its iterates leave out.
#[derive(Drop)]
pub(crate) struct Waited {
    pub(crate) set: NodeId,
    pub(crate) chain: Chain,
}

// nu X . part(z, y, X, goal, fair) within z, from z down: what is outside z is lost already.
pub(crate) fn wait<P: Pre>(
    alloc: Global,
    pre: &mut P,
    z: NodeId,
    y: NodeId,
    goal: u32,
    fair: u32,
) -> Result<Waited, AllocError>
    requires z_known { (P.ids pre.old).knows z }
    requires y_known { (P.ids pre.old).knows y }
    requires goal { goal < (P.game pre.old).goals }
    requires fair { fair < (P.game pre.old).fairs }
    ensures waited { let Z = (P.ids pre.old).means z in IfOk result (λ w.
        IsWaited (narrowed (P.game pre.old) Z) (P.ids pre.new) Z ((P.ids pre.old).means y) goal fair w) }
    ensures follows { Follows (P.game pre.old) (P.ids pre.old) (P.game pre.new) (P.ids pre.new) }
{
    let whole = pre.whole();
    let mut sets = Vec::new(alloc);
    let mut x = z;
    'iterates: loop {
        let made = pre.part(z, y, x, goal, fair)?;
        let next = pre.meet(made, z)?;
        if same(next, x) {
            return Ok(Waited {
                set: x,
                chain: Chain { sets },
            });
        }
        let removed = pre.without(whole, next)?;
        sets.push(removed)?;
        x = next;
    }
}

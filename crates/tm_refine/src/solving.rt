//! The solutions of the two sides over the cells of the tracked predicates.
ghost use Rattle.std.specs.Prelude.{◌≡◌, IfOk, false, true};
ghost use Rattle.tm_flat_pool.specs.Predicates.{pool};
ghost use Rattle.tm_game_pool.specs.Separating.{predicates_at};
ghost use Rattle.tm_refine.specs.Carried.{IsCarried};
ghost use Rattle.tm_refine.specs.Parts.{IsUnionOf, lower_game};
ghost use Rattle.tm_refine.specs.Solved.{IsLowerOf, IsUpperOf};
ghost use Rattle.tm_sem.specs.State.{StateData};
ghost use Rattle.tm_solve.specs.Fixpoints.{Holds, InRegion};
ghost use Rattle.tm_solve.specs.Ids.{Stay};
ghost use Rattle.tm_solve.specs.Iterates.{KnowsAll, driver_sets, levels_of};
ghost use Rattle.tm_solve.specs.Sets.{IsAmong};
ghost use Rattle.tm_syntax.specs.Design.{DesignTree};

use crate::arena::Arena;
use crate::sided::Sided;
use std::alloc::{AllocError, Global};
use tm_dd::NodeId;
use tm_solve::{Iterates, advance, keep_safe, same, solve_from};

// Solves over the lower parts, from the lower part of the exact region.
pub(crate) fn solve_lower_in<A: Arena>(
    alloc: Global,
    sided: &mut Sided<A>,
    region: NodeId,
) -> Result<Iterates, AllocError>
    requires known { (A.ids sided.old.arena).knows region }
    requires holds { Holds (A.game sided.old.arena).states ((A.ids sided.old.arena).means region)
        (InRegion (A.game sided.old.arena)) }
    ensures lower { IfOk result (λ it. (d : DesignTree) → (A.ids sided.old.arena).of d → IsLowerOf d
        (predicates_at (pool d) sided.old.tracked.items) (driver_sets (A.ids sided.new.arena) it)) }
    ensures known { IfOk result (KnowsAll (A.ids sided.new.arena)) }
    ensures designs { (d : DesignTree) → (A.ids sided.old.arena).of d → (A.ids sided.new.arena).of d }
    ensures tracked { sided.new.tracked.items ≡ sided.old.tracked.items }
    ensures side { sided.new.upper ≡ false }
    ensures game { A.game sided.new.arena ≡ A.game sided.old.arena }
    ensures stay { Stay (A.ids sided.old.arena) (A.ids sided.new.arena) }
{
    sided.upper = false;
    let start = sided.arena.side(sided.tracked.as_slice(), false, region)?;
    solve_lower_from(alloc, sided, start)
}

// Solves over the lower parts, from a union of cells that holds their region.
fn solve_lower_from<A: Arena>(
    alloc: Global,
    sided: &mut Sided<A>,
    start: NodeId,
) -> Result<Iterates, AllocError>
    requires known { (A.ids sided.old.arena).knows start }
    requires union { IsUnionOf (A.game sided.old.arena).states (A.tests sided.old.arena sided.old.tracked.items)
        ((A.ids sided.old.arena).means start) }
    requires above { (s : StateData) → IsAmong s (A.game sided.old.arena).states
        → InRegion (lower_game (A.tests sided.old.arena sided.old.tracked.items) (A.game sided.old.arena)) s
        → (A.ids sided.old.arena).means start s ≡ true }
    ensures lower { IfOk result (λ it. (d : DesignTree) → (A.ids sided.old.arena).of d → IsLowerOf d
        (predicates_at (pool d) sided.old.tracked.items) (driver_sets (A.ids sided.new.arena) it)) }
    ensures known { IfOk result (KnowsAll (A.ids sided.new.arena)) }
    ensures designs { (d : DesignTree) → (A.ids sided.old.arena).of d → (A.ids sided.new.arena).of d }
    ensures tracked { sided.new.tracked.items ≡ sided.old.tracked.items }
    ensures side { sided.new.upper ≡ false }
    ensures game { A.game sided.new.arena ≡ A.game sided.old.arena }
    ensures stay { Stay (A.ids sided.old.arena) (A.ids sided.new.arena) }
{
    sided.upper = false;
    solve_from(alloc, sided, start)
}

// Solves over the upper parts, from the safe states of what a solution over fewer cells left, until an initial state is
// lost or no more states are. So either the levels are a certificate, or no levels over these cells are.
pub(crate) fn solve_upper<A: Arena>(
    alloc: Global,
    sided: &mut Sided<A>,
    begun: Iterates,
) -> Result<Iterates, AllocError>
    requires carried { (d : DesignTree) × (A.ids sided.old.arena).of d × IsCarried d
        (predicates_at (pool d) sided.old.tracked.items) (A.game sided.old.arena) (A.ids sided.old.arena) begun }
    ensures upper { IfOk result (λ it. (d : DesignTree) → (A.ids sided.old.arena).of d → IsUpperOf d
        (predicates_at (pool d) sided.old.tracked.items) ((A.ids sided.new.arena).means it.region)
        (levels_of (A.ids sided.new.arena) it)) }
    ensures carried { IfOk result (λ it. (d : DesignTree) → (A.ids sided.old.arena).of d → IsCarried d
        (predicates_at (pool d) sided.old.tracked.items) (A.game sided.old.arena) (A.ids sided.new.arena) it) }
    ensures known { IfOk result (KnowsAll (A.ids sided.new.arena)) }
    ensures designs { (d : DesignTree) → (A.ids sided.old.arena).of d → (A.ids sided.new.arena).of d }
    ensures tracked { sided.new.tracked.items ≡ sided.old.tracked.items }
    ensures side { sided.new.upper ≡ true }
    ensures game { A.game sided.new.arena ≡ A.game sided.old.arena }
    ensures stay { Stay (A.ids sided.old.arena) (A.ids sided.new.arena) }
{
    sided.upper = true;
    let safe = keep_safe(alloc, sided, begun)?;
    let mut far = safe;
    'rounds: loop {
        if sided.arena.leaves_out(far.region)? {
            return Ok(far);
        }
        let before = far.region;
        far = advance(alloc, sided, far)?;
        if same(far.region, before) {
            return Ok(far);
        }
    }
}

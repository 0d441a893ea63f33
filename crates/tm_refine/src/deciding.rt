//! The decision: the exact game names the side that wins, and only that side is solved over cells.
ghost use Rattle.std.specs.Prelude.{◌≡◌, ◌<◌, ℕ, IfOk, List};
ghost use Rattle.tm_refine.specs.Decided.{IsDecided, KeepsTo, KnowsDecision};
ghost use Rattle.tm_refine.specs.Searching.{IsFirst, IsSearching, NoOther};
ghost use Rattle.tm_solve.specs.Iterates.{KnowsAll};
ghost use Rattle.tm_syntax.specs.Design.{DesignTree};
ghost use Rattle.tm_syntax.specs.Design.Atoms.{first_atoms};

use crate::arena::Arena;
use crate::narrowing::{Won, narrow, widen};
use crate::numbers::numbers_below;
use crate::sided::Sided;
use crate::trace::{Added, Decision, Trace};
use std::alloc::{AllocError, Global};

/// Decides a game over predicates: those of its claims are tracked first, and others are added, each the first of the
/// pool that tells two states of one cell apart, until a side wins over the cells of those that are tracked. With a
/// budget no more than so many are added (abstraction by a lower and an upper part as de Alfaro and Roy 2007,
/// refinement as Walker and Ryzhyk 2014).
///
/// The trace is the shortest that decides: over each shorter one no sets that are unions of cells are a certificate of
/// either side. `Spent` comes only where the budget is below its length.
///
/// Want of memory is the only error. After it, too, the game has the same designs.
pub fn decide<A: Arena>(
    alloc: Global,
    sided: &mut Sided<A>,
    budget: Option<u32>,
) -> Result<Decision, AllocError>
    requires of { (d : DesignTree) × (A.ids sided.old.arena).of d }
    ensures decided { IfOk result (λ r. (d : DesignTree) → (A.ids sided.old.arena).of d
        → IsDecided d budget (A.ids sided.new.arena) r) }
    ensures within { IfOk result (KeepsTo budget) }
    ensures known { IfOk result (KnowsDecision (A.ids sided.new.arena)) }
    ensures designs { (d : DesignTree) → (A.ids sided.old.arena).of d → (A.ids sided.new.arena).of d }
{
    let whole = sided.arena.solve_exact(alloc)?;
    sided.upper = sided.arena.leaves_out(whole.region)?;
    let first = sided.arena.first();
    sided.tracked = numbers_below(alloc, first)?;
    let mut added = Vec::new(alloc);
    let won = widen(alloc, sided, &mut added, whole.region)?;
    let best = narrow(alloc, sided, first, &added, won)?;
    Ok(finish(sided, first, added, best, budget))
}

// What is decided over the shortest prefix, where the budget allows it.
fn finish<A: Arena>(
    sided: &Sided<A>,
    first: u32,
    added: Vec<Added>,
    best: Won,
    budget: Option<u32>,
) -> Decision
    ensures decided { (d : DesignTree) (tracked : List ℕ) → first ≡ first_atoms d → NoOther d sided.now.upper
        → IsSearching d first tracked added.items
        → IsFirst d first added.items sided.now.upper (A.ids sided.now.arena) best.it best.count
        → IsDecided d budget (A.ids sided.now.arena) result }
    ensures within { KeepsTo budget result }
    ensures known { KnowsAll (A.ids sided.now.arena) best.it → KnowsDecision (A.ids sided.now.arena) result }
{
    let mut added = added;
    if let Some(allowed) = budget {
        if (allowed as usize) < best.count {
            added.truncate(allowed as usize);
            return Decision::Spent(Trace { first, added });
        }
    }
    added.truncate(best.count);
    if sided.upper {
        return Decision::Environment(best.it, Trace { first, added });
    }
    Decision::Driver(best.it, Trace { first, added })
}

//! The certificate of the environment.
ghost use Rattle.std.specs.Prelude.{◌≡◌, ◌↔◌, IfOk, length, sum};
ghost use Rattle.tm_game.specs.Game.{IsOf};
ghost use Rattle.tm_sem.specs.Certificates.{MeetsEnvironment};
ghost use Rattle.tm_sem.specs.Fairness.{conditions};
ghost use Rattle.tm_sem.specs.StateBits.{state_widths};
ghost use Rattle.tm_solve.specs.Iterates as solution;
ghost use Rattle.tm_solve.specs.Iterates.{KnowsAll};
ghost use Rattle.tm_solve_exact.specs.Exact.{exact_ids};
ghost use Rattle.tm_syntax.specs.Design.{DesignTree};
ghost use Rattle.tm_verdict.specs.Environment.{HasShape};
ghost use Rattle.tm_verdict.specs.Fitting.{FitsEnvironment};
ghost use Rattle.tm_verdict.specs.Sets as certificates;

use crate::chains::place_levels;
use crate::place::order_of;
use indexmap::IndexSet;
use std::alloc::{AllocError, Global};
use tm_cert::EnvCert;
use tm_game::Game;
use tm_solve::Iterates;

/// The levels of a solution as an environment's certificate, in the game's order of levels.
///
/// Each node has one entry, children before their parents: for each level its set first, then its chains. Of each
/// design of the game the certificate tells exactly the sets of the iterates, so it meets the conditions where these
/// do; where they speak of goals of the design, and have a chain for each of its fairness conditions, it is one that
/// can be read. Want of memory is the only error.
pub fn environment_cert(
    alloc: Global,
    game: &Game,
    iterates: &Iterates,
) -> Result<EnvCert, AllocError>
    requires known { KnowsAll (exact_ids game.now) iterates.now }

    ensures order { IfOk result (λ c. c.order ≡ game.now.order) }
    ensures sets { IfOk result (λ c. (d : DesignTree) → IsOf d game.now
        → certificates.levels_of d c ≡ solution.levels_of (exact_ids game.now) iterates.now) }
    ensures fits { IfOk result (λ c. (d : DesignTree) → IsOf d game.now
        → HasShape d (solution.levels_of (exact_ids game.now) iterates.now)
        → FitsEnvironment (sum (state_widths d)) (length d.goals) (length (conditions d)) c) }
    ensures meets { IfOk result (λ c. (d : DesignTree) → IsOf d game.now
        → (MeetsEnvironment d (certificates.levels_of d c)
        ↔ MeetsEnvironment d (solution.levels_of (exact_ids game.now) iterates.now))) }
{
    let mut kept = IndexSet::new(alloc);
    let mut nodes = Vec::new(alloc);
    let levels = iterates.levels.as_slice();
    let levels = place_levels(alloc, game, &mut kept, &mut nodes, levels);
    drop(kept);
    let levels = given!(levels, nodes);
    let order = given!(order_of(alloc, game), levels, nodes);
    Ok(EnvCert {
        order,
        nodes,
        levels,
    })
}

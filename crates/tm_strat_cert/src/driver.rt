//! The certificate of a driver.
ghost use Rattle.std.specs.Prelude.{◌≡◌, ◌↔◌, IfOk, length, map, sum};
ghost use Rattle.tm_game.specs.Game.{IsOf};
ghost use Rattle.tm_sem.specs.Certificates.{MeetsMoveForm, WaitForConditions};
ghost use Rattle.tm_sem.specs.Fairness.{conditions};
ghost use Rattle.tm_sem.specs.StateBits.{state_widths};
ghost use Rattle.tm_solve.specs.Iterates as solution;
ghost use Rattle.tm_solve.specs.Iterates.{KnowsAll};
ghost use Rattle.tm_solve_exact.specs.Exact.{exact_ids};
ghost use Rattle.tm_syntax.specs.Design.{DesignTree};
ghost use Rattle.tm_verdict.specs.Fitting.{FitsDriver};
ghost use Rattle.tm_verdict.specs.Sets as certificates;

use crate::place::{order_of, place};
use crate::ranks::place_goals;
use indexmap::IndexSet;
use std::alloc::{AllocError, Global};
use tm_cert::DriverCert;
use tm_game::Game;
use tm_solve::Iterates;

/// The region and the ranked sets of a solution as a driver's certificate, in the game's order of levels.
///
/// Each node has one entry, children before their parents: the region first, then the ranks of each goal. Of each
/// design of the game the certificate tells exactly the sets of the iterates, so it meets the conditions where these
/// do; where they have ranks for each goal that wait for fairness conditions of the design, it is one that can be read.
/// Want of memory is the only error.
pub fn driver_cert(
    alloc: Global,
    game: &Game,
    iterates: &Iterates,
) -> Result<DriverCert, AllocError>
    requires known { KnowsAll (exact_ids game.now) iterates.now }

    ensures order { IfOk result (λ c. c.order ≡ game.now.order) }
    ensures ranks { IfOk result (λ c. map length c.goals ≡ map (λ r. length r.sets.items) iterates.now.ranks.items) }
    ensures sets { IfOk result (λ c. (d : DesignTree) → IsOf d game.now
        → certificates.driver_sets d c ≡ solution.driver_sets (exact_ids game.now) iterates.now) }
    ensures fits { IfOk result (λ c. (d : DesignTree) → IsOf d game.now
        → length (solution.driver_sets (exact_ids game.now) iterates.now).goals ≡ length d.goals
        → WaitForConditions d (solution.driver_sets (exact_ids game.now) iterates.now)
        → FitsDriver (sum (state_widths d)) (length d.goals) (length (conditions d)) c) }
    ensures meets { IfOk result (λ c. (d : DesignTree) → IsOf d game.now
        → (MeetsMoveForm d (certificates.driver_sets d c)
        ↔ MeetsMoveForm d (solution.driver_sets (exact_ids game.now) iterates.now))) }
{
    let mut kept = IndexSet::new(alloc);
    let mut nodes = Vec::new(alloc);
    let region = place(game, &mut kept, &mut nodes, iterates.region);
    let region = given!(region, nodes, kept);
    let ranks = iterates.ranks.as_slice();
    let goals = place_goals(alloc, game, &mut kept, &mut nodes, ranks);
    drop(kept);
    let goals = given!(goals, nodes);
    let order = given!(order_of(alloc, game), goals, nodes);
    Ok(DriverCert {
        order,
        nodes,
        region,
        goals,
    })
}

//! The pairs of a state and of arguments at which steps of the driver are allowed.
ghost use Rattle.std.specs.Prelude.{◌≡◌, ◌+◌, ◌<◌, ◌⊎◌, true, IfOk, length};
ghost use Rattle.tm_dd.specs.Reduced.{Extends};
ghost use Rattle.tm_dd.specs.Table.{Knows, means};
ghost use Rattle.tm_game_bits.specs.Diagrams.{IsSetOf, KnowsGame, game_of};
ghost use Rattle.tm_game.specs.Inner.Permitted.{HasPermittedLeaveBelow, IsPermitted, IsPermittedLeave};

use std::alloc::AllocError;
use tm_base::Steps;
use tm_dd::{FALSE, NodeId};
use tm_ddops::Manager;
use tm_game_steps::MadeGame;

/// Where a step of the driver is allowed: the driver can be picked, and some choices have an outcome.
pub(crate) fn permitted_step(
    made: &MadeGame,
    dd: &mut Manager,
    index: usize,
) -> Result<NodeId, AllocError>
    requires game { KnowsGame dd.old.table made.now.steps }
    requires index { index < length made.now.steps.driver.items }

    ensures extends { Extends dd.old.table dd.new.table }
    ensures answer { IfOk result
        (IsSetOf dd.new.table (IsPermitted (game_of dd.old.table made.now.steps) index)) }
{
    let step = &made.steps.driver[index];
    let outcomes = dd.exists(step.legal, &step.choices)?;
    let permitted = dd.and(made.steps.turn, outcomes, &mut Steps::new(()))?;
    Ok(permitted)
}

/// Where some step is allowed by which a process leaves.
pub(crate) fn permitted_leaves(
    made: &MadeGame,
    dd: &mut Manager,
    first: usize,
    process: usize,
) -> Result<NodeId, AllocError>
    requires game { KnowsGame dd.old.table made.now.steps }
    requires steps { first + length made.now.movers.items ≡ length made.now.steps.driver.items }

    ensures extends { Extends dd.old.table dd.new.table }
    ensures answer { IfOk result (IsSetOf dd.new.table (HasPermittedLeaveBelow (game_of dd.old.table made.now.steps)
        made.now.movers.items first process (length made.now.movers.items))) }
{
    let mut permitted = FALSE;
    for index in 0..made.movers.len() {
        permitted = permitted_leave(made, dd, first, index, process, permitted)?;
    }
    Ok(permitted)
}

// Where a step is allowed, if a process leaves by it, or a diagram holds.
fn permitted_leave(
    made: &MadeGame,
    dd: &mut Manager,
    first: usize,
    index: usize,
    process: usize,
    other: NodeId,
) -> Result<NodeId, AllocError>
    requires game { KnowsGame dd.old.table made.now.steps }
    requires steps { first + length made.now.movers.items ≡ length made.now.steps.driver.items }
    requires index { index < length made.now.movers.items }
    requires other { Knows dd.old.table other }

    ensures extends { Extends dd.old.table dd.new.table }
    ensures answer { IfOk result (IsSetOf dd.new.table (λ v. (means dd.old.table other v ≡ true)
        ⊎ IsPermittedLeave (game_of dd.old.table made.now.steps) made.now.movers.items first process index v)) }
{
    if made.movers[index] != process {
        return Ok(other);
    }
    let here = permitted_step(made, dd, first + index)?;
    let either = dd.or(other, here, &mut Steps::new(()))?;
    Ok(either)
}

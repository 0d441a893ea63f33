//! The step operator, part by part.
ghost use Rattle.std.specs.Prelude.{◌<◌, ◌&&◌, IfOk, length, not};
ghost use Rattle.tm_solve_exact.specs.Exact.{HasDesign, IsStateSet, exact_game, exact_ids, exact_operator, set_of};
ghost use Rattle.tm_game.specs.Game.{Grows};
ghost use Rattle.tm_solve.specs.Ids.{Follows, Is};
ghost use Rattle.tm_solve.specs.Operator.{part_of};

use crate::sets::{both, either, rest, stay};
use std::alloc::AllocError;
use tm_dd::NodeId;
use tm_game::Game;

/// The states from which the driver can stay in `z` and the goal holds, or it can stay in `y`, or it can stay in `x`
/// and the fairness condition fails. The game remembers where the driver stays in `z` and in `y` while `x` alone
/// changes.
///
/// Every id keeps its meaning, also where memory runs out.
pub fn part(
    game: &mut Game,
    z: NodeId,
    y: NodeId,
    x: NodeId,
    goal: u32,
    fair: u32,
) -> Result<NodeId, AllocError>
    requires of { HasDesign game.old }
    requires z { IsStateSet game.old z }
    requires y { IsStateSet game.old y }
    requires x { IsStateSet game.old x }
    requires goal { goal < length game.old.goals }
    requires fair { fair < length game.old.fairs }
    ensures value { IfOk result (λ id. Is (exact_game game.old).states (exact_ids game.new) id
        (part_of (exact_operator game.old) (set_of game.old z) (set_of game.old y) (set_of game.old x) goal fair)) }
    ensures follows { Follows (exact_game game.old) (exact_ids game.old) (exact_game game.new) (exact_ids game.new) }
    ensures of { HasDesign game.new }
    ensures grows { Grows game.old game.new }
{
    let waits = wait(game, x, fair)?;
    let reaches = reach(game, z, goal)?;
    let near = stay(game, y)?;
    let some = either(game, reaches, near)?;
    either(game, some, waits)
}

// The states from which the driver can stay in a set and the goal holds.
fn reach(game: &mut Game, z: NodeId, goal: u32) -> Result<NodeId, AllocError>
    requires of { HasDesign game.old }
    requires z { IsStateSet game.old z }
    requires goal { goal < length game.old.goals }
    ensures value { IfOk result (λ id. Is (exact_game game.old).states (exact_ids game.new) id
        (λ s. (exact_operator game.old).goal goal s && (exact_operator game.old).stay (set_of game.old z) s)) }
    ensures follows { Follows (exact_game game.old) (exact_ids game.old) (exact_game game.new) (exact_ids game.new) }
    ensures of { HasDesign game.new }
    ensures grows { Grows game.old game.new }
{
    let near = stay(game, z)?;
    let holds = game.goal(goal);
    both(game, holds, near)
}

// The states from which the driver can stay in a set and the fairness condition fails.
fn wait(game: &mut Game, x: NodeId, fair: u32) -> Result<NodeId, AllocError>
    requires of { HasDesign game.old }
    requires x { IsStateSet game.old x }
    requires fair { fair < length game.old.fairs }
    ensures value { IfOk result (λ id. Is (exact_game game.old).states (exact_ids game.new) id
        (λ s. not ((exact_operator game.old).fair fair s) && (exact_operator game.old).stay (set_of game.old x) s)) }
    ensures follows { Follows (exact_game game.old) (exact_ids game.old) (exact_game game.new) (exact_ids game.new) }
    ensures of { HasDesign game.new }
    ensures grows { Grows game.old game.new }
{
    let near = stay(game, x)?;
    let holds = game.fair(fair);
    rest(game, near, holds)
}

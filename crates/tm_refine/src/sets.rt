//! Operations on the sets of states of a game with its pool.
ghost use Rattle.std.specs.Prelude.{◌<◌, ◌&&◌, ◌||◌, IfOk, length, not};
ghost use Rattle.tm_dd.specs.Reduced.{IsReduced};
ghost use Rattle.tm_refine.specs.Pooled.{CanBeDecided, Keeps, pool_ids};
ghost use Rattle.tm_solve.specs.Ids.{Is};
ghost use Rattle.tm_solve.specs.Operator.{part_of};
ghost use Rattle.tm_solve_exact.specs.Exact.{IsStateSet, exact_game, exact_operator, set_of};

use std::alloc::AllocError;
use tm_dd::NodeId;
use tm_game::Game;
use tm_solve_exact as exact;

// The exact step operator, of three sets, a goal and a fairness condition.
pub(crate) fn part(
    game: &mut Game,
    z: NodeId,
    y: NodeId,
    x: NodeId,
    goal: u32,
    fair: u32,
) -> Result<NodeId, AllocError>
    requires can { CanBeDecided game.old }
    requires z { IsStateSet game.old z }
    requires y { IsStateSet game.old y }
    requires x { IsStateSet game.old x }
    requires goal { goal < length game.old.goals }
    requires fair { fair < length game.old.fairs }
    ensures value { IfOk result (λ id. Is (exact_game game.old).states (pool_ids game.new) id
        (part_of (exact_operator game.old) (set_of game.old z) (set_of game.old y) (set_of game.old x) goal fair)) }
    ensures kept { Keeps game.old game.new }
{
    exact::part(game, z, y, x, goal, fair)
}

// The states in one set or another.
pub(crate) fn either(game: &mut Game, a: NodeId, b: NodeId) -> Result<NodeId, AllocError>
    requires can { CanBeDecided game.old }
    requires a { IsStateSet game.old a }
    requires b { IsStateSet game.old b }
    ensures value { IfOk result (λ id. Is (exact_game game.old).states (pool_ids game.new) id
        (λ s. set_of game.old a s || set_of game.old b s)) }
    ensures kept { Keeps game.old game.new }
{
    exact::either(game, a, b)
}

// The states in two sets.
pub(crate) fn both(game: &mut Game, a: NodeId, b: NodeId) -> Result<NodeId, AllocError>
    requires can { CanBeDecided game.old }
    requires a { IsStateSet game.old a }
    requires b { IsStateSet game.old b }
    ensures value { IfOk result (λ id. Is (exact_game game.old).states (pool_ids game.new) id
        (λ s. set_of game.old a s && set_of game.old b s)) }
    ensures kept { Keeps game.old game.new }
{
    exact::both(game, a, b)
}

// The states in the first set and not in the second.
pub(crate) fn rest(game: &mut Game, a: NodeId, b: NodeId) -> Result<NodeId, AllocError>
    requires can { CanBeDecided game.old }
    requires a { IsStateSet game.old a }
    requires b { IsStateSet game.old b }
    ensures value { IfOk result (λ id. Is (exact_game game.old).states (pool_ids game.new) id
        (λ s. set_of game.old a s && not (set_of game.old b s))) }
    ensures kept { Keeps game.old game.new }
{
    exact::rest(game, a, b)
}

// What the diagrams of a game are. It does nothing at run time but read.
pub(crate) fn tell(game: &Game)
    ensures { IsReduced game.now.diagrams.table }
{
    let _store = game.manager().store();
}

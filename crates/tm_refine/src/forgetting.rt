//! Diagrams that are not needed any more.
ghost use Rattle.std.specs.Prelude.{IfOk};
ghost use Rattle.tm_refine.specs.Pooled.{CanBeDecided, Forgets, pool_ids};
ghost use Rattle.tm_solve.specs.Ids.{Is};
ghost use Rattle.tm_solve_exact.specs.Exact.{IsStateSet, exact_game, set_of};

use std::alloc::AllocError;
use tm_dd::NodeId;
use tm_game::Game;
use tm_solve_exact::tell;

// Forgets all diagrams but those of the game and of a set, and answers the id of that set then.
pub(crate) fn forget(game: &mut Game, set: NodeId) -> Result<NodeId, AllocError>
    requires can { CanBeDecided game.old }
    requires set { IsStateSet game.old set }
    ensures value { IfOk result (λ id. Is (exact_game game.old).states (pool_ids game.new) id (set_of game.old set)) }
    ensures forgets { Forgets game.old game.new }
{
    let mut roots = [set];
    let copied = game.copy_roots(&mut roots);
    tell(game);
    match copied {
        Ok(()) => Ok(roots[0]),
        Err(error) => Err(error),
    }
}

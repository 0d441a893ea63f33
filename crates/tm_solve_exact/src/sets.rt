//! Operations on sets of states.
ghost use Rattle.std.specs.Prelude.{◌&&◌, ◌||◌, IfOk, not};
ghost use Rattle.tm_solve_exact.specs.Exact.{HasDesign, IsStateSet, exact_game, exact_ids, exact_operator, set_of};
ghost use Rattle.tm_game.specs.Game.{Grows};
ghost use Rattle.tm_solve.specs.Ids.{Follows, Is};

use std::alloc::AllocError;
use tm_dd::NodeId;
use tm_game::Game;

/// The states in one set or another.
///
/// Every id keeps its meaning, also where memory runs out.
pub fn either(game: &mut Game, a: NodeId, b: NodeId) -> Result<NodeId, AllocError>
    requires of { HasDesign game.old }
    requires a { IsStateSet game.old a }
    requires b { IsStateSet game.old b }
    ensures value { IfOk result (λ id. Is (exact_game game.old).states (exact_ids game.new) id
        (λ s. set_of game.old a s || set_of game.old b s)) }
    ensures follows { Follows (exact_game game.old) (exact_ids game.old) (exact_game game.new) (exact_ids game.new) }
    ensures of { HasDesign game.new }
    ensures grows { Grows game.old game.new }
{
    let answer = game.or(a, b);
    let _store = game.manager().store();
    answer
}

/// The states in two sets.
///
/// Every id keeps its meaning, also where memory runs out.
pub fn both(game: &mut Game, a: NodeId, b: NodeId) -> Result<NodeId, AllocError>
    requires of { HasDesign game.old }
    requires a { IsStateSet game.old a }
    requires b { IsStateSet game.old b }
    ensures value { IfOk result (λ id. Is (exact_game game.old).states (exact_ids game.new) id
        (λ s. set_of game.old a s && set_of game.old b s)) }
    ensures follows { Follows (exact_game game.old) (exact_ids game.old) (exact_game game.new) (exact_ids game.new) }
    ensures of { HasDesign game.new }
    ensures grows { Grows game.old game.new }
{
    let answer = game.and(a, b);
    let _store = game.manager().store();
    answer
}

/// The states in the first set and not in the second.
///
/// Every id keeps its meaning, also where memory runs out.
pub fn rest(game: &mut Game, a: NodeId, b: NodeId) -> Result<NodeId, AllocError>
    requires of { HasDesign game.old }
    requires a { IsStateSet game.old a }
    requires b { IsStateSet game.old b }
    ensures value { IfOk result (λ id. Is (exact_game game.old).states (exact_ids game.new) id
        (λ s. set_of game.old a s && not (set_of game.old b s))) }
    ensures follows { Follows (exact_game game.old) (exact_ids game.old) (exact_game game.new) (exact_ids game.new) }
    ensures of { HasDesign game.new }
    ensures grows { Grows game.old game.new }
{
    let answer = game.and(a, b.complement());
    let _store = game.manager().store();
    answer
}

// The states from which the driver can stay in a set.
pub(crate) fn stay(game: &mut Game, set: NodeId) -> Result<NodeId, AllocError>
    requires of { HasDesign game.old }
    requires set { IsStateSet game.old set }
    ensures value { IfOk result (λ id. Is (exact_game game.old).states (exact_ids game.new) id
        ((exact_operator game.old).stay (set_of game.old set))) }
    ensures follows { Follows (exact_game game.old) (exact_ids game.old) (exact_game game.new) (exact_ids game.new) }
    ensures of { HasDesign game.new }
    ensures grows { Grows game.old game.new }
{
    let answer = game.cpre(set);
    let _store = game.manager().store();
    answer
}

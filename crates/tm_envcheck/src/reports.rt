//! What is reported where a part of a condition fails.
ghost use Rattle.std.specs.Prelude.{IfOk};
ghost use Rattle.tm_envcheck.specs.Verdict.{CanCheck};
ghost use Rattle.tm_envcheck.specs.Inner.Over.{IsReady};
ghost use Rattle.tm_envcheck.specs.Inner.Reports.{IsFailure, IsInitialReport, IsWant};
ghost use Rattle.tm_game.specs.Game.{Grows, IsOf, IsSet};
ghost use Rattle.tm_game.specs.Least.{test_of};
ghost use Rattle.tm_syntax.specs.Design.{DesignTree};

use std::alloc::AllocError;
use tm_dd::NodeId;
use tm_game::Game;
use tm_verdict::Verdict;

/// A condition that fails at these states: refused at the least of them, and accepted where there is none.
pub(crate) fn fails_at(
    game: &mut Game,
    condition: u8,
    goal: u32,
    failing: NodeId,
) -> Result<Verdict, AllocError>
    requires { IsSet game.old failing }
    ensures grows { Grows game.old game.new }
    ensures verdict { IfOk result (λ v. (d : DesignTree) → IsOf d game.old
        → IsFailure d (test_of d game.old failing) condition goal v) }
{
    match game.least(failing)? {
        Some(state) => Ok(Verdict::Refused {
            condition,
            goal,
            state,
        }),
        None => Ok(Verdict::Accepted),
    }
}

/// A condition that names no state fails: the least initial state is reported.
pub(crate) fn fails(game: &mut Game, condition: u8, goal: u32) -> Result<Verdict, AllocError>
    requires { IsReady game.old }
    ensures grows { Grows game.old game.new }
    ensures verdict { IfOk result (λ v. (d : DesignTree) → CanCheck d game.old
        → IsInitialReport d condition goal v) }
{
    let initial = game.initial();
    fails_at(game, condition, goal, initial)
}

/// A condition that asks for some state of a set.
pub(crate) fn wants(
    game: &mut Game,
    condition: u8,
    goal: u32,
    wanted: NodeId,
) -> Result<Verdict, AllocError>
    requires ready { IsReady game.old }
    requires wanted { IsSet game.old wanted }
    ensures grows { Grows game.old game.new }
    ensures verdict { IfOk result (λ v. (d : DesignTree) → CanCheck d game.old
        → IsWant d (test_of d game.old wanted) condition goal v) }
{
    let Some(_found) = game.least(wanted)? else {
        return fails(game, condition, goal);
    };
    Ok(Verdict::Accepted)
}

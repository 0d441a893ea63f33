//! A part of a condition that is tried, and the least state at which it fails.
ghost use Rattle.std.specs.Prelude.{◌&&◌, IfOk, not};
ghost use Rattle.tm_check.specs.Tried.{IsFirstFailure};
ghost use Rattle.tm_dd.specs.Table.{Knows, means};
ghost use Rattle.tm_ddops.specs.Manager.{IsFunction};
ghost use Rattle.tm_game.specs.Game.{Grows, IsOf, IsSet};
ghost use Rattle.tm_syntax.specs.Design.{DesignTree};

use std::alloc::AllocError;
use tm_dd::NodeId;
use tm_game::Game;
use tm_verdict::Verdict;

/// What of a set another one leaves out.
pub(crate) fn without(game: &mut Game, set: NodeId, other: NodeId) -> Result<NodeId, AllocError>
    requires set { Knows game.old.diagrams.table set }
    requires other { Knows game.old.diagrams.table other }

    ensures grows { Grows game.old game.new }
    ensures rest { IfOk result (λ id. IsFunction game.new.diagrams.table id
        (λ v. means game.old.diagrams.table set v && not (means game.old.diagrams.table other v))) }
{
    let rest = game.and(set, other.complement())?;
    Ok(rest)
}

/// A part that fails at these states is refused at the least of them, and passes where there is none.
pub(crate) fn try_part(
    game: &mut Game,
    condition: u8,
    goal: u32,
    failing: NodeId,
) -> Result<Verdict, AllocError>
    requires { IsSet game.old failing }
    ensures grows { Grows game.old game.new }
    ensures first { IfOk result (λ verdict. (d : DesignTree) → IsOf d game.old
        → IsFirstFailure d game.old failing condition goal verdict) }
{
    let least = game.least(failing)?;
    match least {
        Some(state) => Ok(Verdict::Refused {
            condition,
            goal,
            state,
        }),
        None => Ok(Verdict::Accepted),
    }
}

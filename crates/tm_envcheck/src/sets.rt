//! Operations on sets of states.
ghost use Rattle.std.specs.Prelude.{◌≡◌, ◌&&◌, ◌||◌, ◌↔◌, ◌⊎◌, true, IfOk, not};
ghost use Rattle.tm_dd.specs.Table.{means};
ghost use Rattle.tm_envcheck.specs.Inner.Over.{IsReady};
ghost use Rattle.tm_verdict.specs.Levels.{IsForced};
ghost use Rattle.tm_game_bits.specs.Functions.{Assignment};
ghost use Rattle.tm_game.specs.Game.{Grows, IsOf, IsSet};
ghost use Rattle.tm_game.specs.Least.{test_of};
ghost use Rattle.tm_sem.specs.State.{StateData};
ghost use Rattle.tm_sem.specs.Step.{IsState};
ghost use Rattle.tm_syntax.specs.Design.{DesignTree};

use std::alloc::AllocError;
use tm_dd::NodeId;
use tm_game::Game;

/// The states in one set or another.
pub(crate) fn either(game: &mut Game, a: NodeId, b: NodeId) -> Result<NodeId, AllocError>
    requires a { IsSet game.old a }
    requires b { IsSet game.old b }
    ensures grows { Grows game.old game.new }
    ensures set { IfOk result (IsSet game.new) }
    ensures value { IfOk result (λ id. (v : Assignment) → means game.new.diagrams.table id v
        ≡ (means game.old.diagrams.table a v || means game.old.diagrams.table b v)) }
{
    game.or(a, b)
}

/// The states in two sets.
pub(crate) fn both(game: &mut Game, a: NodeId, b: NodeId) -> Result<NodeId, AllocError>
    requires a { IsSet game.old a }
    requires b { IsSet game.old b }
    ensures grows { Grows game.old game.new }
    ensures set { IfOk result (IsSet game.new) }
    ensures value { IfOk result (λ id. (v : Assignment) → means game.new.diagrams.table id v
        ≡ (means game.old.diagrams.table a v && means game.old.diagrams.table b v)) }
{
    game.and(a, b)
}

/// The states of a set that another one leaves out.
pub(crate) fn without(game: &mut Game, a: NodeId, b: NodeId) -> Result<NodeId, AllocError>
    requires a { IsSet game.old a }
    requires b { IsSet game.old b }
    ensures grows { Grows game.old game.new }
    ensures set { IfOk result (IsSet game.new) }
    ensures value { IfOk result (λ id. (v : Assignment) → means game.new.diagrams.table id v
        ≡ (means game.old.diagrams.table a v && not (means game.old.diagrams.table b v))) }
{
    game.and(a, b.complement())
}

/// The states of a set from which the environment cannot force an error or a state of another one.
pub(crate) fn unforced(
    game: &mut Game,
    states: NodeId,
    target: NodeId,
) -> Result<NodeId, AllocError>
    requires ready { IsReady game.old }
    requires states { IsSet game.old states }
    requires target { IsSet game.old target }

    ensures grows { Grows game.old game.new }
    ensures set { IfOk result (IsSet game.new) }
    ensures value { IfOk result (λ id. (d : DesignTree) → IsOf d game.old → (s : StateData) → IsState d s
        → (test_of d game.new id s ≡ true)
        ↔ ((test_of d game.old states s ≡ true) × (¬ IsForced d (test_of d game.old target) s))) }
    ensures decided { IfOk result (λ id. (d : DesignTree) → IsOf d game.old → (s : StateData) → IsState d s
        → IsForced d (test_of d game.old target) s ⊎ (¬ IsForced d (test_of d game.old target) s)) }
{
    let forced = game.epre(target)?;
    without(game, states, forced)
}

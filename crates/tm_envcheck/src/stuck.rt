//! The states that do not fall in a chain.
ghost use Rattle.std.specs.Prelude.{◌≡◌, ◌&&◌, ◌↔◌, ◌⊎◌, ℕ, ◌<◌, true, IfOk, length, not};
ghost use Rattle.std.specs.List.{list_any};
ghost use Rattle.tm_dd.specs.Table.{means};
ghost use Rattle.tm_dd.specs.declared.node.NodeId.{NodeId as Id};
ghost use Rattle.tm_envcheck.specs.Inner.Over.{AreSets, IsReady};
ghost use Rattle.tm_envcheck.specs.Inner.Stuck.{IsStuckIn, IsSettled};
ghost use Rattle.tm_envcheck.specs.Inner.Told.{chain_told};
ghost use Rattle.tm_verdict.specs.Levels.{IsForced};
ghost use Rattle.tm_game_bits.specs.Functions.{Assignment};
ghost use Rattle.tm_game.specs.Game.{Grows, IsOf, IsSet};
ghost use Rattle.tm_game.specs.Least.{test_of};
ghost use Rattle.tm_sem.specs.Certificates.{either as union_of};
ghost use Rattle.tm_sem.specs.State.{StateData};
ghost use Rattle.tm_sem.specs.Step.{IsState};
ghost use Rattle.tm_syntax.specs.Design.{DesignTree};

use crate::sets::{both, either, unforced, without};
use std::alloc::AllocError;
use tm_dd::{FALSE, NodeId};
use tm_game::Game;

/// The states in some set of a chain.
pub(crate) fn union(game: &mut Game, chain: &[NodeId]) -> Result<NodeId, AllocError>
    requires { AreSets game.old chain.now }
    ensures grows { Grows game.old game.new }
    ensures set { IfOk result (IsSet game.new) }
    ensures value { IfOk result (λ id. (v : Assignment) → means game.new.diagrams.table id v
        ≡ list_any (λ (set : Id). means game.old.diagrams.table set v) chain.now) }
{
    let mut held = FALSE;
    for set in chain {
        held = either(game, held, *set)?;
    }
    Ok(held)
}

/// The states of `unmet` that cannot be forced into the set before their place in a chain, or the level before. All
/// places count, since the least state is reported.
pub(crate) fn stuck(
    game: &mut Game,
    unmet: NodeId,
    below: NodeId,
    chain: &[NodeId],
) -> Result<NodeId, AllocError>
    requires ready { IsReady game.old }
    requires unmet { IsSet game.old unmet }
    requires below { IsSet game.old below }
    requires chain { AreSets game.old chain.now }

    ensures grows { Grows game.old game.new }
    ensures set { IfOk result (IsSet game.new) }
    ensures value { IfOk result (λ id. (d : DesignTree) → IsOf d game.old → (s : StateData) → IsState d s
        → (test_of d game.new id s ≡ true)
        ↔ IsStuckIn d (chain_told d game.old chain.now) (test_of d game.old unmet) (test_of d game.old below) s) }
    ensures settled { IfOk result (λ id. (d : DesignTree) → IsOf d game.old → (s : StateData) → IsState d s
        → (x : ℕ) → x < length chain.now
        → IsSettled d (chain_told d game.old chain.now) (test_of d game.old below) x s) }
{
    let mut failing = FALSE;
    let mut held = FALSE;
    let mut before = FALSE;
    for set in chain {
        let here = stuck_at(game, unmet, held, before, below, *set)?;
        failing = either(game, failing, here)?;
        held = either(game, held, *set)?;
        before = *set;
    }
    Ok(failing)
}

// The states of `unmet` that are in a set, not held by those before it, and cannot be forced into `before` or `below`.
fn stuck_at(
    game: &mut Game,
    unmet: NodeId,
    held: NodeId,
    before: NodeId,
    below: NodeId,
    set: NodeId,
) -> Result<NodeId, AllocError>
    requires ready { IsReady game.old }
    requires unmet { IsSet game.old unmet }
    requires held { IsSet game.old held }
    requires before { IsSet game.old before }
    requires below { IsSet game.old below }
    requires set { IsSet game.old set }

    ensures grows { Grows game.old game.new }
    ensures set { IfOk result (IsSet game.new) }
    ensures value { IfOk result (λ id. (d : DesignTree) → IsOf d game.old → (s : StateData) → IsState d s
        → (test_of d game.new id s ≡ true)
        ↔ ((((test_of d game.old unmet s && test_of d game.old set s) && not (test_of d game.old held s)) ≡ true)
        × (¬ IsForced d (union_of (test_of d game.old before) (test_of d game.old below)) s))) }
    ensures decided { IfOk result (λ id. (d : DesignTree) → IsOf d game.old → (s : StateData) → IsState d s
        → IsForced d (union_of (test_of d game.old before) (test_of d game.old below)) s
        ⊎ (¬ IsForced d (union_of (test_of d game.old before) (test_of d game.old below)) s)) }
{
    let placed = both(game, unmet, set)?;
    let here = without(game, placed, held)?;
    let lower = either(game, before, below)?;
    unforced(game, here, lower)
}

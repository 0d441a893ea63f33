//! Whether a manager knows the ids of a game.
ghost use Rattle.std.specs.Prelude.{◌≡◌, IsTrue, All};
ghost use Rattle.tm_dd.specs.Table.{Knows};
ghost use Rattle.tm_game_bits.specs.Diagrams.{KnowsChanges, KnowsGame, KnowsStep};

use crate::knowing::{knows, knows_changes};
use tm_dd::NodeId;
use tm_ddops::Manager;
use tm_game_bits::{GameDiagrams, StepDiagrams};

/// Whether a manager knows both ids.
fn knows_both(dd: &Manager, first: NodeId, second: NodeId) -> bool
    ensures first { IsTrue result → Knows dd.now.table first }
    ensures second { IsTrue result → Knows dd.now.table second }
{
    knows(dd, first) && knows(dd, second)
}

/// Whether a manager knows the ids of a step.
pub fn knows_step(dd: &Manager, step: &StepDiagrams) -> bool
    ensures { IsTrue result → KnowsStep dd.now.table step.now }
{
    knows_both(dd, step.legal, step.error) && knows_changes(dd, &step.next)
}

/// Whether a manager knows the ids of these steps.
#[tactic(auto, using(crate::proofs::Known::one_step_more))]
fn knows_steps(dd: &Manager, steps: &[StepDiagrams]) -> bool
    ensures { IsTrue result → All (KnowsStep dd.now.table) steps.now }
{
    for step in steps {
        if !knows_step(dd, step) {
            return false;
        }
    }
    true
}

/// Whether a manager knows these ids, and those of these changes and steps.
fn knows_parts(
    dd: &Manager,
    valid: NodeId,
    turn: NodeId,
    stutter: &[(u32, NodeId)],
    environment: &[StepDiagrams],
    driver: &[StepDiagrams],
) -> bool
    ensures valid { IsTrue result → Knows dd.now.table valid }
    ensures turn { IsTrue result → Knows dd.now.table turn }
    ensures stutter { IsTrue result → KnowsChanges dd.now.table stutter.now }
    ensures environment { IsTrue result → All (KnowsStep dd.now.table) environment.now }
    ensures driver { IsTrue result → All (KnowsStep dd.now.table) driver.now }
{
    knows_both(dd, valid, turn)
        && knows_changes(dd, stutter)
        && knows_steps(dd, environment)
        && knows_steps(dd, driver)
}

/// Whether a manager knows the ids of a game.
pub fn knows_game(dd: &Manager, game: &GameDiagrams) -> bool
    ensures { IsTrue result → KnowsGame dd.now.table game.now }
{
    knows_parts(
        dd,
        game.valid,
        game.turn,
        &game.stutter,
        &game.environment,
        &game.driver,
    )
}

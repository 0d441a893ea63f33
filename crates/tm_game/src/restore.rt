//! Other ids in the places of those of a game.
ghost use Rattle.std.specs.Prelude.{◌≡◌, ◌+◌, ◌≤◌, List, length};
ghost use Rattle.tm_dd.specs.Table.{Table};
ghost use Rattle.tm_dd.specs.declared.node.NodeId.{NodeId as Id};
ghost use Rattle.tm_ddops.specs.Copied.{MeanTheSame};
ghost use Rattle.tm_game.specs.Inner.Listed.{change_ids, game_ids, kept_ids, step_ids, steps_ids};
ghost use Rattle.tm_game.specs.Inner.Restored.{SameChanges, SameGame, SameKept, SameStep, SameSteps, StandAt};

use crate::opening::Kept;
use tm_dd::NodeId;
use tm_game_bits::{GameDiagrams, StepDiagrams};

/// Puts ids, from a place on, in the places of those of a game. It answers the place behind them.
pub(crate) fn put_game(steps: &mut GameDiagrams, ids: &[NodeId], at: usize) -> usize
    requires { at + length (game_ids steps.old) ≤ length ids.now }
    ensures at { result ≡ at + length (game_ids steps.old) }
    ensures same { (s t : Table) (olds : List Id) → MeanTheSame s olds t ids.now → StandAt olds at (game_ids steps.old)
        → SameGame s steps.old t steps.new }
{
    steps.valid = ids[at];
    steps.turn = ids[at + 1];
    let behind = put_changes(&mut steps.stutter, ids, at + 2);
    let behind = put_steps(&mut steps.environment, ids, behind);
    put_steps(&mut steps.driver, ids, behind)
}

/// Puts ids, from a place on, in the places of those that a game keeps.
pub(crate) fn put_kept(kept: &mut Kept, ids: &[NodeId], at: usize)
    requires { at + length (kept_ids kept.old) ≤ length ids.now }
    ensures { (s t : Table) (olds : List Id) → MeanTheSame s olds t ids.now → StandAt olds at (kept_ids kept.old)
        → SameKept s kept.old t kept.new }
{
    kept.initial = ids[at];
    kept.turn = ids[at + 1];
    let behind = put_ids(&mut kept.goals, ids, at + 2);
    put_ids(&mut kept.fairs, ids, behind);
}

/// Puts ids, from a place on, in the places of others. It answers the place behind them.
pub(crate) fn put_ids(own: &mut [NodeId], ids: &[NodeId], at: usize) -> usize
    requires { at + length own.old ≤ length ids.now }
    ensures at { result ≡ at + length own.old }
    ensures same { (s t : Table) (olds : List Id) → MeanTheSame s olds t ids.now → StandAt olds at own.old
        → MeanTheSame s own.old t own.new }
{
    let behind = at + own.len();
    own.copy_from_slice(&ids[at..behind]);
    behind
}

// Puts ids, from a place on, in the places of those of steps.
fn put_steps(steps: &mut Vec<StepDiagrams>, ids: &[NodeId], at: usize) -> usize
    requires { at + length (steps_ids steps.old.items) ≤ length ids.now }
    ensures at { result ≡ at + length (steps_ids steps.old.items) }
    ensures same { (s t : Table) (olds : List Id) → MeanTheSame s olds t ids.now
        → StandAt olds at (steps_ids steps.old.items) → SameSteps s steps.old.items t steps.new.items }
{
    let mut behind = at;
    for step in steps.iter_mut() {
        behind = put_step(step, ids, behind);
    }
    behind
}

// Puts ids, from a place on, in the places of those of a step.
fn put_step(step: &mut StepDiagrams, ids: &[NodeId], at: usize) -> usize
    requires { at + length (step_ids step.old) ≤ length ids.now }
    ensures at { result ≡ at + length (step_ids step.old) }
    ensures same { (s t : Table) (olds : List Id) → MeanTheSame s olds t ids.now → StandAt olds at (step_ids step.old)
        → SameStep s step.old t step.new }
{
    step.legal = ids[at];
    step.error = ids[at + 1];
    put_changes(&mut step.next, ids, at + 2)
}

// Puts ids, from a place on, in the places of those of changes.
fn put_changes(changes: &mut Vec<(u32, NodeId)>, ids: &[NodeId], at: usize) -> usize
    requires { at + length (change_ids changes.old.items) ≤ length ids.now }
    ensures at { result ≡ at + length (change_ids changes.old.items) }
    ensures same { (s t : Table) (olds : List Id) → MeanTheSame s olds t ids.now
        → StandAt olds at (change_ids changes.old.items) → SameChanges s changes.old.items t changes.new.items }
{
    let mut behind = at;
    for change in changes.iter_mut() {
        change.1 = ids[behind];
        behind += 1;
    }
    behind
}

//! The ids of a game in one list.
ghost use Rattle.std.specs.Prelude.{◌≡◌, ◌++◌, IfOk, OnOk};
ghost use Rattle.tm_game.specs.Inner.Listed.{change_ids, game_ids, kept_ids, step_ids, steps_ids};

use crate::opening::Kept;
use std::alloc::{AllocError, Global};
use tm_dd::NodeId;
use tm_game_bits::{GameDiagrams, StepDiagrams};

/// Some ids, and behind them those of a game and those that it keeps beside.
pub(crate) fn gathered(
    alloc: Global,
    roots: &[NodeId],
    steps: &GameDiagrams,
    kept: &Kept,
) -> Result<Vec<NodeId>, AllocError>
    ensures { IfOk result (λ ids. ids.items ≡ roots.now ++ (game_ids steps.now ++ kept_ids kept.now)) }
{
    let mut ids = Vec::from_slice(alloc, roots)?;
    push_game(&mut ids, steps)?;
    push_kept(&mut ids, kept)?;
    Ok(ids)
}

// Puts the ids of a game behind others.
fn push_game(ids: &mut Vec<NodeId>, steps: &GameDiagrams) -> Result<(), AllocError>
    ensures { OnOk result (ids.new.items ≡ ids.old.items ++ game_ids steps.now) }
{
    ids.push(steps.valid)?;
    ids.push(steps.turn)?;
    push_changes(ids, &steps.stutter)?;
    push_steps(ids, &steps.environment)?;
    push_steps(ids, &steps.driver)?;
    Ok(())
}

// Puts the ids that a game keeps behind others.
fn push_kept(ids: &mut Vec<NodeId>, kept: &Kept) -> Result<(), AllocError>
    ensures { OnOk result (ids.new.items ≡ ids.old.items ++ kept_ids kept.now) }
{
    ids.push(kept.initial)?;
    ids.push(kept.turn)?;
    ids.extend_from_slice(&kept.goals)?;
    ids.extend_from_slice(&kept.fairs)?;
    Ok(())
}

// Puts the ids of steps behind others.
fn push_steps(ids: &mut Vec<NodeId>, steps: &[StepDiagrams]) -> Result<(), AllocError>
    ensures { OnOk result (ids.new.items ≡ ids.old.items ++ steps_ids steps.now) }
{
    for step in steps {
        push_step(ids, step)?;
    }
    Ok(())
}

// Puts the ids of a step behind others.
fn push_step(ids: &mut Vec<NodeId>, step: &StepDiagrams) -> Result<(), AllocError>
    ensures { OnOk result (ids.new.items ≡ ids.old.items ++ step_ids step.now) }
{
    ids.push(step.legal)?;
    ids.push(step.error)?;
    push_changes(ids, &step.next)?;
    Ok(())
}

// Puts the ids of changes behind others.
fn push_changes(ids: &mut Vec<NodeId>, changes: &[(u32, NodeId)]) -> Result<(), AllocError>
    ensures { OnOk result (ids.new.items ≡ ids.old.items ++ change_ids changes.now) }
{
    for change in changes {
        ids.push(change.1)?;
    }
    Ok(())
}

//! One step of a play.
ghost use Rattle.std.specs.Prelude.{◌≡◌, ◌<◌, length, IfOk};
ghost use Rattle.tm_syntax.specs.Design.View.{design_tree};
ghost use Rattle.tm_sem.specs.Step.{IsState, Step};
ghost use Rattle.tm_sem.specs.declared.state.Outcome.TheVariants.{NoOutcome};
ghost use Rattle.tm_cir.specs.View.{trees_of};
ghost use Rattle.tm_cir.specs.Fit.{FitBlocks};
ghost use Rattle.tm_play.specs.declared.input.script.Actor.TheVariants.{Driver};
ghost use Rattle.tm_play.specs.Played.{IsMoveOf};
ghost use Rattle.tm_play.specs.Playable.{IsPlayable};
ghost use Rattle.tm_play.specs.Inner.Advance.{MovesBy, IsPosition, Advances, IsWithoutOutcome};

use crate::ending::StopWhy;
use crate::input::script::{Actor, Turn};
use std::alloc::{AllocError, Global};
use tm_cir::{Blocks, answer};
use tm_plain::Machine;
use tm_sem::state::{Move, Outcome, State};

/// Where a play is: its last state, and the goal that is pending there.
#[derive(Drop)]
pub struct Position {
    pub state: State,
    pub goal: u32,
}

/// What a step leads to.
#[derive(Drop)]
pub enum TurnOutcome {
    To(Move, Position),
    Stop(StopWhy),
    /// The driver's answer, which the turn rule permits, has no outcome.
    Stuck(Move),
}

/// The position at a state, where this goal was pending before it.
pub fn position_at(
    alloc: Global,
    machine: &Machine,
    state: State,
    goal: u32,
) -> Result<Position, AllocError>
    requires playable { IsPlayable (design_tree machine.now) }
    requires below { goal < length (design_tree machine.now).goals }
    requires state { IsState (design_tree machine.now) state }
    ensures position { IfOk result (IsPosition (design_tree machine.now) goal) }
    ensures same { IfOk result (λ p. p.state ≡ state) }
{
    if !machine.holds(alloc, &state, goal)? {
        return Ok(Position { state, goal });
    }
    let next = goal as usize + 1;
    let goal = if next < machine.design().goals.len() {
        next as u32
    } else {
        0
    };
    Ok(Position { state, goal })
}

/// The move of an actor; none where the driver is to move and cannot be picked.
fn move_of(
    alloc: Global,
    machine: &Machine,
    blocks: &Blocks,
    state: &State,
    goal: u32,
    actor: Actor,
) -> Result<Option<Move>, AllocError>
    requires blocks { FitBlocks (design_tree machine.now) (trees_of blocks.now) }
    requires state { IsState (design_tree machine.now) state.now }
    ensures { IfOk result (MovesBy (design_tree machine.now) (trees_of blocks.now) state.now goal actor) }
{
    match actor {
        Actor::Stutter => Ok(Some(Move::Stutter)),
        Actor::Process(process) => Ok(Some(Move::Process(process))),
        Actor::Driver => {
            if machine.magic(state) {
                Ok(Some(answer(alloc, blocks, state, goal)))
            } else {
                Ok(None)
            }
        }
    }
}

/// What a driver's answer without an outcome leads to: what the turn rule does not permit is forbidden.
fn without_answer(
    alloc: Global,
    machine: &Machine,
    state: &State,
    action: Move,
) -> Result<TurnOutcome, AllocError>
    ensures { IfOk result (IsWithoutOutcome (design_tree machine.now) state.now Driver action) }
{
    let permits = machine.permits(alloc, state, &action)?;
    if permits {
        Ok(TurnOutcome::Stuck(action))
    } else {
        Ok(TurnOutcome::Stop(StopWhy::Forbidden))
    }
}

/// What a move without an outcome leads to.
fn without_outcome(
    alloc: Global,
    machine: &Machine,
    state: &State,
    actor: Actor,
    action: Move,
) -> Result<TurnOutcome, AllocError>
    ensures { IfOk result (IsWithoutOutcome (design_tree machine.now) state.now actor action) }
{
    match actor {
        Actor::Driver => without_answer(alloc, machine, state, action),
        _ => Ok(TurnOutcome::Stop(StopWhy::Illegal)),
    }
}

/// The stop at a move of the step that has no outcome.
fn stop_without_outcome(
    alloc: Global,
    machine: &Machine,
    blocks: &Blocks,
    position: &Position,
    turn: &Turn,
    action: Move,
) -> Result<TurnOutcome, AllocError>
    requires moved { IsMoveOf (design_tree machine.now) (trees_of blocks.now) position.now.state position.now.goal
        turn.now.actor action }
    requires step { Step (design_tree machine.now) position.now.state action turn.now.choices NoOutcome }
    ensures { IfOk result (Advances (design_tree machine.now) (trees_of blocks.now)
        position.now.state position.now.goal turn.now) }
{
    let outcome = without_outcome(alloc, machine, &position.state, turn.actor, action)?;
    Ok(outcome)
}

/// What a step leads to, from a position.
pub fn advance(
    alloc: Global,
    machine: &Machine,
    blocks: &Blocks,
    position: &Position,
    turn: &Turn,
) -> Result<TurnOutcome, AllocError>
    requires playable { IsPlayable (design_tree machine.now) }
    requires blocks { FitBlocks (design_tree machine.now) (trees_of blocks.now) }
    requires state { IsState (design_tree machine.now) position.now.state }
    requires below { position.now.goal < length (design_tree machine.now).goals }
    ensures { IfOk result (Advances (design_tree machine.now) (trees_of blocks.now)
        position.now.state position.now.goal turn.now) }
{
    let state = &position.state;
    let Some(action) = move_of(alloc, machine, blocks, state, position.goal, turn.actor)? else {
        return Ok(TurnOutcome::Stop(StopWhy::Illegal));
    };
    match machine.step(alloc, state, &action, &turn.choices)? {
        Outcome::Next(next) => {
            let next = position_at(alloc, machine, next, position.goal)?;
            Ok(TurnOutcome::To(action, next))
        }
        Outcome::Error => Ok(TurnOutcome::Stop(StopWhy::Error)),
        Outcome::NoOutcome => {
            stop_without_outcome(alloc, machine, blocks, position, turn, action)
        }
    }
}

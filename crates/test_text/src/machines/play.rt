//! Plays by the tables of a design.

use super::moves::{Turn, turn_of};
use super::validity::validity;
use case_rows::{numbers, split_word};
use std::alloc::{AllocError, Global};
use tm_plain::Machine;
use tm_sem::SemError;
use tm_sem::state::{Outcome, State};

/// The most goals of a design.
const MOST_GOALS: u32 = 16;

/// A state as text.
fn state_text(alloc: Global, machine: &Machine, state: &State) -> Result<String, AllocError> {
    let values = &state.values;
    let places = &state.places;
    let magic = if machine.magic(state) { " magic" } else { "" };
    format!(in alloc; "{values:?} {places:?} {}{magic}", state.last)
}

/// Whether a goal of a design holds at a state, if the design has so many.
fn has_goal(
    alloc: Global,
    machine: &Machine,
    state: &State,
    goal: u32,
) -> Result<bool, AllocError> {
    if (goal as usize) < machine.design().goals.len() {
        machine.holds(alloc, state, goal)
    } else {
        Ok(false)
    }
}

/// The goals that hold at a state.
fn goals_at(alloc: Global, machine: &Machine, state: &State) -> Result<Vec<u32>, AllocError> {
    let mut goals = Vec::new(alloc);
    for goal in 0..MOST_GOALS {
        if has_goal(alloc, machine, state, goal)? {
            goals.push(goal)?;
        }
    }
    Ok(goals)
}

/// A state with which a play begins, as text: with the goals that hold there.
fn first_text(alloc: Global, machine: &Machine, state: &State) -> Result<String, AllocError> {
    let text = state_text(alloc, machine, state)?;
    let goals = goals_at(alloc, machine, state)?;
    format!(in alloc; "{text} {goals:?}")
}

/// Begins a play.
fn begin(
    alloc: Global,
    machine: &Machine,
    state: &mut State,
    choices: &[u64],
) -> Result<String, AllocError> {
    match machine.first_state(alloc, choices) {
        Ok(first) => {
            let text = first_text(alloc, machine, &first)?;
            *state = first;
            Ok(text)
        }
        Err(SemError::BadChoices) => String::from_str(alloc, "bad"),
        Err(SemError::Memory) => Err(AllocError),
    }
}

/// Why a move has no outcome.
fn hindrance(
    alloc: Global,
    machine: &Machine,
    state: &State,
    turn: &Turn,
) -> Result<String, AllocError> {
    let permitted = machine.permits(alloc, state, &turn.action)?;
    String::from_str(alloc, if permitted { "none" } else { "barred" })
}

/// Goes on with a play.
fn advance(
    alloc: Global,
    machine: &Machine,
    state: &mut State,
    turn: &Turn,
) -> Result<String, AllocError> {
    match machine.step(alloc, state, &turn.action, &turn.choices)? {
        Outcome::Next(next) => {
            let text = state_text(alloc, machine, &next)?;
            *state = next;
            Ok(text)
        }
        Outcome::Error => String::from_str(alloc, "error"),
        Outcome::NoOutcome => hindrance(alloc, machine, state, turn),
    }
}

/// The answer to a question, by tables.
pub fn play_answer(
    alloc: Global,
    machine: &Machine,
    state: &mut State,
    question: &str,
) -> Result<String, AllocError> {
    let (verb, rest) = split_word(question);
    match verb {
        "start" => begin(alloc, machine, state, &numbers(alloc, rest)?),
        "valid" => validity(alloc, machine, rest),
        _ => advance(alloc, machine, state, &turn_of(alloc, question)?),
    }
}

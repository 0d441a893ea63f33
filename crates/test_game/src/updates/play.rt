//! Plays in which every step is told by terms and by the interpreter.

use super::met::Met;
use super::moves::moves_at;
use super::runs::Standing;
use crate::steps::{Reach, number_at, runs, word};
use case_rows::numbers;
use std::alloc::{AllocError, Global};
use tm_game::{Game, numbers_of};
use tm_plain::Machine;
use tm_sem::SemError;
use tm_sem::state::Move;

/// How plays go: so many plays of so many steps, so many bits of choices for terms, and how far choices are tried for
/// the interpreter.
#[derive(Clone, Copy)]
struct Plan {
    plays: u64,
    steps: u64,
    bits: u32,
    reach: Reach,
}

/// The plan that numbers tell.
fn plan_of(numbers: &[u64]) -> Plan {
    Plan {
        plays: number_at(numbers, 0),
        steps: number_at(numbers, 1),
        bits: word(number_at(numbers, 2)),
        reach: Reach {
            length: number_at(numbers, 3),
            range: number_at(numbers, 4),
        },
    }
}

/// Makes a move in both ways: whether both lead to the same.
fn make_move(
    alloc: Global,
    machine: &Machine,
    game: &Game,
    at: &Standing,
    action: &Move,
    reach: Reach,
    met: &mut Met,
) -> Result<bool, AllocError> {
    let led = at.led(alloc, game.flat(), action)?;
    if led != runs(alloc, machine, &at.state, action, reach)? {
        return Ok(false);
    }
    met.lead(alloc, action, &led)?;
    Ok(true)
}

/// Makes moves in both ways: whether both lead to the same.
fn make_moves(
    alloc: Global,
    machine: &Machine,
    game: &Game,
    at: &Standing,
    moves: &[Move],
    reach: Reach,
    met: &mut Met,
) -> Result<bool, AllocError> {
    for action in moves {
        if !make_move(alloc, machine, game, at, action, reach, met)? {
            return Ok(false);
        }
    }
    Ok(true)
}

/// Makes every move at the state of these numbers in both ways: whether both lead to the same.
fn make_round(
    alloc: Global,
    machine: &Machine,
    game: &Game,
    plan: &Plan,
    numbers: &[u64],
    met: &mut Met,
) -> Result<bool, AllocError> {
    let arguments = met.drawn_word();
    let at = Standing::at(alloc, machine, game, numbers, plan.bits, arguments)?;
    let moves = moves_at(alloc, game.flat(), &at.state, arguments)?;
    met.stand(&at.state.places)?;
    make_moves(alloc, machine, game, &at, &moves, plan.reach, met)
}

/// Plays once from the state of these numbers, for as many steps as are planned or until a state has no next one:
/// whether all moves led to the same in both ways.
fn play_once(
    alloc: Global,
    machine: &Machine,
    game: &Game,
    plan: &Plan,
    begun: &[u64],
    met: &mut Met,
) -> Result<bool, AllocError> {
    let mut at = Vec::from_slice(alloc, begun)?;
    for _ in 0..plan.steps {
        if !make_round(alloc, machine, game, plan, &at, met)? {
            return Ok(false);
        }
        match met.drawn_next() {
            Some(numbers) => at = numbers,
            None => return Ok(true),
        }
    }
    Ok(true)
}

/// Plays as often as it is planned from the state of these numbers: what was met, or that the two ways differ.
fn play(
    alloc: Global,
    machine: &Machine,
    game: &Game,
    plan: &Plan,
    begun: &[u64],
) -> Result<String, AllocError> {
    let mut met = Met::new(alloc);
    for _ in 0..plan.plays {
        if !play_once(alloc, machine, game, plan, begun, &mut met)? {
            return String::from_str(alloc, "the terms and the interpreter differ");
        }
    }
    met.text(alloc, game.flat())
}

/// Plays as the words say: what was met, or that the two ways differ.
pub fn play_answer(
    alloc: Global,
    machine: &Machine,
    game: &Game,
    words: &str,
) -> Result<String, AllocError> {
    let plan = plan_of(&numbers(alloc, words)?);
    match machine.first_state(alloc, &[]) {
        Ok(state) => play(alloc, machine, game, &plan, &numbers_of(alloc, &state)?),
        Err(SemError::BadChoices) => String::from_str(alloc, "no first state"),
        Err(SemError::Memory) => Err(AllocError),
    }
}

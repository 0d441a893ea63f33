//! What moves lead to, by the interpreter.

use std::alloc::{AllocError, Global};
use tm_game::numbers_of;
use tm_plain::Machine;
use tm_sem::state::{Move, Outcome, State};

/// How far choices are tried: in lists of at most so many, each below a range.
#[derive(Clone, Copy)]
pub struct Reach {
    pub length: u64,
    pub range: u64,
}

/// What a move leads to: the numbers of the next state, and none where it is an error.
pub type Led = Option<Vec<u64>>;

/// A number in a word of 32 bits.
pub fn word(number: u64) -> u32 {
    u32::try_from(number).unwrap_or(u32::MAX)
}

/// The number at a place, and 0 past the end.
pub fn number_at(numbers: &[u64], place: usize) -> u64 {
    numbers.get(place).copied().unwrap_or(0)
}

/// The state of a machine that numbers tell.
pub fn state_of(alloc: Global, machine: &Machine, numbers: &[u64]) -> Result<State, AllocError> {
    let design = machine.design();
    let first = design.vars.len();
    let behind = first.saturating_add(design.processes.len());
    let values = Vec::from_slice(alloc, numbers.get(..first).unwrap_or(numbers))?;
    let mut places = Vec::new(alloc);
    for place in numbers.get(first..behind).unwrap_or(numbers) {
        places.push(word(*place))?;
    }
    Ok(State {
        values,
        places,
        last: word(number_at(numbers, behind)),
    })
}

/// Pushes each list of choices with one choice more, below a range.
fn push_longer(
    alloc: Global,
    lists: &mut Vec<Vec<u64>>,
    shorter: &[u64],
    range: u64,
) -> Result<(), AllocError> {
    for choice in 0..range {
        let mut longer = Vec::from_slice(alloc, shorter)?;
        longer.push(choice)?;
        lists.push(longer)?;
    }
    Ok(())
}

/// Tries a move with a list of choices: pushes what it leads to, or the longer lists where it gives no outcome. A list
/// that gives an outcome is not made longer, since a choice would be left over.
fn push_run(
    alloc: Global,
    machine: &Machine,
    state: &State,
    action: &Move,
    list: &[u64],
    range: u64,
    all: &mut Vec<Led>,
    longer: &mut Vec<Vec<u64>>,
) -> Result<(), AllocError> {
    match machine.step(alloc, state, action, list)? {
        Outcome::Next(next) => all.push(Some(numbers_of(alloc, &next)?))?,
        Outcome::Error => all.push(None)?,
        Outcome::NoOutcome => push_longer(alloc, longer, list, range)?,
    }
    Ok(())
}

/// Tries a move with each of some lists of choices: pushes what it leads to, and answers the lists of one choice more
/// than those that give no outcome.
fn push_runs(
    alloc: Global,
    machine: &Machine,
    state: &State,
    action: &Move,
    lists: &[Vec<u64>],
    range: u64,
    all: &mut Vec<Led>,
) -> Result<Vec<Vec<u64>>, AllocError> {
    let mut longer = Vec::new(alloc);
    for list in lists {
        push_run(alloc, machine, state, action, list, range, all, &mut longer)?;
    }
    Ok(longer)
}

/// Everything that a move leads to within a reach, in order and each once.
pub fn runs(
    alloc: Global,
    machine: &Machine,
    state: &State,
    action: &Move,
    reach: Reach,
) -> Result<Vec<Led>, AllocError> {
    let mut all = Vec::new(alloc);
    let mut lists = Vec::new(alloc);
    lists.push(Vec::new(alloc))?;
    for _ in 0..reach.length.saturating_add(1) {
        lists = push_runs(alloc, machine, state, action, &lists, reach.range, &mut all)?;
    }
    all.sort()?;
    all.dedup();
    Ok(all)
}

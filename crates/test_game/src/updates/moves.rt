//! The moves of a state that guarded updates tell: one of each process, and a call of each controllable task.

use crate::states::is_at;
use crate::steps::word;
use smallvec::SmallVec;
use std::alloc::{AllocError, Global};
use tm_flat::{Flat, FlatStep};
use tm_sem::state::{Args, Move, State};

/// The step of a process from a location, if there is one.
fn step_at(flat: &Flat, process: usize, place: usize) -> Option<&FlatStep> {
    flat.processes.get(process)?.get(place)
}

/// The step that tells a move of a state, if there is one.
pub fn step_of<'f>(flat: &'f Flat, state: &State, action: &Move) -> Option<&'f FlatStep> {
    match action {
        Move::Stutter | Move::Idle => None,
        Move::Process(process) | Move::Leave(process) => {
            let place = state.places.get(*process as usize)?;
            step_at(flat, *process as usize, *place as usize)
        }
        Move::Call(task, _) => flat.tasks.get(*task as usize),
    }
}

/// The move of a process from a location.
fn process_move(flat: &Flat, process: usize, place: usize) -> Move {
    let number = word(process as u64);
    match flat.magic.get(process) {
        Some(marks) if is_at(marks, place) => Move::Leave(number),
        _ => Move::Process(number),
    }
}

/// Pushes the moves of processes.
fn push_processes(flat: &Flat, state: &State, moves: &mut Vec<Move>) -> Result<(), AllocError> {
    for (process, place) in state.places.iter().enumerate() {
        if step_at(flat, process, *place as usize).is_some() {
            moves.push(process_move(flat, process, *place as usize))?;
        }
    }
    Ok(())
}

/// The most significant bits of a word, as many as a width tells.
fn top_bits(word: u64, width: u8) -> u64 {
    let below = 64u32.saturating_sub(u32::from(width));
    word.checked_shr(below).unwrap_or(0)
}

/// The arguments of these widths that a word holds, from its most significant bit on.
fn arguments(alloc: Global, widths: &[u8], word: u64) -> Result<Args, AllocError> {
    let mut list = SmallVec::new(alloc);
    let mut rest = word;
    for width in widths {
        list.push(top_bits(rest, *width))?;
        rest = rest.checked_shl(u32::from(*width)).unwrap_or(0);
    }
    Ok(Args { list })
}

/// The moves of a state, where a word holds the arguments of calls.
pub fn moves_at(
    alloc: Global,
    flat: &Flat,
    state: &State,
    argument_bits: u64,
) -> Result<Vec<Move>, AllocError> {
    let mut moves = Vec::new(alloc);
    push_processes(flat, state, &mut moves)?;
    for (task, widths) in flat.parameters.iter().enumerate() {
        let arguments = arguments(alloc, widths, argument_bits)?;
        moves.push(Move::Call(word(task as u64), arguments))?;
    }
    Ok(moves)
}

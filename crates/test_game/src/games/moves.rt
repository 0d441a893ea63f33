//! The moves of a design that are tried at each state.

use crate::states::Fields;
use crate::steps::word;
use smallvec::SmallVec;
use std::alloc::{AllocError, Global};
use tm_flat::Flat;
use tm_game::MoveShape;
use tm_sem::state::{Args, Move};

/// A move, with its shape where it is the driver's, and the bits of its arguments.
#[derive(Drop)]
pub struct Asked {
    pub action: Move,
    pub shape: Option<MoveShape>,
    pub arguments: Vec<bool>,
}

/// Numbers as the arguments of a call.
fn arguments(alloc: Global, numbers: &[u64]) -> Result<Args, AllocError> {
    let mut list = SmallVec::new(alloc);
    for number in numbers {
        list.push(*number)?;
    }
    Ok(Args { list })
}

/// A call of a task with the arguments of a word.
fn call(alloc: Global, task: u32, fields: &Fields, word: u64) -> Result<Asked, AllocError> {
    let numbers = fields.split(alloc, word)?;
    let bits = fields.bits_of(alloc, word)?;
    let arguments = arguments(alloc, &numbers)?;
    Ok(Asked {
        action: Move::Call(task, arguments),
        shape: Some(MoveShape::Call(task)),
        arguments: bits,
    })
}

/// Pushes the calls of a task, for all bits of arguments.
fn push_calls(
    alloc: Global,
    moves: &mut Vec<Asked>,
    task: u32,
    widths: &[u8],
) -> Result<(), AllocError> {
    let fields = Fields::new(alloc, widths)?;
    for word in 0..fields.words() {
        moves.push(call(alloc, task, &fields, word)?)?;
    }
    Ok(())
}

/// A move without arguments.
fn plain(alloc: Global, action: Move, shape: Option<MoveShape>) -> Asked {
    Asked {
        action,
        shape,
        arguments: Vec::new(alloc),
    }
}

/// Pushes what processes do: each runs, and leaves the magic block at which it stands.
fn push_processes(
    alloc: Global,
    moves: &mut Vec<Asked>,
    processes: usize,
) -> Result<(), AllocError> {
    for process in 0..processes {
        let number = word(process as u64);
        moves.push(plain(alloc, Move::Process(number), None))?;
        let leave = MoveShape::Leave(number);
        moves.push(plain(alloc, Move::Leave(number), Some(leave)))?;
    }
    Ok(())
}

/// The moves of a design as guarded updates.
pub fn moves_of(alloc: Global, flat: &Flat) -> Result<Vec<Asked>, AllocError> {
    let mut moves = Vec::new(alloc);
    moves.push(plain(alloc, Move::Stutter, None))?;
    moves.push(plain(alloc, Move::Idle, Some(MoveShape::Idle)))?;
    push_processes(alloc, &mut moves, flat.processes.len())?;
    for (task, widths) in flat.parameters.iter().enumerate() {
        push_calls(alloc, &mut moves, word(task as u64), widths)?;
    }
    Ok(moves)
}

//! Moves, and the words that tell them.

use case_rows::{number, numbers, split_word};
use smallvec::SmallVec;
use std::alloc::{AllocError, Global};
use tm_sem::state::{Args, Move};

/// A move with its choices.
#[derive(Drop)]
pub struct Turn {
    pub action: Move,
    pub choices: Vec<u64>,
}

/// A call of the task that the first of these words tells, with the arguments that the others tell.
fn call_of(alloc: Global, text: &str) -> Result<Move, AllocError> {
    let (task, arguments) = split_word(text);
    let mut list = SmallVec::new(alloc);
    for argument in &numbers(alloc, arguments)? {
        list.push(*argument)?;
    }
    Ok(Move::Call(number(task), Args { list }))
}

/// The move that words tell.
fn move_of(alloc: Global, text: &str) -> Result<Move, AllocError> {
    let (verb, rest) = split_word(text);
    match verb {
        "process" => Ok(Move::Process(number(rest))),
        "idle" => Ok(Move::Idle),
        "leave" => Ok(Move::Leave(number(rest))),
        "call" => call_of(alloc, rest),
        _ => Ok(Move::Stutter),
    }
}

/// The move and the choices that a question tells.
pub fn turn_of(alloc: Global, question: &str) -> Result<Turn, AllocError> {
    let (action, choices) = question.split_once(": ").unwrap_or((question, ""));
    Ok(Turn {
        action: move_of(alloc, action)?,
        choices: numbers(alloc, choices)?,
    })
}

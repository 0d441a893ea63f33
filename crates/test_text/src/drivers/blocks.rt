//! Blocks that are spelled one by one.

use case_rows::{number, split_word};
use std::alloc::{AllocError, Global};
use tm_base::ShiftOperator;
use tm_cir::{Block, Num64, Truth};

/// A variable or a location.
fn leaf(text: &str) -> Num64 {
    match text.strip_prefix('p') {
        Some(process) => Num64::Location(number(process)),
        None => Num64::Var(number(text.strip_prefix('v').unwrap_or(text))),
    }
}

/// A number shifted by so many bits.
fn shifted(
    alloc: Global,
    operator: ShiftOperator,
    text: &str,
    bits: &str,
) -> Result<Num64, AllocError> {
    let operand = Box::new(alloc, leaf(text))?;
    Ok(Num64::Shift(operator, operand, bits.parse().unwrap_or(0)))
}

/// A variable or a location, which may be shifted.
fn num(alloc: Global, text: &str) -> Result<Num64, AllocError> {
    if let Some((operand, bits)) = text.split_once(" << ") {
        return shifted(alloc, ShiftOperator::Left, operand, bits);
    }
    if let Some((operand, bits)) = text.split_once(" >> ") {
        return shifted(alloc, ShiftOperator::Right, operand, bits);
    }
    Ok(leaf(text))
}

/// A variable or a location as a truth, which may be negated.
fn truth(alloc: Global, text: &str) -> Result<Truth, AllocError> {
    match text.strip_prefix('!') {
        Some(operand) => Ok(Truth::Not(Box::new(alloc, Truth::Num(leaf(operand)))?)),
        None => Ok(Truth::Num(leaf(text))),
    }
}

/// The arguments of a call.
fn arguments(alloc: Global, text: &str) -> Result<Vec<Num64>, AllocError> {
    let mut arguments = Vec::new(alloc);
    if !text.is_empty() {
        for part in text.split(", ") {
            arguments.push(num(alloc, part)?)?;
        }
    }
    Ok(arguments)
}

/// The test with these targets and this truth.
fn test(alloc: Global, text: &str) -> Result<Block, AllocError> {
    let (first, tail) = split_word(text);
    let (second, tail) = split_word(tail);
    Ok(Block::Test(truth(alloc, tail)?, number(first), number(second)))
}

/// The call of this task with these arguments.
fn call(alloc: Global, text: &str) -> Result<Block, AllocError> {
    let (task, tail) = split_word(text);
    Ok(Block::Call(number(task), arguments(alloc, tail)?))
}

/// The block that a text spells.
fn block(alloc: Global, text: &str) -> Result<Block, AllocError> {
    let (head, tail) = split_word(text);
    match head {
        "if" => test(alloc, tail),
        "call" => call(alloc, tail),
        "leave" => Ok(Block::Leave(number(tail))),
        _ => Ok(Block::Idle),
    }
}

/// The blocks that a text spells, one behind each `;`. An empty text spells none.
pub fn blocks(alloc: Global, text: &str) -> Result<Vec<Block>, AllocError> {
    let mut blocks = Vec::new(alloc);
    if !text.is_empty() {
        for part in text.split("; ") {
            blocks.push(block(alloc, part)?)?;
        }
    }
    Ok(blocks)
}

/// A test with a truth that is negated so many times, and an idle block.
pub fn negated(alloc: Global, times: u32) -> Result<Vec<Block>, AllocError> {
    let mut truth = Truth::Num(Num64::Var(0));
    for _ in 0..times {
        truth = Truth::Not(Box::new(alloc, truth)?);
    }
    Ok(Vec::from_array(alloc, [Block::Test(truth, 1, 1), Block::Idle])?)
}

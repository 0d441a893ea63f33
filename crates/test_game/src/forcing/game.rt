//! A game of two bits of state, with one bit more for a choice or an argument.
//!
//! The state is a flag and whether it is the driver's turn; a flag off turn is no valid state. Off turn the client sets
//! the flag to any value and gives the turn away. The driver sets the flag to what its argument is not, which errs
//! where the flag stays unset, and may be idle where the flag is set. A stutter changes nothing.

use crate::functions::from_table;
use crate::workbench::Workbench;
use std::alloc::{AllocError, Global};
use tm_dd::NodeId;
use tm_game_bits::{GameDiagrams, StepDiagrams};

const FLAG: u32 = 0;

const TURN: u32 = 1;

const INPUT: u32 = 2;

// Tables: bit k is the value where the flag, the turn and the input are the bits of k, the highest first.

const VALID: u8 = 0b1100_1111;

const AT_TURN: u8 = 0b1100_1100;

const OFF_TURN: u8 = 0b0011_0011;

const FLAG_SET: u8 = 0b1111_0000;

const INPUT_SET: u8 = 0b1010_1010;

const INPUT_UNSET: u8 = 0b0101_0101;

const STAYS_UNSET: u8 = 0b0000_1010;

const ALWAYS: u8 = 0b1111_1111;

const NEVER: u8 = 0;

/// The functions of bits after a step, whose tables are told.
fn changes(
    alloc: Global,
    bench: &mut Workbench,
    tables: &[(u32, u8)],
) -> Result<Vec<(u32, NodeId)>, AllocError> {
    let mut changes = Vec::new(alloc);
    for (level, table) in tables {
        match from_table(bench, *table) {
            Ok(id) => changes.push((*level, id))?,
            Err(error) => return Err(error),
        }
    }
    Ok(changes)
}

/// A step: where it is legal, where it errs, and what the bits are after it, told by tables, with its choices and its
/// arguments.
fn step(
    alloc: Global,
    bench: &mut Workbench,
    legal: u8,
    error: u8,
    next: &[(u32, u8)],
    choices: &[u32],
    arguments: &[u32],
) -> Result<StepDiagrams, AllocError> {
    let legal = from_table(bench, legal)?;
    let error = from_table(bench, error)?;
    Ok(StepDiagrams {
        legal,
        error,
        next: changes(alloc, bench, next)?,
        choices: Vec::from_slice(alloc, choices)?,
        arguments: Vec::from_slice(alloc, arguments)?,
    })
}

/// What the client does.
fn environment(alloc: Global, bench: &mut Workbench) -> Result<Vec<StepDiagrams>, AllocError> {
    let mut steps = Vec::new(alloc);
    let next = [(FLAG, INPUT_SET), (TURN, ALWAYS)];
    steps.push(step(alloc, bench, OFF_TURN, NEVER, &next, &[INPUT], &[])?)?;
    Ok(steps)
}

/// The task of the driver, and its step that changes nothing.
fn driver(alloc: Global, bench: &mut Workbench) -> Result<Vec<StepDiagrams>, AllocError> {
    let mut steps = Vec::new(alloc);
    let next = [(FLAG, INPUT_UNSET)];
    steps.push(step(alloc, bench, ALWAYS, STAYS_UNSET, &next, &[], &[INPUT])?)?;
    steps.push(step(alloc, bench, FLAG_SET, NEVER, &[], &[], &[])?)?;
    Ok(steps)
}

/// The game.
pub fn game(alloc: Global, bench: &mut Workbench) -> Result<GameDiagrams, AllocError> {
    let valid = from_table(bench, VALID)?;
    let turn = from_table(bench, AT_TURN)?;
    let environment = environment(alloc, bench)?;
    let driver = driver(alloc, bench)?;
    Ok(GameDiagrams {
        valid,
        turn,
        stutter: Vec::new(alloc),
        environment,
        driver,
    })
}

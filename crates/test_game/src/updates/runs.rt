//! What moves lead to by terms, over bits of choices.

use super::moves::step_of;
use crate::steps::{Led, state_of, value_in, values_at};
use std::alloc::{AllocError, Global};
use tm_flat::{Flat, FlatStep};
use tm_game::Game;
use tm_plain::Machine;
use tm_sem::state::{Move, State};

/// A state, with the values of all terms there for each number whose bits are those of the choices.
#[derive(Drop)]
pub struct Standing {
    pub state: State,
    tables: Vec<Vec<u64>>,
}

/// What a step leads to by the values of its terms: pushes it where it has an outcome.
fn push_led(
    alloc: Global,
    step: &FlatStep,
    table: &[u64],
    all: &mut Vec<Led>,
) -> Result<(), AllocError> {
    if value_in(table, step.legal) == 0 {
        return Ok(());
    }
    if value_in(table, step.error) == 1 {
        all.push(None)?;
        return Ok(());
    }
    let mut numbers = Vec::new(alloc);
    for id in &step.next {
        numbers.push(value_in(table, *id))?;
    }
    all.push(Some(numbers))?;
    Ok(())
}

impl Standing {
    /// The state of these numbers, where terms are told the first bits of choices, and a word of arguments.
    pub fn at(
        alloc: Global,
        machine: &Machine,
        game: &Game,
        numbers: &[u64],
        bits: u32,
        arguments: u64,
    ) -> Result<Standing, AllocError> {
        let state = state_of(alloc, machine, numbers)?;
        let mut tables = Vec::new(alloc);
        for choices in 0..1u64.checked_shl(bits).unwrap_or(1) {
            tables.push(values_at(alloc, game.terms(), numbers, choices, arguments)?)?;
        }
        Ok(Standing { state, tables })
    }

    /// Everything that a move leads to, in order and each once, by terms.
    pub fn led(&self, alloc: Global, flat: &Flat, action: &Move) -> Result<Vec<Led>, AllocError> {
        let mut all = Vec::new(alloc);
        if let Some(step) = step_of(flat, &self.state, action) {
            for table in &self.tables {
                push_led(alloc, step, table, &mut all)?;
            }
        }
        all.sort()?;
        all.dedup();
        Ok(all)
    }
}

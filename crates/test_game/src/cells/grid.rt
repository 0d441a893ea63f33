//! The states of a design, with the values of levels and of predicates there.

use crate::states::{Fields, levels_at, state_fields};
use crate::steps::{state_of, value_in, values_at};
use std::alloc::{AllocError, Global};
use tm_game::Game;
use tm_plain::Machine;

/// The state of a word: whether it is valid, and the values of all levels and of the predicates of the pool there.
#[derive(Drop)]
pub struct Spot {
    pub is_valid: bool,
    pub levels: Vec<bool>,
    pub predicates: Vec<bool>,
}

/// The states of a design by the words of their numbers.
#[derive(Drop)]
pub struct Grid {
    pub fields: Fields,
    pub spots: Vec<Spot>,
}

/// Whether the state of these numbers is valid.
fn is_valid(alloc: Global, machine: &Machine, numbers: &[u64]) -> Result<bool, AllocError> {
    let state = state_of(alloc, machine, numbers)?;
    Ok(machine.fits(&state))
}

/// The values of the predicates at the state of these numbers, by their terms.
fn predicates_at(alloc: Global, game: &Game, numbers: &[u64]) -> Result<Vec<bool>, AllocError> {
    let table = values_at(alloc, game.terms(), numbers, 0, 0)?;
    let mut values = Vec::new(alloc);
    for term in &game.flat().pool {
        values.push(value_in(&table, *term) == 1)?;
    }
    Ok(values)
}

/// The state of a word.
fn spot_of(
    alloc: Global,
    machine: &Machine,
    game: &Game,
    fields: &Fields,
    word: u64,
) -> Result<Spot, AllocError> {
    let numbers = fields.split(alloc, word)?;
    let is_valid = is_valid(alloc, machine, &numbers)?;
    let predicates = predicates_at(alloc, game, &numbers)?;
    let levels = levels_at(alloc, game, fields, word)?;
    Ok(Spot {
        is_valid,
        levels,
        predicates,
    })
}

impl Grid {
    /// The states of a machine's design, whose game this is.
    pub fn of(alloc: Global, machine: &Machine, game: &Game) -> Result<Grid, AllocError> {
        let fields = state_fields(alloc, game)?;
        let mut spots = Vec::new(alloc);
        for word in 0..fields.words() {
            spots.push(spot_of(alloc, machine, game, &fields, word)?)?;
        }
        Ok(Grid { fields, spots })
    }

    /// How many states are valid.
    pub fn count(&self) -> u64 {
        let mut count = 0u64;
        for spot in &self.spots {
            count = count.saturating_add(u64::from(spot.is_valid));
        }
        count
    }
}

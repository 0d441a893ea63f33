//! Whether states are valid.

use case_rows::{number, numbers};
use std::alloc::{AllocError, Global};
use tm_plain::Machine;
use tm_sem::state::State;

/// The locations that words tell.
fn places_of(alloc: Global, text: &str) -> Result<Vec<u32>, AllocError> {
    let mut places = Vec::new(alloc);
    for word in text.split_whitespace() {
        places.push(number(word))?;
    }
    Ok(places)
}

/// The state that a text tells: its values, ` at ` with its locations, and ` last ` with who moved last.
fn state_of(alloc: Global, text: &str) -> Result<State, AllocError> {
    let (values, rest) = text.split_once(" at ").unwrap_or((text, ""));
    let (places, last) = rest.split_once(" last ").unwrap_or((rest, ""));
    Ok(State {
        values: numbers(alloc, values)?,
        places: places_of(alloc, places)?,
        last: number(last),
    })
}

/// Whether the state that a text tells is a valid one.
pub fn validity(alloc: Global, machine: &Machine, text: &str) -> Result<String, AllocError> {
    let is_valid = machine.fits(&state_of(alloc, text)?);
    format!(in alloc; "{is_valid}")
}

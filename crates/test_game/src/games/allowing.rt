//! Which moves a game allows, against the interpreter.

use super::moves::Asked;
use super::places::Place;
use super::table::Table;
use std::alloc::AllocError;
use tm_game::Game;

/// How many moves a game allows at a state, if these are the moves of the driver that have an outcome.
fn allowed_at(game: &mut Game, moves: &[Asked], place: &Place) -> Result<Option<u64>, AllocError> {
    let mut count = 0u64;
    for (number, asked) in moves.iter().enumerate() {
        let is_allowed = game.allowed(&place.state, &asked.action)?;
        if is_allowed != place.may_make(number) {
            return Ok(None);
        }
        count = count.saturating_add(u64::from(is_allowed));
    }
    Ok(Some(count))
}

/// How many moves a game allows over all states, if at each these are the moves of the driver that have an outcome.
pub fn allowed(game: &mut Game, table: &Table) -> Result<Option<u64>, AllocError> {
    let mut count = 0u64;
    for spot in &table.spots {
        if let Some(place) = &spot.place {
            match allowed_at(game, &table.moves, place)? {
                Some(more) => count = count.saturating_add(more),
                None => return Ok(None),
            }
        }
    }
    Ok(Some(count))
}

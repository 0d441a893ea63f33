//! The values of the levels of a game at states, and of diagrams there.

use super::fields::Fields;
use std::alloc::{AllocError, Global};
use tm_dd::NodeId;
use tm_game::Game;

/// How many inputs are bits of choices and of arguments.
const BITS: usize = 128;

/// The value at a place, and false past the end.
pub fn is_at(values: &[bool], place: usize) -> bool {
    values.get(place).copied().unwrap_or(false)
}

/// The numbers of a state of a game's design.
pub fn state_fields(alloc: Global, game: &Game) -> Result<Fields, AllocError> {
    let widths = game.flat().widths.as_slice();
    let count = widths.len().saturating_sub(BITS);
    Fields::new(alloc, widths.get(..count).unwrap_or(widths))
}

/// The values of the levels of a game at the state of a word: those of its bits, and false for all others.
pub fn levels_at(
    alloc: Global,
    game: &Game,
    fields: &Fields,
    word: u64,
) -> Result<Vec<bool>, AllocError> {
    let bits = fields.bits_of(alloc, word)?;
    let mut values = Vec::new(alloc);
    for place in game.order() {
        values.push(is_at(&bits, *place as usize))?;
    }
    values.resize(game.manager().store().levels() as usize, false)?;
    Ok(values)
}

/// Whether a diagram that a game knows is true for values of all levels.
pub fn is_true(game: &Game, id: NodeId, values: &[bool]) -> bool {
    let store = game.manager().store();
    store.knows(id) && values.len() == store.levels() as usize && store.eval(id, values)
}

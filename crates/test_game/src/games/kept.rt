//! What a game answers of the sets that it keeps, and of moves.
ghost use Rattle.tm_game.specs.Game.{IsOf};
ghost use Rattle.tm_syntax.specs.Design.{DesignTree};

use crate::states::{kept_set, state_text};
use crate::steps::state_of;
use case_rows::{number, numbers, split_word};
use smallvec::SmallVec;
use std::alloc::{AllocError, Global};
use tm_game::Game;
use tm_plain::Machine;
use tm_sem::state::{Args, Move, State};

/// The least state of a set that the game keeps.
pub fn least_kept(alloc: Global, game: &mut Game, words: &str) -> Result<String, AllocError>
    requires of { (d : DesignTree) × IsOf d game.old }
{
    let set = kept_set(game, words);
    match game.least(set)? {
        Some(state) => state_text(alloc, &state),
        None => String::from_str(alloc, "none"),
    }
}

/// Whether a call of a task without arguments is allowed at a state, as text.
fn allowed_text(
    alloc: Global,
    game: &mut Game,
    state: &State,
    task: u32,
) -> Result<String, AllocError> {
    let list = SmallVec::new(alloc);
    let is_allowed = game.allowed(state, &Move::Call(task, Args { list }))?;
    format!(in alloc; "{is_allowed}")
}

/// Whether a call of a task without arguments is allowed at a state: the number of the task, and those of the state.
pub fn call_allowed(
    alloc: Global,
    machine: &Machine,
    game: &mut Game,
    words: &str,
) -> Result<String, AllocError> {
    let (task, state) = split_word(words);
    let numbers = numbers(alloc, state)?;
    let state = state_of(alloc, machine, &numbers)?;
    allowed_text(alloc, game, &state, number(task))
}

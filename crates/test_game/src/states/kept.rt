//! The sets that a game keeps, and states as text.
ghost use Rattle.tm_game.specs.Game.{IsOf, IsSet};
ghost use Rattle.tm_syntax.specs.Design.{DesignTree};

use case_rows::number;
use std::alloc::{AllocError, Global};
use tm_dd::{FALSE, NodeId};
use tm_game::{Game, numbers_of};
use tm_sem::state::State;

/// The set of a goal, and the empty one if there is none of this number.
pub fn goal_set(game: &Game, goal: u32) -> NodeId
    requires of { (d : DesignTree) × IsOf d game.now }
    ensures { IsSet game.now result }
{
    let _order = game.order();
    if goal as usize >= game.goals().len() {
        return FALSE;
    }
    game.goal(goal)
}

/// A set that the game keeps: `initial`, `turn`, or that of the goal of a number.
pub fn kept_set(game: &Game, words: &str) -> NodeId
    requires of { (d : DesignTree) × IsOf d game.now }
    ensures { IsSet game.now result }
{
    let _order = game.order();
    match words {
        "initial" => game.initial(),
        "turn" => game.turn(),
        _ => goal_set(game, number(words)),
    }
}

/// The numbers of a state, as text.
pub fn state_text(alloc: Global, state: &State) -> Result<String, AllocError> {
    let numbers = numbers_of(alloc, state)?;
    format!(in alloc; "{numbers:?}")
}

//! What is answered of sets over cells.
ghost use Rattle.std.specs.Prelude.{◌<◌, All, IsTrue};
ghost use Rattle.tm_abs.specs.Cells.{AreCells};
ghost use Rattle.tm_abs.specs.Tracked.{AreInPool, HasPooled, IsPooled};
ghost use Rattle.tm_game.specs.Game.{IsSet};
ghost use Rattle.tm_syntax.specs.Design.{DesignTree};

use crate::states::{Formula, kept_set, set_of, state_text};
use crate::steps::word;
use case_rows::{numbers, split_word};
use std::alloc::{AllocError, Global};
use tm_abs::Cells;
use tm_dd::NodeId;
use tm_game::Game;
use tm_sem::state::State;

/// Both parts of a set, and the states that show how it cuts a cell.
#[derive(Drop)]
pub struct Parts {
    pub lower: NodeId,
    pub upper: NodeId,
    pub split: Option<(State, State)>,
}

/// Whether all numbers are below a bound.
fn are_below(numbers: &[u32], bound: usize) -> bool
    ensures { IsTrue result → All (λ k. k < bound) numbers.now }
{
    for number in numbers {
        if *number as usize >= bound {
            return false;
        }
    }
    true
}

/// Whether all numbers are those of predicates of the pool.
fn are_in_pool(game: &Game, numbers: &[u32]) -> bool
    ensures { IsTrue result → AreInPool game.now numbers.now }
{
    are_below(numbers, game.flat().pool.len())
}

/// What is answered of a set.
fn parts_of_set(
    alloc: Global,
    game: &mut Game,
    cells: &Cells,
    set: NodeId,
) -> Result<Parts, AllocError>
    requires cells { AreCells game.old cells.now }
    requires pool { HasPooled game.old }
    requires set { IsSet game.old set }
    ensures { HasPooled game.new }
{
    let lower = cells.lower(alloc, game, set)?;
    let upper = cells.upper(alloc, game, set)?;
    let split = cells.split(alloc, game, set)?;
    Ok(Parts {
        lower,
        upper,
        split,
    })
}

/// What is answered of the set of a formula, where the numbers are those of predicates.
pub fn parts_of(
    alloc: Global,
    game: &mut Game,
    tracked: Vec<u32>,
    formula: &Formula,
) -> Result<Option<Parts>, AllocError>
    requires pool { HasPooled game.old }
    ensures { HasPooled game.new }
{
    let set = set_of(game, formula)?;
    if !are_in_pool(game, &tracked) {
        return Ok(None);
    }
    let cells = Cells::new(alloc, game, tracked)?;
    Ok(Some(parts_of_set(alloc, game, &cells, set)?))
}

/// The states that show how a set cuts a cell, as text.
fn split_text(
    alloc: Global,
    game: &mut Game,
    cells: &Cells,
    set: NodeId,
) -> Result<String, AllocError>
    requires cells { AreCells game.old cells.now }
    requires pool { HasPooled game.old }
    requires set { IsSet game.old set }
{
    match cells.split(alloc, game, set)? {
        Some((inside, outside)) => {
            let first = state_text(alloc, &inside)?;
            let second = state_text(alloc, &outside)?;
            format!(in alloc; "{first} and {second}")
        }
        None => String::from_str(alloc, "none"),
    }
}

/// The states that show how a set that the game keeps cuts a cell, where the numbers are those of predicates.
fn split_kept(
    alloc: Global,
    game: &mut Game,
    tracked: Vec<u32>,
    words: &str,
) -> Result<String, AllocError>
    requires pooled { (d : DesignTree) × IsPooled d game.old }
{
    if !are_in_pool(game, &tracked) {
        return String::from_str(alloc, "no predicates");
    }
    let set = kept_set(game, words);
    let cells = Cells::new(alloc, game, tracked)?;
    split_text(alloc, game, &cells, set)
}

/// The numbers that words spell.
fn numbers_of(alloc: Global, words: &str) -> Result<Vec<u32>, AllocError> {
    let mut tracked = Vec::new(alloc);
    for number in numbers(alloc, words)? {
        tracked.push(word(number))?;
    }
    Ok(tracked)
}

/// The answer to a question for the states that show how a set cuts a cell.
pub fn split_answer(alloc: Global, game: &mut Game, words: &str) -> Result<String, AllocError>
    requires pooled { (d : DesignTree) × IsPooled d game.old }
{
    let (set, list) = split_word(words);
    let tracked = numbers_of(alloc, list)?;
    split_kept(alloc, game, tracked, set)
}

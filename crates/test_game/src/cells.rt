//! Cells of predicates: the parts of sets of states over cells, and the states that show how a set cuts one.
//!
//! A cell is the set of the valid states at which some predicates of a design's pool have the same values. Above the
//! rows stands a specification. The rows are:
//!
//! - `compare LISTS BOUND`: so many lists of fewer than BOUND predicates, each with a set of states, are drawn. The
//!   lower part of the set has to be the states of the cells that lie in it, the upper part those of the cells that
//!   meet it, and `split` has to answer two states of one cell, the first in the set and the second not, where there
//!   are such states, and nothing elsewhere. This is tried at each state: the interpreter tells which states are valid,
//!   and the terms of predicates tell cells. The answer is how many states there are, at how many of them all lower and
//!   all upper parts were true, and how many sets cut a cell; or the first list for which it is not so;
//! - `split SET NUMBERS`: the numbers of the two states that show how `initial`, `turn` or the set of the goal of a
//!   number cuts a cell of the predicates of these numbers, or `none`.
ghost use Rattle.tm_abs.specs.Tracked.{IsPooled};
ghost use Rattle.tm_syntax.specs.Design.{DesignTree};

mod comparison;
mod grid;
mod parts;
mod wanted;

use case_rows::split_word;
use comparison::compare_answer;
use parts::split_answer;
use std::alloc::{AllocError, Global};
use tm_game::Game;
use tm_plain::Machine;

/// The answer to the question of a row.
pub fn answer_to(
    alloc: Global,
    machine: &Machine,
    game: &mut Game,
    question: &str,
) -> Result<String, AllocError>
    requires pooled { (d : DesignTree) × IsPooled d game.old }
{
    let (verb, rest) = split_word(question);
    match verb {
        "compare" => compare_answer(alloc, machine, game, rest),
        _ => split_answer(alloc, game, rest),
    }
}

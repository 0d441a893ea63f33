//! Symbolic games: what a game answers of sets of states, against the interpreter at each state.
//!
//! Above the rows stands a specification. The rows are:
//!
//! - `compare LENGTH RANGE SETS`: over so many sets that are drawn, from where the environment is calm, the driver
//!   stays, the environment forces and each move of the driver is good, and the least state; then which moves are
//!   allowed. At each state the wanted answer is worked out by trying each move with each list of at most LENGTH
//!   choices below RANGE, and the game's diagram is evaluated at the bits of the state and of the arguments. The sets
//!   that the game keeps are compared, too. The answer is how many states there are, and at how many of them the
//!   answers were yes over all sets; or the first question, by its number, to which the two do not agree;
//! - `least initial`, `least turn` or `least GOAL`: the numbers of the least of the initial states, of those at which
//!   the driver can be picked, or of those at which a goal holds;
//! - `allowed TASK NUMBERS`: whether a call of a task without parameters is allowed at the state of these numbers;
//! - `bits INPUT`: the bits of an input, the most significant first;
//! - `diagram CALL`: the function that a call gives, and `diagram node F`: the level and the children of a function's
//!   node. The calls are `make LEVEL F F`, `and F F`, `or F F`, `xor F F`, `not F`, `ite F F F`, `exists F LEVEL`,
//!   `forall F LEVEL` and `compose F LEVEL F`.
//!
//! Functions are written `false`, `true`, `x` and `y`, the values of levels 0 and 1, `b`, which is both of these, and
//! `z`, the complement of `x`; any other one is `new`.
ghost use Rattle.tm_game.specs.Game.{IsOf};
ghost use Rattle.tm_syntax.specs.Design.{DesignTree};

mod allowing;
mod comparison;
mod diagrams;
mod kept;
mod letters;
mod moves;
mod places;
mod questions;
mod table;

use case_rows::split_word;
use comparison::compare_answer;
use diagrams::{bits_answer, diagram_answer};
use kept::{call_allowed, least_kept};
use std::alloc::{AllocError, Global};
use tm_game::Game;
use tm_plain::Machine;

/// The answer to the question of a row.
pub fn answer_to(
    alloc: Global,
    machine: &Machine,
    game: &mut Game,
    question: &str,
) -> Result<String, AllocError>
    requires of { (d : DesignTree) × IsOf d game.old }
{
    let (verb, rest) = split_word(question);
    match verb {
        "compare" => compare_answer(alloc, machine, game, rest),
        "least" => least_kept(alloc, game, rest),
        "bits" => bits_answer(alloc, game, rest),
        "diagram" => diagram_answer(alloc, game, rest),
        _ => call_allowed(alloc, machine, game, rest),
    }
}

//! Designs as guarded updates: plays in which every step is told by terms and by the interpreter, the widths of inputs,
//! and the sizes of pools.
//!
//! Above the rows stands a specification. The rows are:
//!
//! - `inputs`: the widths of the inputs of a state, and how many bits stand behind them;
//! - `pool`: how many predicates there are, and with how many of them the abstraction begins;
//! - `play PLAYS STEPS BITS LENGTH RANGE`: so many plays of so many steps, or fewer where a state has no next one. At
//!   each state each process moves, and each controllable task is called with drawn arguments. The terms tell outcomes
//!   for all values of the first BITS bits of choices, and the interpreter for all lists of at most LENGTH choices
//!   below RANGE; each has to find what the other does. One of the next states is drawn, and the play goes on there.
//!   The answer is the number of moves, of their different next states, of those that may err and of those that have
//!   no outcome, and how many locations were reached and how many tasks led to a state. No play reaches the end of a
//!   process behind a loop that goes on forever; all other locations of the designs are reached.

mod met;
mod moves;
mod play;
mod runs;

use case_rows::split_word;
use play::play_answer;
use std::alloc::{AllocError, Global};
use tm_game::Game;
use tm_plain::Machine;

/// How many inputs of one bit stand behind those of a state.
const BITS: usize = 128;

/// How many widths are those of one bit.
fn bits_among(widths: &[u8]) -> usize {
    let mut bits = 0usize;
    for width in widths {
        bits = bits.saturating_add(usize::from(*width == 1));
    }
    bits
}

/// The widths of the inputs: those of a state, and how many bits stand behind them.
fn inputs_text(alloc: Global, widths: &[u8]) -> Result<String, AllocError> {
    let count = widths.len().saturating_sub(BITS);
    let state = widths.get(..count).unwrap_or(widths);
    let bits = bits_among(widths.get(count..).unwrap_or(widths));
    format!(in alloc; "{state:?} and {bits} bits")
}

/// The answer to the question of a row.
pub fn answer_to(
    alloc: Global,
    machine: &Machine,
    game: &Game,
    question: &str,
) -> Result<String, AllocError> {
    let flat = game.flat();
    let (verb, rest) = split_word(question);
    match verb {
        "inputs" => inputs_text(alloc, &flat.widths),
        "pool" => format!(in alloc; "{} first {}", flat.pool.len(), flat.first),
        _ => play_answer(alloc, machine, game, rest),
    }
}

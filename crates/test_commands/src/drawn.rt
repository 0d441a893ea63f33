//! Drivers that are drawn, as C text, and what they answer at drawn states: what C compilers are tried on.
//!
//! The driver of a seed is always the same:
//!
//! - `SEED` prints it, and `structured SEED` prints it as structured text, each with its answers behind it;
//! - `back N` tells how many of the drivers of the first N seeds are read back as what was printed;
//! - `around N` tells how many of them go to structured text and back to blocks with the same answers.

mod answers;
mod back;
mod draw;
mod sample;
mod specification;
mod structured;

use anyhow::{Context, Result};
use case_rows::split_word;
use std::alloc::Global;

/// The number of a seed, or of drivers.
fn number(word: &str) -> Result<u64> {
    Ok(
        word.parse::<u64>()
            .with_context(|| "a word that is no seed")?,
    )
}

/// The lines of the answer to the words behind `drawn`.
pub fn told(alloc: Global, words: &str) -> Result<String> {
    match split_word(words) {
        ("back", drivers) => back::told_back(alloc, number(drivers)?),
        ("around", drivers) => structured::told_back(alloc, number(drivers)?),
        ("structured", seed) => structured::sample(alloc, number(seed)?),
        _ => sample::sample(alloc, number(words)?),
    }
}

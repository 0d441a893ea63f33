//! Operands: the bits of numbers, worked out by hand.
//!
//! The row `bits NUMBER` is answered by how many bits the number needs.

use case_rows::split_word;
use std::alloc::{AllocError, Global};
use tm_design::bits_of_number;

/// The bits of the number that a word spells.
fn bits_text(alloc: Global, word: &str) -> Result<String, AllocError> {
    match word.parse::<u64>() {
        Ok(number) => format!(in alloc; "{}", bits_of_number(number)),
        Err(_) => String::from_str(alloc, "no number"),
    }
}

/// The answer to the question of a row.
pub fn answer_to(alloc: Global, question: &str) -> Result<String, AllocError> {
    match split_word(question) {
        ("bits", word) => bits_text(alloc, word),
        _ => String::from_str(alloc, "no question"),
    }
}

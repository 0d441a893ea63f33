//! The words and numbers of a question.

use std::alloc::{AllocError, Global};

/// The first word of a text, and what stands behind the blank that ends it.
pub fn split_word(text: &str) -> (&str, &str) {
    text.split_once(' ').unwrap_or((text, ""))
}

/// The number that a text spells, and 0 for any other text.
pub fn number(text: &str) -> u32 {
    text.parse().unwrap_or(0)
}

/// The numbers that the words of a text spell.
pub fn numbers(alloc: Global, text: &str) -> Result<Vec<u64>, AllocError> {
    let mut numbers = Vec::new(alloc);
    for word in text.split_whitespace() {
        numbers.push(word.parse().unwrap_or(0))?;
    }
    Ok(numbers)
}

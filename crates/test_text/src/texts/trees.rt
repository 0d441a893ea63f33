//! The trees of texts.

use crate::faults::numbered;
use crate::reading::tree_of;
use std::alloc::{AllocError, Global};
use tm_lex::MAX_TEXT_LEN;

/// What a text gets: `tree`, or its fault with its place.
pub fn tree_text(alloc: Global, text: &[u8]) -> Result<String, AllocError> {
    if text.len() > MAX_TEXT_LEN {
        return String::from_str(alloc, "too long");
    }
    match tree_of(alloc, text) {
        Ok(_) => String::from_str(alloc, "tree"),
        Err(error) => numbered(alloc, &error),
    }
}

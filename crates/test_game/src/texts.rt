//! Texts of values.

use std::alloc::{AllocError, Global};

/// A number as text.
pub fn number_text(alloc: Global, number: u64) -> Result<String, AllocError> {
    format!(in alloc; "{number}")
}

/// Two numbers as text.
pub fn pair_text(alloc: Global, first: u64, second: u64) -> Result<String, AllocError> {
    format!(in alloc; "{first} {second}")
}

/// A truth value as text.
pub fn truth_text(alloc: Global, is_so: bool) -> Result<String, AllocError> {
    String::from_str(alloc, if is_so { "true" } else { "false" })
}

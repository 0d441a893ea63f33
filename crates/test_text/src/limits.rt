//! Templates that hold themselves, and quantities at their limits and above them.
//!
//! The rows are answered by the first template that holds itself, with its place, or by the first quantity that is
//! above its limit, with its place, the limit and what was found, or by `none`:
//!
//! - `fault`: of the specification that stands above;
//! - `deep N`: of a text in which a body is reached along 2^N paths.

mod faults;

use crate::deep_calls::deep_calls;
use case_rows::{number, split_word};
use faults::fault_of;
use std::alloc::{AllocError, Global};

/// The answer to the question of a row.
pub fn answer_to(alloc: Global, text: &[u8], question: &str) -> Result<String, AllocError> {
    let (verb, rest) = split_word(question);
    match verb {
        "fault" => fault_of(alloc, text),
        "deep" => {
            let deep = deep_calls(alloc, number(rest), "x = *;", "")?;
            fault_of(alloc, deep.as_bytes())
        }
        _ => String::from_str(alloc, "no question"),
    }
}

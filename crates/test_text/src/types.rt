//! Faults of names, types, calls and loops. They are written by hand from the rules of the language.
//!
//! A row `fault` asks of the text that stands above it, and is answered by the number of the kind of its fault, by the
//! place and by the name that is told, or by `none`.
ghost use Rattle.std.specs.Prelude.{◌≤◌, length};

use crate::faults::numbered;
use crate::reading::tree_of;
use std::alloc::{AllocError, Global};
use tm_lex::MAX_TEXT_LEN;
use tm_syntax::fault::FrontError;
use tm_types::check_types;

/// What a text gets, if it is none of the language.
fn judged(alloc: Global, text: &[u8]) -> Result<(), FrontError>
    requires { length text.now ≤ MAX_TEXT_LEN }
{
    let spec = tree_of(alloc, text)?;
    check_types(alloc, spec)?;
    Ok(())
}

/// What a text gets: `none`, or its fault.
fn fault_of(alloc: Global, text: &[u8]) -> Result<String, AllocError> {
    if text.len() > MAX_TEXT_LEN {
        return String::from_str(alloc, "too long");
    }
    match judged(alloc, text) {
        Ok(()) => String::from_str(alloc, "none"),
        Err(error) => numbered(alloc, &error),
    }
}

/// The answer to the question of a row.
pub fn answer_to(alloc: Global, text: &[u8], question: &str) -> Result<String, AllocError> {
    match question {
        "fault" => fault_of(alloc, text),
        _ => String::from_str(alloc, "no question"),
    }
}

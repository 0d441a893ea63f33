//! Atoms: how many a specification has, and how many of them stand in goals and fairness conditions.
//!
//! The rows are answered by both counts, or by the kind of a fault:
//!
//! - `atoms`: of the specification that stands above;
//! - `wide N`: of one with N atoms;
//! - `deep N`: of a text in which a body is reached along 2^N paths, with the items of the specification above. Such
//!   a text may be above the limit on statements.

mod counts;

use crate::deep_calls::deep_calls;
use case_rows::{number, split_word};
use counts::{atoms_of, atoms_with_items};
use std::alloc::{AllocError, Global};
use std::fmt::Write;

/// A specification with so many atoms.
fn wide_text(alloc: Global, atoms: u32) -> Result<String, AllocError> {
    let mut text = String::from_str(alloc, "template main uint<10> n; process p { ")?;
    for number in 0..atoms {
        write!(text, "assert(n == {number}); ")?;
    }
    text.push_str("} endtemplate")?;
    Ok(text)
}

/// The answer to the question of a row.
pub fn answer_to(alloc: Global, text: &[u8], question: &str) -> Result<String, AllocError> {
    let (verb, rest) = split_word(question);
    match verb {
        "atoms" => atoms_of(alloc, text),
        "wide" => atoms_of(alloc, wide_text(alloc, number(rest))?.as_bytes()),
        "deep" => {
            let deep = deep_calls(alloc, number(rest), "assert(x);", " assert(!x);")?;
            atoms_with_items(alloc, deep.as_bytes(), text)
        }
        _ => String::from_str(alloc, "no question"),
    }
}

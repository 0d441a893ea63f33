//! What `tm_scope` finds of the names, types and calls of small specifications.
//!
//! Of the text that stands above them, rows tell a body of the template `main` (`outside` or `process N`) and, behind
//! `: `, a path: its type there, or `none`. A row `number: PATH` asks for the number of the instance to which the path
//! leads from the first instance, whose one child is called `left`, as instance 1, of template 1. Rows that need no
//! text are
//!
//! - `calls NUMBERS; NUMBERS; ..`: what the first task calls, what the second one calls, and so on: which tasks reach
//!   themselves, and whether there is an order in which each task stands behind all that it calls.

mod names;
mod orders;

use crate::faults::numbered;
use crate::reading::tree_of;
use names::names_text;
use orders::calls_text;
use std::alloc::{AllocError, Global};
use tm_lex::MAX_TEXT_LEN;
use tm_scope::Scopes;
use tm_syntax::tree::Spec;

/// The answer to a question about the names of a tree.
fn tree_text(alloc: Global, spec: &Spec, question: &str) -> Result<String, AllocError> {
    let scopes = Scopes::new(alloc, spec)?;
    names_text(alloc, &scopes, question)
}

/// The answer to a question about the names of a text.
fn text_told(alloc: Global, text: &[u8], question: &str) -> Result<String, AllocError> {
    if text.len() > MAX_TEXT_LEN {
        return String::from_str(alloc, "too long");
    }
    match tree_of(alloc, text) {
        Ok(spec) => tree_text(alloc, &spec, question),
        Err(error) => numbered(alloc, &error),
    }
}

/// The answer to the question of a row.
pub fn answer_to(alloc: Global, text: &[u8], question: &str) -> Result<String, AllocError> {
    match question.strip_prefix("calls ") {
        Some(calls) => calls_text(alloc, calls),
        None => text_told(alloc, text, question),
    }
}

//! The tokens and the trees of texts, or their faults.
//!
//! Texts are spelled as `case_rows` tells. The rows are answered by the number of the kind of a fault and its place,
//! or else
//!
//! - `tokens TEXT`: by the kind, the first byte, the end and the place of each token, or by `none`;
//! - `tree TEXT`: by `tree`;
//! - `deep N BEFORE#OPENING#MIDDLE#CLOSING#BEHIND`: by the same, of a text in which the opening and the closing part
//!   stand N times.

mod deep;
mod tokens;
mod trees;

use case_rows::{number, split_word, unescaped};
use deep::deep_text;
use std::alloc::{AllocError, Global};
use tokens::tokens_text;
use trees::tree_text;

/// The answer to the question of a row.
pub fn answer_to(alloc: Global, question: &str) -> Result<String, AllocError> {
    let (verb, rest) = split_word(question);
    match verb {
        "tokens" => tokens_text(alloc, &unescaped(alloc, rest)?),
        "tree" => tree_text(alloc, &unescaped(alloc, rest)?),
        "deep" => {
            let (times, parts) = split_word(rest);
            tree_text(alloc, deep_text(alloc, number(times), parts)?.as_bytes())
        }
        _ => String::from_str(alloc, "no question"),
    }
}

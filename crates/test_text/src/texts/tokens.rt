//! The tokens of texts.

use crate::faults::numbered;
use std::alloc::{AllocError, Global};
use std::fmt::Write;
use tm_lex::{MAX_TEXT_LEN, lex};
use tm_syntax::token::Token;

/// Tokens as text.
fn shown(alloc: Global, tokens: &[Token]) -> Result<String, AllocError> {
    let mut out = String::new(alloc);
    for token in tokens {
        if !out.is_empty() {
            out.push_str("; ")?;
        }
        let Token {
            kind,
            start,
            end,
            place,
        } = *token;
        let line = place.line;
        let column = place.column;
        write!(out, "{kind:?} {start}..{end} {line}:{column}")?;
    }
    Ok(out)
}

/// The tokens of a text, `none`, or its fault.
pub fn tokens_text(alloc: Global, text: &[u8]) -> Result<String, AllocError> {
    if text.len() > MAX_TEXT_LEN {
        return String::from_str(alloc, "too long");
    }
    match lex(alloc, text) {
        Ok(tokens) if tokens.is_empty() => String::from_str(alloc, "none"),
        Ok(tokens) => shown(alloc, &tokens),
        Err(error) => numbered(alloc, &error),
    }
}

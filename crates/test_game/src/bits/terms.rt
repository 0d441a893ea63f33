//! Terms that words spell, and their values.

use crate::texts::{number_text, truth_text};
use case_rows::{number, numbers, split_word};
use std::alloc::{AllocError, Global};
use tm_term::{Term, TermId, Terms};

/// The id that a word spells.
fn id(word: &str) -> TermId {
    TermId(u64::from(number(word)))
}

/// A width or a number of places that a word spells.
fn small(word: &str) -> u8 {
    word.parse().unwrap_or(0)
}

/// The term over two parts that words spell.
fn pair(verb: &str, a: TermId, b: TermId) -> Option<Term> {
    match verb {
        "and" => Some(Term::And(a, b)),
        "or" => Some(Term::Or(a, b)),
        "xor" => Some(Term::Xor(a, b)),
        "add" => Some(Term::Add(a, b)),
        "sub" => Some(Term::Sub(a, b)),
        "eq" => Some(Term::Eq(a, b)),
        "less" => Some(Term::Less(a, b)),
        _ => None,
    }
}

/// The term that words spell.
pub fn term_of(words: &str) -> Option<Term> {
    let (verb, rest) = split_word(words);
    let (first, tail) = split_word(rest);
    let (second, third) = split_word(tail);
    let (width, places, value) = (small(first), small(second), second.parse().unwrap_or(0));
    let (input, a, b, c) = (number(first), id(first), id(second), id(third));
    match verb {
        "const" => Some(Term::Const(width, value)),
        "input" => Some(Term::Input(input)),
        "not" => Some(Term::Not(a)),
        "shl" => Some(Term::Shl(a, places)),
        "shr" => Some(Term::Shr(a, places)),
        "resize" => Some(Term::Resize(width, b)),
        "ite" => Some(Term::Ite(a, b, c)),
        _ => pair(verb, a, b),
    }
}

/// The id of a term, if it fits.
pub fn made(terms: &mut Terms, term: Term) -> Result<Option<TermId>, AllocError> {
    if terms.fits(term) {
        Ok(Some(terms.mk(term)?))
    } else {
        Ok(None)
    }
}

/// The value of an id, if the table knows it and accepts the inputs.
pub fn value(terms: &Terms, id: TermId, inputs: &[u64]) -> Option<u64> {
    if terms.is_known(id) && terms.accepts(inputs) {
        Some(terms.eval(id, inputs))
    } else {
        None
    }
}

/// The last of so many terms above the first input, each the exclusive sum of the one before it and itself.
fn tower(terms: &mut Terms, height: u32) -> Result<Option<TermId>, AllocError> {
    let mut term = Term::Input(0);
    let mut top = None;
    for _level in 0..=height {
        match made(terms, term)? {
            Some(id) => {
                term = Term::Xor(id, id);
                top = Some(id);
            }
            None => return Ok(None),
        }
    }
    Ok(top)
}

/// The values of the first three terms.
fn first_values(alloc: Global, terms: &Terms, inputs: &[u64]) -> Result<Vec<u64>, AllocError> {
    let mut table = vec![in alloc; 9; 3]?;
    if terms.accepts(inputs) && table.len() as u64 <= terms.count() {
        terms.eval_into(inputs, &mut table);
    }
    Ok(table)
}

/// The values of the first three terms, as text.
fn first_text(alloc: Global, terms: &Terms, inputs: &[u64]) -> Result<String, AllocError> {
    let values = first_values(alloc, terms, inputs)?;
    format!(in alloc; "{values:?}")
}

/// Whether a table knows an id, or a term fits.
fn is_so(terms: &Terms, verb: &str, words: &str) -> bool {
    if verb == "known" {
        return terms.is_known(id(words));
    }
    match term_of(words) {
        Some(term) => terms.fits(term),
        None => false,
    }
}

/// What a table tells of numbers: whether it accepts them, or the values of the first three terms.
fn inputs_text(
    alloc: Global,
    terms: &Terms,
    verb: &str,
    words: &str,
) -> Result<String, AllocError> {
    let inputs = numbers(alloc, words)?;
    match verb {
        "accepts" => truth_text(alloc, terms.accepts(&inputs)),
        _ => first_text(alloc, terms, &inputs),
    }
}

/// What a table tells.
pub fn table_text(
    alloc: Global,
    terms: &Terms,
    verb: &str,
    words: &str,
) -> Result<String, AllocError> {
    match verb {
        "count" => number_text(alloc, terms.count()),
        "inputs" => format!(in alloc; "{:?}", terms.inputs()),
        "known" | "fits" => truth_text(alloc, is_so(terms, verb, words)),
        _ => inputs_text(alloc, terms, verb, words),
    }
}

/// The id of the last term of a tower on the first input.
pub fn tower_text(alloc: Global, terms: &mut Terms, height: u32) -> Result<String, AllocError> {
    match tower(terms, height) {
        Ok(Some(top)) => number_text(alloc, top.0),
        Ok(None) => String::from_str(alloc, "misfit"),
        Err(error) => Err(error),
    }
}

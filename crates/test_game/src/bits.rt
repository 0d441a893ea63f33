//! Bit-vectors: the values of terms by their table, and by decision diagrams of their bits.
//!
//! A text is `turn WIDTHS` or `order WIDTHS`, with the widths of inputs. The levels of the inputs stand one
//! behind the other, or, in turn, those of the first two bit by bit. The rows below the text ask of one table of terms.
//! A term is `const WIDTH NUMBER`, `input INPUT`, `not T`, `and T T`, `or T T`, `xor T T`, `add T T`, `sub T T`, `eq T
//! T`, `less T T`, `ite T T T`, `shl T PLACES`, `shr T PLACES` or `resize WIDTH T`, over terms by their ids. The rows
//! are:
//!
//! - `make TERM`: the id of a term and its width; `value TERM at NUMBERS`: its value at values of the inputs;
//! - `digits TERM`: its values, a hexadecimal digit for each: over all tests, with each of them over all first inputs,
//!   and with each of these over all second ones, but over no more tests and no more first inputs than the term reads.
//!   They are told once where the term's bits have the same ones;
//! - `bits TERM at NUMBERS`: how many bits are made of a term and remembered, and their value;
//! - `kept TERM`: how many nodes are kept behind the bits of a term alone;
//! - `count`, `inputs`, `known ID`, `fits TERM`, `accepts NUMBERS`: what the table tells; `first NUMBERS`: the values
//!   of the first three terms;
//! - `tower N`: the id of the last of N terms above the first input, each the exclusive sum of the one before it and
//!   itself.

mod bench;
mod digits;
mod terms;
mod values;

use crate::knowing::copy_known;
use crate::texts::{number_text, pair_text};
pub use bench::{Bench, bench_of_text};
use case_rows::{number, numbers, split_word};
use digits::digits_text;
use std::alloc::{AllocError, Global};
use terms::{made, table_text, term_of, tower_text, value};
use tm_dd::NodeId;
use tm_ddops::Manager;
use tm_term::{Term, TermId};
use values::{bits_of, level_values, number_of, remembered_bits};

/// The id and the width of a term.
fn make_text(alloc: Global, bench: &Bench, term: Term, id: TermId) -> Result<String, AllocError> {
    if !bench.terms.is_known(id) || bench.terms.term(id) != term {
        return String::from_str(alloc, "another term");
    }
    pair_text(alloc, id.0, u64::from(bench.terms.width(id)))
}

/// The value of a term.
fn value_text(
    alloc: Global,
    bench: &Bench,
    id: TermId,
    inputs: &[u64],
) -> Result<String, AllocError> {
    match value(&bench.terms, id, inputs) {
        Some(value) => number_text(alloc, value),
        None => String::from_str(alloc, "none"),
    }
}

/// How many bits these are, and their value.
fn value_of_bits(
    alloc: Global,
    bench: &Bench,
    bits: &[NodeId],
    inputs: &[u64],
) -> Result<String, AllocError> {
    let values = level_values(alloc, bench, inputs)?;
    match number_of(&bench.dd, bits, &values) {
        Some(number) => pair_text(alloc, bits.len() as u64, number),
        None => String::from_str(alloc, "unknown"),
    }
}

/// How many bits of a term are remembered, and their value.
fn bits_text(
    alloc: Global,
    bench: &mut Bench,
    id: TermId,
    inputs: &[u64],
) -> Result<String, AllocError> {
    match remembered_bits(alloc, &bench.terms, &bench.levels, &mut bench.dd, id) {
        Ok(Some(bits)) => value_of_bits(alloc, bench, &bits, inputs),
        Ok(None) => String::from_str(alloc, "unknown"),
        Err(error) => Err(error),
    }
}

/// How many nodes these bits keep.
fn kept_by_bits(
    alloc: Global,
    dd: &mut Manager,
    bits: &mut [NodeId],
) -> Result<String, AllocError> {
    match copy_known(dd, bits) {
        Ok(true) => number_text(alloc, dd.store().kept()),
        Ok(false) => String::from_str(alloc, "unknown"),
        Err(error) => Err(error),
    }
}

/// How many nodes the bits of a term keep.
fn kept_text(alloc: Global, bench: &mut Bench, id: TermId) -> Result<String, AllocError> {
    match bits_of(alloc, &bench.terms, &bench.levels, &mut bench.dd, id) {
        Ok(Some(mut bits)) => kept_by_bits(alloc, &mut bench.dd, &mut bits),
        Ok(None) => String::from_str(alloc, "unknown"),
        Err(error) => Err(error),
    }
}

/// The answer to a question about a term that was made.
fn made_text(
    alloc: Global,
    bench: &mut Bench,
    verb: &str,
    term: Term,
    id: TermId,
    inputs: &[u64],
) -> Result<String, AllocError> {
    match verb {
        "make" => make_text(alloc, bench, term, id),
        "value" => value_text(alloc, bench, id, inputs),
        "digits" => digits_text(alloc, bench, term, id),
        "bits" => bits_text(alloc, bench, id, inputs),
        "kept" => kept_text(alloc, bench, id),
        _ => String::from_str(alloc, "no question"),
    }
}

/// The answer to a question about a term, which is made if it fits.
fn fitting_text(
    alloc: Global,
    bench: &mut Bench,
    verb: &str,
    term: Term,
    inputs: &[u64],
) -> Result<String, AllocError> {
    match made(&mut bench.terms, term) {
        Ok(Some(id)) => made_text(alloc, bench, verb, term, id, inputs),
        Ok(None) => String::from_str(alloc, "misfit"),
        Err(error) => Err(error),
    }
}

/// The answer to a question about a term that words spell, and inputs behind it.
fn term_text(
    alloc: Global,
    bench: &mut Bench,
    verb: &str,
    words: &str,
) -> Result<String, AllocError> {
    let (words, inputs) = words.split_once(" at ").unwrap_or((words, ""));
    let inputs = numbers(alloc, inputs)?;
    match term_of(words) {
        Some(term) => fitting_text(alloc, bench, verb, term, &inputs),
        None => String::from_str(alloc, "no term"),
    }
}

/// The answer to a question.
pub fn answer_to(alloc: Global, bench: &mut Bench, question: &str) -> Result<String, AllocError> {
    let (verb, words) = split_word(question);
    match verb {
        "count" | "inputs" | "known" | "fits" | "accepts" | "first" => {
            table_text(alloc, &bench.terms, verb, words)
        }
        "tower" => tower_text(alloc, &mut bench.terms, number(words)),
        _ => term_text(alloc, bench, verb, words),
    }
}

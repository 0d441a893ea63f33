//! What the rows of a case ask of, by the name of its table.

use crate::bits::{self, Bench, bench_of_text};
use crate::diagrams::Diagrams;
use crate::forcing::Forcing;
use crate::{certificates, designs, flat, solving};
use case_rows::{Answers, number};
use std::alloc::{AllocError, Global};

/// What the rows of a case ask of.
#[derive(Drop)]
pub enum Subject {
    Bits(Bench),
    Diagrams(Diagrams),
    Forcing(Forcing),
    /// Nothing stands between rows: each reads the text anew.
    Text,
}

/// The terms of a text.
fn bits_of(alloc: Global, text: &str) -> Result<Subject, AllocError> {
    match bench_of_text(alloc, text) {
        Ok(Some(bench)) => Ok(Subject::Bits(bench)),
        Ok(None) => Ok(Subject::Text),
        Err(error) => Err(error),
    }
}

/// The diagrams of so many levels.
fn diagrams_of(alloc: Global, levels: u32) -> Result<Subject, AllocError> {
    match Diagrams::new(alloc, levels) {
        Ok(diagrams) => Ok(Subject::Diagrams(diagrams)),
        Err(error) => Err(error),
    }
}

/// The game of `forcing`.
fn forcing_of(alloc: Global) -> Result<Subject, AllocError> {
    match Forcing::new(alloc) {
        Ok(forcing) => Ok(Subject::Forcing(forcing)),
        Err(error) => Err(error),
    }
}

/// The answer to a question in a table of this name, by the text alone.
fn answer_by_text(
    alloc: Global,
    table: &str,
    text: &str,
    question: &str,
) -> Result<String, AllocError> {
    match table {
        "solving" => solving::answer_to(alloc, question),
        "certificates" => certificates::answer_to(alloc, question),
        "flat" => flat::answer_to(alloc, question),
        _ => designs::answer_to(alloc, table, text.as_bytes(), question),
    }
}

impl Answers for Subject {
    fn new(alloc: Global, table: &str, text: &str) -> Result<Subject, AllocError> {
        let text = text.trim_end();
        match table {
            "bits" => bits_of(alloc, text),
            "diagrams" => diagrams_of(alloc, number(text)),
            "forcing" => forcing_of(alloc),
            _ => Ok(Subject::Text),
        }
    }

    fn answer(
        &mut self,
        alloc: Global,
        table: &str,
        text: &str,
        question: &str,
    ) -> Result<String, AllocError> {
        match self {
            Subject::Bits(bench) => bits::answer_to(alloc, bench, question),
            Subject::Diagrams(diagrams) => diagrams.answer(alloc, question),
            Subject::Forcing(forcing) => forcing.answer(alloc, question),
            Subject::Text => answer_by_text(alloc, table, text, question),
        }
    }
}

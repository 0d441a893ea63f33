//! Flat: certificates of a small design that is given as guarded updates.
//!
//! The states of the design are a number of one bit and one of three, and it has a goal and a fairness condition. The
//! row `rewrite TEXT` is answered by what is written for the driver's certificate that the text is, or by `no
//! certificate`. Texts are spelled as `case_rows` tells.

use case_rows::{escaped, split_word, unescaped};
use std::alloc::{AllocError, Global};
use tm_cert::{Kind, ReadCertError};
use tm_flat::Flat;
use tm_judge::{read_cert, write_cert};
use tm_term::TermId;

/// The design.
fn design(alloc: Global) -> Result<Flat, AllocError> {
    let mut widths = vec![in alloc; 1; 130]?;
    widths[1] = 3;
    Ok(Flat {
        processes: Vec::new(alloc),
        tasks: Vec::new(alloc),
        parameters: Vec::new(alloc),
        magic: Vec::new(alloc),
        goals: vec![in alloc; TermId(0)]?,
        fairs: vec![in alloc; TermId(0)]?,
        initial: TermId(0),
        valid: TermId(0),
        pool: Vec::new(alloc),
        first: 0,
        widths,
    })
}

/// What is written for the certificate that a text is.
fn rewritten(alloc: Global, text: &[u8]) -> Result<String, AllocError> {
    let flat = design(alloc)?;
    match read_cert(alloc, &flat, Kind::Driver, text) {
        Ok(cert) => escaped(alloc, &write_cert(alloc, &flat, &cert)?),
        Err(ReadCertError::Bad(_)) => String::from_str(alloc, "no certificate"),
        Err(ReadCertError::Memory) => Err(AllocError),
    }
}

/// The answer to the question of a row.
pub fn answer_to(alloc: Global, question: &str) -> Result<String, AllocError> {
    match split_word(question) {
        ("rewrite", text) => rewritten(alloc, &unescaped(alloc, text)?),
        _ => String::from_str(alloc, "no question"),
    }
}

//! Certificates: those that are read and written, worked out by hand, and texts with one fault or more.
//!
//! The certificates are those of designs with five state bits and two fairness
//! conditions. Texts are spelled as `case_rows` tells. The rows are:
//!
//! - `write GOALS TEXT`: what is written for the certificate of a design with so many goals that the text is;
//! - `read KIND TEXT`: the first fault of the text where one goal and a certificate of this kind is wanted (`driver`,
//!   `environment` or `either`), or `read`;
//! - `brackets N`: the same of N opening brackets, where either kind is wanted.

use case_rows::{escaped, number, split_word, unescaped};
use std::alloc::{AllocError, Global};
use tm_base::Name;
use tm_cert::{BadCert, CertShape, Kind, ReadCertError, read_shaped, write_shaped};

/// What all designs here have.
const SMALL: CertShape = CertShape {
    bits: 5,
    goals: 1,
    fairs: 2,
    wanted: Kind::Either,
};

/// A word and a path of ASCII letters.
fn path_text(alloc: Global, word: &str, path: &Name) -> Result<String, AllocError> {
    let mut text = String::from_str(alloc, word)?;
    for byte in path.as_bytes() {
        text.push(char::from(*byte))?;
    }
    Ok(text)
}

/// What is in the way of a text.
fn fault_text(alloc: Global, error: &ReadCertError) -> Result<String, AllocError> {
    match error {
        ReadCertError::Memory => Err(AllocError),
        ReadCertError::Bad(BadCert::Json) => String::from_str(alloc, "json"),
        ReadCertError::Bad(BadCert::Shape(path)) => path_text(alloc, "shape ", path),
        ReadCertError::Bad(BadCert::Range(path)) => path_text(alloc, "range ", path),
        ReadCertError::Bad(BadCert::Node(id)) => format!(in alloc; "node {id}"),
    }
}

/// The kind that a word tells.
fn kind_of(word: &str) -> Kind {
    match word {
        "driver" => Kind::Driver,
        "environment" => Kind::Environment,
        _ => Kind::Either,
    }
}

/// What is in the way of a text, or that it is read.
fn read_text(alloc: Global, wanted: Kind, text: &[u8]) -> Result<String, AllocError> {
    match read_shaped(alloc, CertShape { wanted, ..SMALL }, text) {
        Ok(_) => String::from_str(alloc, "read"),
        Err(error) => fault_text(alloc, &error),
    }
}

/// What is written for the certificate that a text is.
fn written_text(alloc: Global, goals: u32, text: &[u8]) -> Result<String, AllocError> {
    let shape = CertShape { goals, ..SMALL };
    match read_shaped(alloc, shape, text) {
        Ok(cert) => escaped(alloc, &write_shaped(alloc, shape.bits, &cert)?),
        Err(error) => fault_text(alloc, &error),
    }
}

/// The answer to the question of a row.
pub fn answer_to(alloc: Global, question: &str) -> Result<String, AllocError> {
    let (verb, rest) = split_word(question);
    let (word, text) = split_word(rest);
    match verb {
        "write" => written_text(alloc, number(word), &unescaped(alloc, text)?),
        "read" => read_text(alloc, kind_of(word), &unescaped(alloc, text)?),
        "brackets" => {
            let brackets = vec![in alloc; b'['; number(word) as usize]?;
            read_text(alloc, Kind::Either, &brackets)
        }
        _ => String::from_str(alloc, "no question"),
    }
}

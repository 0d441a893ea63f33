//! The names and bodies that rows spell.

use case_rows::{number, split_word};
use std::alloc::{AllocError, Global};
use tm_base::{Name, Place};
use tm_scope::BodyName;
use tm_syntax::tree::Ident;

/// A name in a text.
fn ident(alloc: Global, text: &str) -> Result<Ident, AllocError> {
    Ok(Ident {
        text: Name::from_bytes(alloc, text.as_bytes())?,
        place: Place { line: 1, column: 1 },
    })
}

/// The path that names with dots between them spell.
pub fn path_of(alloc: Global, names: &str) -> Result<Vec<Ident>, AllocError> {
    let mut path = Vec::new(alloc);
    for name in names.split('.') {
        path.push(ident(alloc, name)?)?;
    }
    Ok(path)
}

/// The body that words tell.
pub fn body_of(words: &str) -> BodyName {
    let (kind, index) = split_word(words);
    match kind {
        "process" => BodyName::Process(number(index) as usize),
        "task" => BodyName::Task(number(index) as usize),
        _ => BodyName::Outside,
    }
}

//! Names, places in a text, and counts of steps.

use case_rows::{number, split_word, unescaped};
use std::alloc::{AllocError, Global};
use tm_base::{Name, Place, Steps};

/// The bytes of the first of two names, whether its clone is equal to it, whether the other one is, and whether it
/// stands before the other one. Names are spelled as `case_rows` tells bytes.
pub fn names(alloc: Global, words: &str) -> Result<String, AllocError> {
    let (first, second) = split_word(words);
    let name = Name::from_bytes(alloc, &unescaped(alloc, first)?)?;
    let other = Name::from_bytes(alloc, &unescaped(alloc, second)?)?;
    let mut told = String::new(alloc);
    for byte in name.as_bytes() {
        told.push(char::from(*byte))?;
    }
    let copied = name.clone()? == name;
    format!(in alloc; "{told} {copied} {} {}", name == other, name < other)
}

/// The place of a line and a column.
fn place(words: &str) -> Place {
    let (line, column) = split_word(words);
    Place {
        line: number(line),
        column: number(column),
    }
}

/// Whether two places are equal. A `, ` stands between them.
pub fn places(alloc: Global, words: &str) -> Result<String, AllocError> {
    let (first, second) = words.split_once(", ").unwrap_or((words, ""));
    format!(in alloc; "{}", place(first) == place(second))
}

/// What is counted of so many steps.
pub fn steps(alloc: Global, count: &str) -> Result<String, AllocError> {
    let mut steps = Steps::new(());
    for _step in 0..number(count) {
        steps.tick();
    }
    format!(in alloc; "{}", steps.count())
}

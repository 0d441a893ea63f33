//! Texts and the rows that ask of them.

use std::alloc::{AllocError, Global};
use std::{io, mem};

/// What is asked of a text, the answer that is wanted, and the number of the line.
#[derive(Clone, Copy)]
pub struct Row<'t> {
    pub number: usize,
    pub question: &'t str,
    pub wanted: &'t str,
}

/// A text, and the rows that ask of it.
#[derive(Drop)]
pub struct Case<'t> {
    pub text: String,
    pub rows: Vec<Row<'t>>,
}

/// The row that a line is.
fn row_of(index: usize, line: &str) -> Row<'_> {
    let (question, wanted) = line.split_once(" => ").unwrap_or((line, ""));
    Row {
        number: index.saturating_add(1),
        question,
        wanted,
    }
}

/// Puts a line behind a text.
fn push_line(text: &mut String, line: &str) -> Result<(), AllocError> {
    text.push_str(line.strip_prefix(' ').unwrap_or(line))?;
    text.push('\n')
}

impl<'t> Case<'t> {
    /// An empty text of which nothing is asked.
    fn new(alloc: Global) -> Case<'t> {
        Case {
            text: String::new(alloc),
            rows: Vec::new(alloc),
        }
    }

    /// Takes a line in, by its index in the table.
    fn take_line(&mut self, index: usize, line: &'t str) -> Result<(), AllocError> {
        if let Some(part) = line.strip_prefix('|') {
            push_line(&mut self.text, part)
        } else if line.is_empty() || line.starts_with('#') {
            Ok(())
        } else {
            self.rows.push(row_of(index, line))?;
            Ok(())
        }
    }
}

/// The cases of a table, in order.
pub fn read_cases(alloc: Global, table: &str) -> Result<Vec<Case<'_>>, AllocError> {
    let mut cases = Vec::new(alloc);
    let mut case = Case::new(alloc);
    for (index, line) in table.lines().enumerate() {
        if line.starts_with('|') && !case.rows.is_empty() {
            cases.push(mem::replace(&mut case, Case::new(alloc)))?;
        }
        case.take_line(index, line)?;
    }
    cases.push(case)?;
    Ok(cases)
}

/// The table that stands in the input.
pub fn read_table<R: Input + AllocGlobal>(rt: &R) -> io::Result<String> {
    io::read_to_string(rt.alloc(), rt.reader())
}

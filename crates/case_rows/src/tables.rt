//! The tables of an input.

use std::alloc::{AllocError, Global};
use std::mem;

/// A table of an input: its name, and its lines, behind as many empty ones as lines stand in front of them.
#[derive(Drop)]
pub struct Table<'t> {
    pub name: &'t str,
    pub text: String,
}

impl<'t> Table<'t> {
    /// A table of which no line is known but how many stand in front of it.
    fn new(alloc: Global, name: &'t str, lines: usize) -> Result<Table<'t>, AllocError> {
        let mut text = String::new(alloc);
        for _line in 0..lines {
            text.push('\n')?;
        }
        Ok(Table { name, text })
    }

    /// Puts a line behind the others.
    fn push_line(&mut self, line: &str) -> Result<(), AllocError> {
        self.text.push_str(line)?;
        self.text.push('\n')
    }
}

/// Puts a table behind others, unless it is the empty one in front of a name in the first line.
fn push_table<'t>(tables: &mut Vec<Table<'t>>, table: Table<'t>) -> Result<(), AllocError> {
    if !table.text.is_empty() {
        tables.push(table)?;
    }
    Ok(())
}

/// The tables of an input, in order. What stands in front of the first name is a table without one.
pub fn cut_tables(alloc: Global, input: &str) -> Result<Vec<Table<'_>>, AllocError> {
    let mut tables = Vec::new(alloc);
    let mut table = Table::new(alloc, "", 0)?;
    for (index, line) in input.lines().enumerate() {
        if let Some(name) = line.strip_prefix("== ") {
            let next = Table::new(alloc, name, index.saturating_add(1))?;
            push_table(&mut tables, mem::replace(&mut table, next))?;
        } else {
            table.push_line(line)?;
        }
    }
    push_table(&mut tables, table)?;
    Ok(tables)
}

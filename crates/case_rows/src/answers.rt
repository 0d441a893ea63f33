//! What a program answers to the rows of its tables.

use crate::table::{Case, read_cases, read_table};
use crate::tables::{Table, cut_tables};
use crate::tally::Tally;
use std::alloc::{AllocError, Global};
use std::io;

/// What answers the rows of a case, one behind the other.
pub trait Answers: Drop {
    /// What there is in front of the first row, in the table of this name, below this text.
    fn new(alloc: Global, table: &str, text: &str) -> Result<Self, AllocError>;

    /// The answer to the question of the next row of the same table, below the same text.
    fn answer(
        &mut self,
        alloc: Global,
        table: &str,
        text: &str,
        question: &str,
    ) -> Result<String, AllocError>;
}

/// Answers the rows of a case.
fn check_case<A: Answers, R: Print + AllocGlobal>(
    rt: &R,
    table: &str,
    case: &Case,
    tally: &mut Tally,
) -> io::Result<()> {
    let text = case.text.as_str();
    let mut answers = A::new(rt.alloc(), table, text)?;
    for row in &case.rows {
        let found = answers.answer(rt.alloc(), table, text, row.question)?;
        tally.note(rt, row, found.as_str())?;
    }
    Ok(())
}

/// Answers a table, and prints its name and how many of its rows have passed.
fn check_table<A: Answers, R: Print + AllocGlobal>(rt: &R, table: &Table) -> io::Result<()> {
    println!(rt; "== {}", table.name)?;
    let mut tally = Tally::new();
    for case in &read_cases(rt.alloc(), table.text.as_str())? {
        check_case::<A, R>(rt, table.name, case, &mut tally)?;
    }
    tally.tell(rt)
}

/// Answers the tables of the input, one behind the other. Rows are told by their lines in the whole input.
///
/// An error is one of reading or of printing, or the want of memory.
pub fn check_tables<A: Answers, R: Input + Print + AllocGlobal>(rt: &R) -> io::Result<()> {
    let input = read_table(rt)?;
    for table in &cut_tables(rt.alloc(), input.as_str())? {
        check_table::<A, R>(rt, table)?;
    }
    Ok(())
}

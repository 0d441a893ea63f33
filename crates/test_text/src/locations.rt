//! Locations: those of the first process of a design, and what is left to be done after each.
//!
//! Above the rows stands a specification. Statements are told by their lines:
//!
//! - `start`: what is left to be done at the start;
//! - `location N`: of the location N, from 1, whether it is a magic block, its line, the number of the trail of calls
//!   that leads to it (0 is none), the number by which it is found, and what is left after it;
//! - `trail LINE COLUMN`: the number of the trail of the call at this place of the process;
//! - `number LINE COLUMN`: the number of the location at this place of the process, one more than there are if none
//!   is.

mod answers;
mod lines;

use answers::answer_by_table;
use std::alloc::{AllocError, Global};
use tm_plain::{Tables, locate};

/// The answer to a question about the first process of a design, by the tables of the design.
pub fn answer_to(alloc: Global, tables: &Tables, question: &str) -> Result<String, AllocError> {
    match locate(alloc, tables)?.first() {
        Some(table) => answer_by_table(alloc, table, question),
        None => String::from_str(alloc, "there is no process"),
    }
}

//! What rows are answered.

use super::lines::lines_left;
use case_rows::{number, split_word};
use std::alloc::{AllocError, Global};
use tm_base::Place;
use tm_locations::Locations;

/// The place that a line and a column tell.
fn place_of(text: &str) -> Place {
    let (line, column) = split_word(text);
    Place {
        line: number(line),
        column: number(column),
    }
}

/// A location by its number, from 1.
fn location_text(alloc: Global, table: &Locations, wanted: u32) -> Result<String, AllocError> {
    let Some(row) = table.rows().get((wanted as usize).saturating_sub(1)) else {
        return String::from_str(alloc, "none");
    };
    let magic = if row.is_magic { "magic " } else { "" };
    let line = row.at.line;
    let trail = row.trail;
    let found = table.number(row.at, row.trail);
    let left = lines_left(alloc, table, row.rest)?;
    format!(in alloc; "{magic}line {line} trail {trail} number {found} left{left}")
}

/// The trail of the call at a place of the process.
fn trail_text(alloc: Global, table: &Locations, at: Place) -> Result<String, AllocError> {
    match table.trail_behind(at, 0) {
        Some(trail) => format!(in alloc; "{trail}"),
        None => String::from_str(alloc, "none"),
    }
}

/// The answer to a question about the locations of a process.
pub fn answer_by_table(
    alloc: Global,
    table: &Locations,
    question: &str,
) -> Result<String, AllocError> {
    let (verb, rest) = split_word(question);
    match verb {
        "start" => {
            let left = lines_left(alloc, table, table.start())?;
            format!(in alloc; "left{left}")
        }
        "location" => location_text(alloc, table, number(rest)),
        "trail" => trail_text(alloc, table, place_of(rest)),
        "number" => format!(in alloc; "{}", table.number(place_of(rest), 0)),
        _ => String::from_str(alloc, "no question"),
    }
}

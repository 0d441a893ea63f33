//! What rows are answered.
ghost use Rattle.std.specs.Prelude.{◌≡◌};

use super::parameters::cells_at;
use crate::spelling::{body_of, path_of};
use case_rows::{number, split_word};
use std::alloc::{AllocError, Global};
use std::fmt::Write;
use tm_scope::{CellNumber, CellScope, Cells, SiteBody, SlotNumber};
use tm_syntax::design::Instance;
use tm_syntax::tree::{Ident, Spec};

/// The body of an instance that words tell.
fn site_of(words: &str) -> SiteBody {
    let (instance, body) = split_word(words);
    SiteBody {
        instance: number(instance),
        body: body_of(body),
    }
}

/// Puts a cell behind others.
fn push_cell(text: &mut String, cell: CellNumber) -> Result<(), AllocError> {
    if !text.is_empty() {
        text.push_str(", ")?;
    }
    match cell {
        CellNumber::State(number) => write!(text, "state {number}"),
        CellNumber::Step(SlotNumber::Param(index)) => write!(text, "parameter {index}"),
        CellNumber::Step(SlotNumber::Local(index)) => write!(text, "local {index}"),
    }
}

/// Cells as text.
fn cells_text(alloc: Global, cells: &[CellNumber]) -> Result<String, AllocError> {
    let mut text = String::new(alloc);
    for cell in cells {
        push_cell(&mut text, *cell)?;
    }
    Ok(text)
}

/// The cell that a path means in a body, if it is there, perhaps with an index.
fn cell_at(scope: &Option<CellScope>, path: &[Ident], index: Option<u64>) -> Option<CellNumber> {
    match scope {
        Some(scope) => scope.cell(path, index),
        None => None,
    }
}

/// The cell that a path means in a body of an instance, perhaps with an index.
fn cell_of(
    alloc: Global,
    cells: &Cells,
    at: SiteBody,
    text: &str,
) -> Result<Option<CellNumber>, AllocError> {
    let (names, index) = match text.split_once('[') {
        Some((names, index)) => (names, index.trim_end_matches(']').parse::<u64>().ok()),
        None => (text, None),
    };
    let path = path_of(alloc, names)?;
    Ok(cell_at(&cells.scope(at), &path, index))
}

/// The cells that a question asks for, if there are such.
fn found(
    alloc: Global,
    cells: &Cells,
    spec: &Spec,
    instances: &[Instance],
    question: &str,
) -> Result<Option<Vec<CellNumber>>, AllocError>
    requires { cells.now
        ≡ record { spec = spec.now; instances = instances.now; vars = cells.now.vars } }
{
    let (site, asked) = question.split_once(": ").unwrap_or((question, ""));
    let at = site_of(site);
    if asked == "its parameters" {
        return cells_at(alloc, cells, spec, instances, at);
    }
    match cell_of(alloc, cells, at, asked)? {
        Some(cell) => Ok(Some(vec![in alloc; cell]?)),
        None => Ok(None),
    }
}

/// The answer to the question of a row.
pub fn answer_by_cells(
    alloc: Global,
    cells: &Cells,
    spec: &Spec,
    instances: &[Instance],
    question: &str,
) -> Result<String, AllocError>
    requires { cells.now
        ≡ record { spec = spec.now; instances = instances.now; vars = cells.now.vars } }
{
    match found(alloc, cells, spec, instances, question)? {
        Some(cells) => cells_text(alloc, &cells),
        None => String::from_str(alloc, "none"),
    }
}

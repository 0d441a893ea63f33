//! The constants of a specification.

use std::alloc::{AllocError, Global};
use tm_term::{Term, TermId, Terms};

/// The greatest width of which all values are tried.
const NARROW: u8 = 5;

/// How many constants of a width are tried.
const MOST: usize = 64;

/// The constants that are tried for a number of a width: all values where these are few, and else 0 and those that
/// stand in the specification.
pub(crate) fn literals(alloc: Global, terms: &Terms, width: u8) -> Result<Vec<u64>, AllocError> {
    if width <= NARROW {
        return all_values(alloc, width);
    }
    let mut found = Vec::new(alloc);
    found.push(0)?;
    for index in 0..terms.count() {
        push_constant(&mut found, terms, TermId(index), width)?;
    }
    Ok(found)
}

// All values of a narrow width.
fn all_values(alloc: Global, width: u8) -> Result<Vec<u64>, AllocError> {
    let mut values = Vec::new(alloc);
    let end = if width < 64 { 1_u64 << width } else { 0 };
    for value in 0..end {
        values.push(value)?;
    }
    Ok(values)
}

// Puts the number of a term behind others, where it is a constant of a width, not 0, and these are few.
fn push_constant(
    found: &mut Vec<u64>,
    terms: &Terms,
    id: TermId,
    width: u8,
) -> Result<(), AllocError> {
    if found.len() >= MOST || !terms.is_known(id) {
        return Ok(());
    }
    match terms.term(id) {
        Term::Const(own, number) => {
            if own == width && number != 0 {
                found.push(number)?;
            }
        }
        _ => {}
    }
    Ok(())
}

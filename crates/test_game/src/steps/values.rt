//! The values of terms at states, for words of choices and of arguments.

use std::alloc::{AllocError, Global};
use tm_term::{TermId, Terms};

/// Pushes the bits of a word, the least significant first.
fn push_bits(values: &mut Vec<u64>, word: u64) -> Result<(), AllocError> {
    let mut rest = word;
    for _ in 0..u64::BITS {
        values.push(rest & 1)?;
        rest >>= 1;
    }
    Ok(())
}

/// The values of the inputs: the numbers of a state, then the bits of a word of choices, the least significant first,
/// and then those of a word of arguments, the most significant first.
fn input_values(
    alloc: Global,
    numbers: &[u64],
    choices: u64,
    arguments: u64,
) -> Result<Vec<u64>, AllocError> {
    let mut values = Vec::from_slice(alloc, numbers)?;
    push_bits(&mut values, choices)?;
    push_bits(&mut values, arguments.reverse_bits())?;
    Ok(values)
}

/// The values of all terms at a state, for words of choices and of arguments; 0 where these are no values of the
/// inputs.
pub fn values_at(
    alloc: Global,
    terms: &Terms,
    numbers: &[u64],
    choices: u64,
    arguments: u64,
) -> Result<Vec<u64>, AllocError> {
    let values = input_values(alloc, numbers, choices, arguments)?;
    let mut table = vec![in alloc; 0; terms.count() as usize]?;
    if terms.accepts(&values) {
        terms.eval_into(&values, &mut table);
    }
    Ok(table)
}

/// The value of a term, among those of all.
pub fn value_in(table: &[u64], id: TermId) -> u64 {
    table.get(id.0 as usize).copied().unwrap_or(0)
}

//! The bits of terms, and the numbers that they read.
ghost use Rattle.std.specs.Prelude.{IsTrue};
ghost use Rattle.tm_blast.specs.Bits.{AreLevels};
ghost use Rattle.tm_blast.specs.Numbers.{level_lists};
ghost use Rattle.tm_term.specs.Table.{IsKnown};

use super::bench::Bench;
use crate::functions::value_of;
use std::alloc::{AllocError, Global};
use tm_blast::{TermBits, are_levels, bits};
use tm_dd::NodeId;
use tm_ddops::Manager;
use tm_term::{TermId, Terms};

/// Whether a term is known, and its inputs have levels.
fn has_levels(terms: &Terms, levels: &[Vec<u32>], dd: &Manager, id: TermId) -> bool
    ensures known { IsTrue result → IsKnown terms.now id }
    ensures levels { IsTrue result → AreLevels terms.now dd.now.table.levels (level_lists levels.now) }
{
    terms.is_known(id) && are_levels(terms, levels, dd.store().levels())
}

/// The bits of a term, if it is known and its inputs have levels.
pub fn bits_of(
    alloc: Global,
    terms: &Terms,
    levels: &[Vec<u32>],
    dd: &mut Manager,
    id: TermId,
) -> Result<Option<Vec<NodeId>>, AllocError> {
    if !has_levels(terms, levels, dd, id) {
        return Ok(None);
    }
    match bits(alloc, terms, id, levels, dd) {
        Ok(bits) => Ok(Some(bits)),
        Err(error) => Err(error),
    }
}

/// The bits of a term, if what was made of it was not remembered before and is remembered then.
pub fn remembered_bits(
    alloc: Global,
    terms: &Terms,
    levels: &[Vec<u32>],
    dd: &mut Manager,
    id: TermId,
) -> Result<Option<Vec<NodeId>>, AllocError> {
    let mut remembered = TermBits::new(alloc);
    if !has_levels(terms, levels, dd, id) || remembered.has(id) {
        return Ok(None);
    }
    let bits = remembered.bits(alloc, terms, id, levels, dd)?;
    Ok(if remembered.has(id) { Some(bits) } else { None })
}

/// Gives the levels of an input, the most significant first, the bits of its value.
fn set_bits(values: &mut [bool], levels: &[u32], input: u64) {
    let mut rest = input;
    for level in levels.iter().rev() {
        if let Some(value) = values.get_mut(*level as usize) {
            *value = rest % 2 == 1;
        }
        rest /= 2;
    }
}

/// The values of all levels, where the inputs have these values.
pub fn level_values(alloc: Global, bench: &Bench, inputs: &[u64]) -> Result<Vec<bool>, AllocError> {
    let mut values = vec![in alloc; false; bench.dd.store().levels() as usize]?;
    for (levels, input) in bench.levels.iter().zip(inputs) {
        set_bits(&mut values, levels, *input);
    }
    Ok(values)
}

/// The number that bits read, the most significant first, if the manager knows them.
pub fn number_of(dd: &Manager, bits: &[NodeId], values: &[bool]) -> Option<u64> {
    let mut number = 0u64;
    for bit in bits {
        match value_of(dd.store(), *bit, values) {
            Some(value) => number = number << 1 | u64::from(value),
            None => return None,
        }
    }
    Some(number)
}

//! The values of a term at all inputs, as digits.

use super::bench::Bench;
use super::terms::value;
use super::values::{bits_of, level_values, number_of};
use std::alloc::{AllocError, Global};
use tm_dd::NodeId;
use tm_term::{Term, TermId};

/// The greatest width of which values are told.
const MOST: u8 = 4;

/// At how many inputs of a width a term may have values of its own.
fn places(term: Term, width: u32) -> u64 {
    match term {
        Term::Ite(..) => 1u64.wrapping_shl(width).wrapping_shl(width) << 1,
        Term::Const(..)
        | Term::Input(_)
        | Term::Not(_)
        | Term::Shl(..)
        | Term::Shr(..)
        | Term::Resize(..) => 1u64.wrapping_shl(width),
        _ => 1u64.wrapping_shl(width).wrapping_shl(width),
    }
}

/// The inputs at a place: two numbers of a width, and a test.
fn inputs_at(place: u64, width: u32) -> [u64; 3] {
    let greatest = !u64::MAX.wrapping_shl(width);
    let rest = place.wrapping_shr(width);
    [rest & greatest, place & greatest, rest.wrapping_shr(width)]
}

/// The digit of a value.
fn digit(value: Option<u64>) -> char {
    match value {
        Some(value) if value < 16 => char::from_digit(value as u32, 16).unwrap_or('?'),
        _ => '?',
    }
}

/// The values of a term by its table.
fn by_terms(
    alloc: Global,
    bench: &Bench,
    id: TermId,
    width: u32,
    places: u64,
) -> Result<String, AllocError> {
    let mut text = String::new(alloc);
    for place in 0..places {
        let inputs = inputs_at(place, width);
        text.push(digit(value(&bench.terms, id, &inputs)))?;
    }
    Ok(text)
}

/// The values of a term by its bits.
fn by_bits(
    alloc: Global,
    bench: &Bench,
    bits: &[NodeId],
    width: u32,
    places: u64,
) -> Result<String, AllocError> {
    let mut text = String::new(alloc);
    for place in 0..places {
        let values = level_values(alloc, bench, &inputs_at(place, width))?;
        text.push(digit(number_of(&bench.dd, bits, &values)))?;
    }
    Ok(text)
}

/// Values that were told in two ways: once where they are the same.
fn told(alloc: Global, first: String, second: &str) -> Result<String, AllocError> {
    if first.as_str() == second {
        Ok(first)
    } else {
        format!(in alloc; "{first} by terms, {second} by bits")
    }
}

/// The values of a term by its table, and by its bits where they differ.
fn both_digits(
    alloc: Global,
    bench: &Bench,
    id: TermId,
    bits: &[NodeId],
    width: u32,
    places: u64,
) -> Result<String, AllocError> {
    let second = by_bits(alloc, bench, bits, width, places)?;
    let first = by_terms(alloc, bench, id, width, places)?;
    told(alloc, first, second.as_str())
}

/// The values of a term that has this id, by its table and by its bits where they differ.
pub fn digits_text(
    alloc: Global,
    bench: &mut Bench,
    term: Term,
    id: TermId,
) -> Result<String, AllocError> {
    let width = bench.terms.inputs().first().copied().unwrap_or(0);
    if width > MOST {
        return String::from_str(alloc, "wide");
    }
    let width = u32::from(width);
    match bits_of(alloc, &bench.terms, &bench.levels, &mut bench.dd, id) {
        Ok(Some(bits)) => both_digits(alloc, bench, id, &bits, width, places(term, width)),
        Ok(None) => String::from_str(alloc, "unknown"),
        Err(error) => Err(error),
    }
}

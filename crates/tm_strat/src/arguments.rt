//! Arguments that are constants.
ghost use Rattle.std.specs.Prelude.{◌≡◌, ◌+◌, ◌≤◌, IfOk, min};
ghost use Rattle.tm_flat.specs.BitRun.{number_at};
ghost use Rattle.tm_strat.specs.Spelled.{bit_in, constants_from};

use crate::expressions::Expression;
use std::alloc::{AllocError, Global};

/// The constants that bits have in widths, one behind the other: the bits of all, the first one the most significant of
/// 64. Bits behind the last are 0, and no constant has more than 64.
pub(crate) fn constants(
    alloc: Global,
    widths: &[u8],
    bits: u64,
) -> Result<Vec<Expression>, AllocError>
    ensures { IfOk result (λ found. found.items ≡ constants_from bits 0 widths.now) }
{
    let mut found = Vec::new(alloc);
    let mut first: u8 = 0;
    for index in 0..widths.len() {
        let width = widths[index];
        let number = constant(bits, first, capped(width));
        found.push(Expression::Constant(number))?;
        first = behind(first, width);
    }
    Ok(found)
}

// A width, at most 64.
fn capped(width: u8) -> u8
    ensures { result ≡ min width 64 }
{
    if width < 64 { width } else { 64 }
}

// The place behind a number of bits, at most 64.
fn behind(first: u8, width: u8) -> u8
    requires { first ≤ 64 }
    ensures { result ≡ min (first + width) 64 }
{
    if width < 64 - first {
        first + width
    } else {
        64
    }
}

// The number that so many bits from one on are.
fn constant(bits: u64, first: u8, width: u8) -> u64
    requires first { first ≤ 64 }
    requires width { width ≤ 64 }
    ensures { result ≡ number_at (bit_in bits) first width }
{
    let mut number: u64 = 0;
    for index in 0..width {
        let here = bit_at(bits, first + index);
        number = number * 2 + u64::from(here);
    }
    number
}

// A bit, the most significant first, false behind the last one.
fn bit_at(bits: u64, place: u8) -> bool
    ensures { result ≡ bit_in bits place }
{
    if place >= 64 {
        return false;
    }
    (bits >> (63 - place)) % 2 == 1
}

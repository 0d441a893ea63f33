//! The control order.
ghost use Rattle.std.specs.Prelude.{◌≤◌, ◌<◌, ℕ, All, IfOk};
ghost use Rattle.tm_game_bits.specs.Order.{IsOrder};

use std::alloc::{AllocError, Global};

// The rank of a bit of a location or of who moved last.
const WHERE: u8 = 0;
// The rank of a bit of a value of few bits.
const NARROW: u8 = 1;
// The rank of the bit of the greatest weight that a value may have.
const WIDEST: u8 = 2;
// The most bits of a number.
const BITS: u8 = 64;
// How many bits a value of few bits has at most.
const FEW: u8 = 3;

// The rank of the bit of this weight in a value of so many bits.
fn value_rank(width: u8, weight: u8) -> u8
    requires width { width ≤ 64 }
    requires weight { weight < width }
{
    if width <= FEW {
        NARROW
    } else {
        WIDEST + (BITS - 1 - weight)
    }
}

// Puts the ranks of the bits of a value behind others, its most significant bit first.
fn push_value(ranks: &mut Vec<u8>, width: u8) -> Result<(), AllocError>
    requires { width ≤ 64 }
{
    for passed in 0..width {
        ranks.push(value_rank(width, width - 1 - passed))?;
    }
    Ok(())
}

// Puts the ranks of the bits of a location behind others.
fn push_where(ranks: &mut Vec<u8>, width: u8) -> Result<(), AllocError> {
    for _bit in 0..width {
        ranks.push(WHERE)?;
    }
    Ok(())
}

// The ranks of the bits of a state, of which the first so many numbers are values of variables.
fn ranks_of(alloc: Global, widths: &[u8], values: usize) -> Result<Vec<u8>, AllocError>
    requires { All (λ w. w ≤ 64) widths.now }
{
    let mut ranks = Vec::new(alloc);
    for (index, width) in widths.iter().enumerate() {
        if index < values {
            push_value(&mut ranks, *width)?;
        } else {
            push_where(&mut ranks, *width)?;
        }
    }
    Ok(ranks)
}

// What decides where a place stands: its rank, and among places of one rank the place itself.
fn position_of(ranks: &[u8], place: u32) -> (u8, u32) {
    match ranks.get(place as usize) {
        Some(rank) => (*rank, place),
        None => (WHERE, place),
    }
}

/// The control order of bits that have these widths, of which the first so many are values of variables, from their
/// weight order.
pub(crate) fn control_order(
    alloc: Global,
    widths: &[u8],
    weight: &[u32],
    values: usize,
) -> Result<Vec<u32>, AllocError>
    requires { All (λ w. w ≤ 64) widths.now }
    ensures { (count : ℕ) → IsOrder count weight.now → IfOk result (λ order. IsOrder count order.items) }
{
    let ranks = ranks_of(alloc, widths, values)?;
    let mut order = Vec::from_slice(alloc, weight)?;
    order.sort_by_key(|place| position_of(&ranks, *place))?;
    Ok(order)
}

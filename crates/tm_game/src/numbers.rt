//! Numbers as bits, the most significant first, and back.
ghost use Rattle.std.specs.Prelude.{◌≡◌, ◌<◌, ◌≤◌, ◌^◌, ◌/◌, ◌%◌, ◌==◌, ◌++◌, All, IfOk, OnOk, length, nat_lt, sum};
ghost use Rattle.tm_game_bits.specs.AssignedStates.{numbers_from};
ghost use Rattle.tm_base.specs.Bits as binary;
ghost use Rattle.tm_dd.specs.Table.{assignment};
ghost use Rattle.tm_game.specs.Inner.Called as called;
ghost use Rattle.tm_sem.specs.StateBits.{bits_of_numbers};

use std::alloc::{AllocError, Global};

/// The numbers of these widths whose bits stand one behind the other.
pub(crate) fn numbers_at(
    alloc: Global,
    bits: &[bool],
    widths: &[u8],
) -> Result<Vec<u64>, AllocError>
    requires bits { sum widths.now ≤ length bits.now }
    requires widths { All (λ w. w ≤ 64) widths.now }
    ensures numbers { IfOk result (λ numbers. numbers.items ≡ numbers_from widths.now (assignment bits.now) 0) }
    ensures count { IfOk result (λ numbers. length numbers.items ≡ length widths.now) }
{
    let mut numbers = Vec::new(alloc);
    let mut place = 0;
    for width in widths {
        let end = place + *width as usize;
        numbers.push(number_of(&bits[place..end]))?;
        place = end;
    }
    Ok(numbers)
}

/// Numbers in fewer bits.
pub(crate) fn shortened(alloc: Global, numbers: &[u64]) -> Result<Vec<u32>, AllocError>
    requires { All (λ n. n < 2 ^ 32) numbers.now }
    ensures { IfOk result (λ short. short.items ≡ numbers.now) }
{
    let mut short = Vec::new(alloc);
    for number in numbers {
        short.push(*number as u32)?;
    }
    Ok(short)
}

// The number of bits.
fn number_of(bits: &[bool]) -> u64
    requires { length bits.now ≤ 64 }
    ensures { result ≡ binary.number_of bits.now }
{
    let mut number = 0;
    for bit in bits {
        number = 2 * number + u64::from(*bit);
    }
    number
}

/// Puts the bits of numbers of these widths behind others, for as many as both lists have.
pub(crate) fn push_numbers(
    bits: &mut Vec<bool>,
    widths: &[u8],
    numbers: &[u64],
) -> Result<(), AllocError>
    ensures { OnOk result (bits.new.items ≡ bits.old.items ++ bits_of_numbers widths.now numbers.now) }
{
    for (width, number) in widths.iter().zip(numbers) {
        push_number(bits, *width, *number)?;
    }
    Ok(())
}

/// Whether numbers are as many as widths, and each has its width.
pub(crate) fn have_widths(widths: &[u8], numbers: &[u64]) -> bool
    ensures { result ≡ called.have_widths widths.now numbers.now }
{
    if widths.len() != numbers.len() {
        return false;
    }
    for (width, number) in widths.iter().zip(numbers) {
        if !has_width(*number, *width) {
            return false;
        }
    }
    true
}

// Puts the bits of a number behind others.
fn push_number(bits: &mut Vec<bool>, width: u8, number: u64) -> Result<(), AllocError>
    ensures { OnOk result (bits.new.items ≡ bits.old.items ++ binary.bits_of width number) }
{
    for passed in 0..width {
        bits.push(has_bit(number, width - 1 - passed))?;
    }
    Ok(())
}

// Whether a number has the bit that stands for 2 to the power of a weight.
fn has_bit(number: u64, weight: u8) -> bool
    ensures { result ≡ (number / 2 ^ weight % 2 == 1) }
{
    weight < 64 && (number >> weight) % 2 == 1
}

// Whether a number has a width.
fn has_width(number: u64, width: u8) -> bool
    ensures { result ≡ nat_lt number (2 ^ width) }
{
    width >= 64 || number >> width == 0
}

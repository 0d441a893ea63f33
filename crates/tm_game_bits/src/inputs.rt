//! The levels of the inputs of terms.
ghost use Rattle.std.specs.Prelude.{◌≡◌, ◌+◌, ◌<◌, ◌≤◌, ◌^◌, ◌++◌, IfOk, OnOk, length, sum};
ghost use Rattle.tm_game_bits.specs.Inner.Pieces.{pieces};
ghost use Rattle.tm_game_bits.specs.Inputs as inputs;
ghost use Rattle.tm_blast.specs.Numbers.{level_lists};
ghost use Rattle.tm_flat.specs.Inputs.{room};
ghost use Rattle.tm_game_bits.specs.Order.{IsOrder};

use crate::levels_by_place;
use std::alloc::{AllocError, Global};

/// How many bits there are for the choices of a step, and for the arguments of a call.
pub const ROOM: u32 = 64;

/// The levels of the inputs of terms, one for each bit, the most significant bit's first, where the numbers of a state
/// have these widths and its levels follow an order.
///
/// The levels of the state come first, then those of the bits of arguments, and then those of the bits of choices.
pub fn input_levels(
    alloc: Global,
    order: &[u32],
    widths: &[u8],
) -> Result<Vec<Vec<u32>>, AllocError>
    requires order { IsOrder (sum widths.now) order.now }
    requires count { length order.now + 128 < 2 ^ 32 }
    ensures { IfOk result (λ levels. level_lists levels.items ≡ inputs.input_levels order.now widths.now) }
{
    let by_place = levels_by_place(alloc, order)?;
    let mut levels = number_levels(alloc, &by_place, widths)?;
    let first_argument = order.len() as u32;
    push_bits(alloc, &mut levels, first_argument + ROOM)?;
    push_bits(alloc, &mut levels, first_argument)?;
    Ok(levels)
}

// The levels by place cut into those of numbers.
fn number_levels(
    alloc: Global,
    by_place: &[u32],
    widths: &[u8],
) -> Result<Vec<Vec<u32>>, AllocError>
    requires { sum widths.now ≤ length by_place.now }
    ensures { IfOk result (λ levels. level_lists levels.items ≡ pieces by_place.now widths.now) }
{
    let mut levels = Vec::new(alloc);
    let mut place = 0;
    for width in widths {
        let end = place + *width as usize;
        let piece = Vec::from_slice(alloc, &by_place[place..end])?;
        levels.push(piece)?;
        place = end;
    }
    Ok(levels)
}

// Puts the levels of bits that are an input each behind those of other inputs.
fn push_bits(alloc: Global, levels: &mut Vec<Vec<u32>>, first: u32) -> Result<(), AllocError>
    requires { first + 64 < 2 ^ 32 }
    ensures { OnOk result (level_lists levels.new.items
        ≡ level_lists levels.old.items ++ inputs.bit_levels first room) }
{
    for bit in 0..ROOM {
        let level = Vec::from_slice(alloc, &[first + bit])?;
        levels.push(level)?;
    }
    Ok(())
}

//! Orders of the bits of a state: its place tells which bit is meant, and its position in the order the level.
ghost use Rattle.std.specs.List.{range_with_len};
ghost use Rattle.std.specs.Prelude.{◌≡◌, ◌+◌, ◌<◌, ◌≤◌, ◌^◌, ◌++◌, All, IfOk, OnOk, sum};
ghost use Rattle.tm_game_bits.specs.Inner.Weights.{at_weight};
ghost use Rattle.tm_game_bits.specs.Order.{IsOrder};
ghost use Rattle.tm_sem.specs.StateBits as state_bits;

use std::alloc::{AllocError, Global};

/// The greatest weight of a bit, and one: no number of a state has more bits.
const WEIGHTS: u8 = 64;

/// The places in order.
pub fn place_order(alloc: Global, count: u32) -> Result<Vec<u32>, AllocError>
    ensures places { IfOk result (λ order. order.items ≡ range_with_len 0 count) }
    ensures order { IfOk result (λ order. IsOrder count order.items) }
{
    let mut order = Vec::new(alloc);
    for place in 0..count {
        order.push(place)?;
    }
    Ok(order)
}

/// The weight order of the bits of numbers of these widths: bits that are farther from the least significant bit of
/// their number come first, and equally far ones by place.
///
/// So bits of numbers that are compared or copied stand side by side. It goes through the widths once for each weight.
pub fn weight_order(alloc: Global, widths: &[u8]) -> Result<Vec<u32>, AllocError>
    requires widths { All (λ w. w ≤ 64) widths.now }
    requires count { sum widths.now < 2 ^ 32 }

    ensures weights { IfOk result (λ order. order.items ≡ state_bits.weight_order widths.now) }
    ensures order { IfOk result (λ order. IsOrder (sum widths.now) order.items) }
{
    let mut order = Vec::new(alloc);
    for passed in 0..WEIGHTS {
        push_weight(&mut order, widths, WEIGHTS - 1 - passed)?;
    }
    Ok(order)
}

// Puts behind an order the places of the bits of one weight.
fn push_weight(order: &mut Vec<u32>, widths: &[u8], weight: u8) -> Result<(), AllocError>
    requires { sum widths.now < 2 ^ 32 }
    ensures { OnOk result (order.new.items
        ≡ order.old.items ++ state_bits.places_of_weight (state_bits.weights widths.now) weight) }
{
    let mut start = 0;
    for width in widths {
        push_bit(order, start, *width, weight)?;
        start += u32::from(*width);
    }
    Ok(())
}

// Puts behind an order the place of the bit of one weight, where a number has one.
fn push_bit(order: &mut Vec<u32>, start: u32, width: u8, weight: u8) -> Result<(), AllocError>
    requires { start + width < 2 ^ 32 }
    ensures { OnOk result (order.new.items ≡ order.old.items ++ at_weight start width weight) }
{
    if weight < width {
        order.push(start + u32::from(width - 1 - weight))?;
    }
    Ok(())
}

//! The levels of the bits of a state.
ghost use Rattle.std.specs.List.{range_with_len};
ghost use Rattle.std.specs.Prelude.{◌≡◌, ◌<◌, ◌^◌, IfOk, length, map};
ghost use Rattle.tm_game_bits.specs.Order.{IsOrder, level_in};

use std::alloc::{AllocError, Global};

/// The level of the bit of each place, where the levels follow an order.
pub fn levels_by_place(alloc: Global, order: &[u32]) -> Result<Vec<u32>, AllocError>
    requires order { IsOrder (length order.now) order.now }
    requires count { length order.now < 2 ^ 32 }
    ensures { IfOk result (λ levels.
        levels.items ≡ map (level_in order.now) (range_with_len 0 (length order.now))) }
{
    let mut levels = vec![in alloc; 0; order.len()]?;
    for (level, place) in order.iter().enumerate() {
        levels[*place as usize] = level as u32;
    }
    Ok(levels)
}

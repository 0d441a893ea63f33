//! The ranks of levels, where those of inputs stand among those of states.
ghost use Rattle.std.specs.List.Sorted.{IsNonDecreasingBy};
ghost use Rattle.std.specs.Prelude.{◌≡◌, ◌≤◌, IfOk};
ghost use Rattle.tm_dd.specs.Reduced.{RanksRise};
ghost use Rattle.tm_dd.specs.Table.{Table};
ghost use Rattle.tm_dd.specs.Unique.{AreRanks};
ghost use Rattle.tm_game_bits.specs.Inner.Ranks.{key_of};
ghost use Rattle.tm_game_bits.specs.Order.{IsOrder};

use crate::{levels_by_place, place_order};
use std::alloc::{AllocError, Global};

/// The ranks of `count` levels, of which the first `states` stand in the order of their numbers. `above` says of each
/// level behind these how many of the first ones stand above it; where it says nothing, all of them do. What stands
/// below the same of them stands in the order of its numbers.
pub fn ranks_among(
    alloc: Global,
    states: u32,
    count: u32,
    above: &[u32],
) -> Result<Vec<u32>, AllocError>
    requires { states ≤ count }
    ensures ranks { IfOk result (λ ranks. AreRanks count ranks.items) }
    ensures rise { IfOk result (λ ranks. (s : Table) → s.levels ≡ count → s.ranks ≡ ranks.items → RanksRise states s) }
{
    let levels = levels_from_top(alloc, states, count, above)?;
    levels_by_place(alloc, &levels)
}

// The levels as they stand, the highest first.
fn levels_from_top(
    alloc: Global,
    states: u32,
    count: u32,
    above: &[u32],
) -> Result<Vec<u32>, AllocError>
    ensures order { IfOk result (λ levels. IsOrder count levels.items) }
    ensures sorted { IfOk result (λ levels. IsNonDecreasingBy (key_of states above.now) levels.items) }
{
    let mut levels = place_order(alloc, count)?;
    levels.sort_by_key(|level| key(states, above, *level))?;
    Ok(levels)
}

// What decides where a level stands.
fn key(states: u32, above: &[u32], level: u32) -> u64
    ensures { result ≡ key_of states above.now level }
{
    if level < states {
        return 2 * u64::from(level) + 1;
    }
    match above.get((level - states) as usize) {
        Some(count) => 2 * u64::from(*count),
        None => 2 * u64::from(states),
    }
}

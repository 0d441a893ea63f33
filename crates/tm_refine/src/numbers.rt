//! Numbers of predicates.
ghost use Rattle.std.specs.Prelude.{◌≡◌, ◌≤◌, ◌<◌, IfOk};
ghost use Rattle.std.specs.List.{range_with_len};
ghost use Rattle.tm_refine.specs.Reasons.{tracked_by};

use crate::trace::Added;
use std::alloc::{AllocError, Global};

// The first so many numbers.
pub(crate) fn numbers_below(alloc: Global, count: u32) -> Result<Vec<u32>, AllocError>
    ensures { IfOk result (λ v. v.items ≡ range_with_len 0 count) }
{
    (0..count).collect(alloc)
}

// The numbers of the predicates that are tracked after some additions.
pub(crate) fn numbers_after(
    alloc: Global,
    first: u32,
    added: &[Added],
) -> Result<Vec<u32>, AllocError>
    ensures { IfOk result (λ v. v.items ≡ tracked_by (range_with_len 0 first) added.now) }
{
    let mut numbers = numbers_below(alloc, first)?;
    for addition in added {
        numbers.push(addition.predicate)?;
    }
    Ok(numbers)
}

// A number below `high` and not below `low`: `step` below `high` where it goes so far, and halfway for no step.
pub(crate) fn between(low: usize, high: usize, step: usize) -> usize
    requires below { low < high }
    ensures low { low ≤ result }
    ensures high { result < high }
{
    if step == 0 {
        return low + (high - low) / 2;
    }
    if step < high - low {
        return high - step;
    }
    low
}

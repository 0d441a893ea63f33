//! The least values of some levels for which a function is true.
ghost use Rattle.std.specs.Prelude.{◌≡◌, ◌<◌, All, IfOk, MatchOption, length, map};
ghost use Rattle.tm_dd.specs.Reduced.{Extends};
ghost use Rattle.tm_dd.specs.Table.{Knows, assignment};
ghost use Rattle.tm_game_bits.specs.Inner.Narrowed.{IsCleared, IsNarrowed};
ghost use Rattle.tm_game_bits.specs.Least.{IsLeastAlong};

use std::alloc::{AllocError, Global};
use tm_base::Steps;
use tm_dd::{FALSE, NodeId, TRUE};
use tm_ddops::Manager;

/// The least values of some levels for which a function is true for some values of the other levels, with false before
/// true and the first of these levels first. `FALSE` has none. Every id keeps its meaning, also where memory runs out.
pub fn least(
    alloc: Global,
    dd: &mut Manager,
    f: NodeId,
    levels: &[u32],
) -> Result<Option<Vec<bool>>, AllocError>
    requires known { Knows dd.old.table f }
    requires levels { All (λ level. level < dd.old.table.levels) levels.now }

    ensures extends { Extends dd.old.table dd.new.table }
    ensures least { IfOk result (λ least. MatchOption least (f ≡ FALSE)
        (λ values. IsLeastAlong dd.old.table f levels.now values.items)) }
{
    let narrow = narrowed(dd, f, levels)?;
    match dd.least(narrow)? {
        None => Ok(None),
        Some(values) => Ok(Some(values_at(alloc, &values, levels)?)),
    }
}

// The values of some levels.
fn values_at(alloc: Global, values: &[bool], levels: &[u32]) -> Result<Vec<bool>, AllocError>
    requires { All (λ level. level < length values.now) levels.now }
    ensures { IfOk result (λ found. found.items ≡ map (assignment values.now) levels.now) }
{
    levels
        .iter()
        .map(|level| values[*level as usize])
        .collect(alloc)
}

// A function where some levels have the least values for which it is true.
fn narrowed(dd: &mut Manager, f: NodeId, levels: &[u32]) -> Result<NodeId, AllocError>
    requires known { Knows dd.old.table f }
    requires levels { All (λ level. level < dd.old.table.levels) levels.now }

    ensures extends { Extends dd.old.table dd.new.table }
    ensures answer { IfOk result (IsNarrowed dd.new.table f levels.now) }
{
    let mut narrow = f;
    for level in levels {
        narrow = cleared(dd, narrow, *level)?;
    }
    Ok(narrow)
}

// A function where a level is false, if it is true at some such place, and else the function.
fn cleared(dd: &mut Manager, f: NodeId, level: u32) -> Result<NodeId, AllocError>
    requires known { Knows dd.old.table f }
    requires level { level < dd.old.table.levels }

    ensures extends { Extends dd.old.table dd.new.table }
    ensures answer { IfOk result (IsCleared dd.new.table f level) }
{
    let clear = dd.make(level, TRUE, FALSE, &mut Steps::new(()))?;
    let low = dd.and(f, clear, &mut Steps::new(()))?;
    Ok(if low == FALSE { f } else { low })
}

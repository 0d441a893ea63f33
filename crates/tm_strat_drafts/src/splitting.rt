//! Tests that split a set of states.
ghost use Rattle.std.specs.Prelude.{◌≡◌, ◌<◌, true, IfOk};
ghost use Rattle.tm_solve.specs.Sets.{IsWithin};
ghost use Rattle.tm_strat_drafts.specs.Growth.{Follows};
ghost use Rattle.tm_strat_drafts.specs.Moves.{all_tests, IsCount};
ghost use Rattle.tm_strat_drafts.specs.Splits.{SplitBy, SplitOrNot};

use crate::ids::same;
use crate::moves::Moves;
use std::alloc::AllocError;
use tm_dd::NodeId;

// A test, and the parts of a set at which it holds and does not hold.
#[derive(Clone, Copy, Drop)]
pub(crate) struct Split {
    pub(crate) test: u32,
    pub(crate) first: NodeId,
    pub(crate) second: NodeId,
}

// Whether a set lies in another one.
pub(crate) fn lies_in<M: Moves>(moves: &mut M, a: NodeId, b: NodeId) -> Result<bool, AllocError>
    requires a_known { (M.setting moves.old).ids.knows a }
    requires b_known { (M.setting moves.old).ids.knows b }
    ensures value { IfOk result (λ r. r ≡ true → IsWithin (M.setting moves.old).game.states
        ((M.setting moves.old).ids.means a) ((M.setting moves.old).ids.means b)) }
    ensures follows { Follows (M.setting moves.old) (M.setting moves.new) }
{
    let rest = moves.without(a, b)?;
    let nothing = moves.nothing();
    let empty = same(rest, nothing);
    Ok(empty)
}

// A split of a set: by the likely test where that splits it, and else by the first one that does.
pub(crate) fn find_split<M: Moves>(
    moves: &mut M,
    set: NodeId,
    tests: u32,
) -> Result<Option<Split>, AllocError>
    requires known { (M.setting moves.old).ids.knows set }
    requires tests { IsCount (M.setting moves.old).game tests }
    ensures value { IfOk result (SplitOrNot (M.setting moves.old).game (M.setting moves.new).ids
        ((M.setting moves.old).ids.means set)) }
    ensures follows { Follows (M.setting moves.old) (M.setting moves.new) }
{
    let likely = moves.likely_test(set, tests)?;
    let found = try_split(moves, set, likely)?;
    match found {
        Some(split) => Ok(Some(split)),
        None => first_split(moves, set, tests),
    }
}

// A split by the first test that splits a set.
fn first_split<M: Moves>(
    moves: &mut M,
    set: NodeId,
    tests: u32,
) -> Result<Option<Split>, AllocError>
    requires known { (M.setting moves.old).ids.knows set }
    requires tests { tests ≡ all_tests (M.setting moves.old).game }
    ensures value { IfOk result (SplitOrNot (M.setting moves.old).game (M.setting moves.new).ids
        ((M.setting moves.old).ids.means set)) }
    ensures follows { Follows (M.setting moves.old) (M.setting moves.new) }
{
    for test in 0..tests {
        let found = try_split(moves, set, test)?;
        if found.is_some() {
            return Ok(found);
        }
    }
    Ok(None)
}

// A set split by one test.
fn try_split<M: Moves>(moves: &mut M, set: NodeId, test: u32) -> Result<Option<Split>, AllocError>
    requires known { (M.setting moves.old).ids.knows set }
    requires test { test < all_tests (M.setting moves.old).game }
    ensures value { IfOk result (SplitBy (M.setting moves.old).game (M.setting moves.new).ids
        ((M.setting moves.old).ids.means set) test) }
    ensures follows { Follows (M.setting moves.old) (M.setting moves.new) }
{
    let holds = moves.test(test)?;
    let first = moves.meet(set, holds)?;
    let second = moves.without(set, holds)?;
    let nothing = moves.nothing();
    if same(first, nothing) {
        return Ok(None);
    }
    if same(second, nothing) {
        return Ok(None);
    }
    Ok(Some(Split {
        test,
        first,
        second,
    }))
}

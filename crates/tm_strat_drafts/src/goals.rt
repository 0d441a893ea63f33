//! Drafts for one goal after another.
ghost use Rattle.std.specs.Prelude.{◌≡◌, ◌<◌, ◌+◌, ◌^◌, ◌++◌, ◌∷◌, [], ℕ, IfOk, length};
ghost use Rattle.tm_strat_drafts.specs.Blocks.{AreGood, AreLater};
ghost use Rattle.tm_strat_drafts.specs.Drafts.{AreDrafts, AreEarlier, blocks_of, FitsEarlier, HasRoots, Makes, Stay};
ghost use Rattle.tm_strat_drafts.specs.Growth.{at_goal, Follows};
ghost use Rattle.tm_strat_drafts.specs.Moves.{all_tests, IsCount, region_now, turned};
ghost use Rattle.tm_strat_drafts.specs.declared.drafts.DraftBlock.TheVariants as blocks;

use crate::building::{build, join, plain};
use crate::drafts::{Draft, DraftBlock, MoveChoice};
use crate::finishing::{block_at, finish};
use crate::ids::same;
use crate::moves::Moves;
use std::alloc::{AllocError, Global};

/// Blocks that lead to a good move for each goal, at each state of its region while it is pending.
///
/// The tests of states are numbered first, and behind them come those whether a goal is pending. `AllocError` is want
/// of memory; there are fewer than 2^32 blocks. In every case each known id means what it meant.
pub fn strategies<M: Moves>(
    alloc: Global,
    moves: &mut M,
    states: u32,
    goals: u32,
) -> Result<Vec<DraftBlock>, AllocError>
    requires some { 0 < goals }
    requires few { states + goals < 2 ^ 32 }
    requires tests { states ≡ (M.setting moves.old).game.tests }
    requires goals { goals ≡ (M.setting moves.old).game.goals }
    ensures good { IfOk result (λ bs. (goal : ℕ) → goal < goals
        → AreGood (turned (M.setting moves.old).game goal) bs.items 0 ((M.setting moves.old).game.region goal)) }
    ensures later { IfOk result (λ bs. AreLater (states + goals) bs.items) }
    ensures follows { (goal : ℕ) × Follows (at_goal goal (M.setting moves.old)) (M.setting moves.new) }
{
    let tests = states + goals;
    let mut drafts = Vec::new(alloc);
    let mut root = first_root(alloc, moves, &mut drafts, tests)?;
    for goal in 1..goals {
        let test = states + goal;
        let next = next_root(alloc, moves, &mut drafts, goal, root, test, tests)?;
        root = next;
    }
    let blocks = finish(alloc, drafts.as_slice(), root)?;
    Ok(blocks)
}

// The root of the first goal.
fn first_root<M: Moves>(
    alloc: Global,
    moves: &mut M,
    drafts: &mut Vec<Draft>,
    tests: u32,
) -> Result<u32, AllocError>
    requires some { 0 < (M.setting moves.old).game.goals }
    requires tests { IsCount (M.setting moves.old).game tests }
    requires none { drafts.old.items ≡ [] }
    ensures roots { IfOk result (λ at. HasRoots (M.setting moves.old).game drafts.new.items at 1) }
    ensures follows { Follows (at_goal 0 (M.setting moves.old)) (M.setting moves.new) }
{
    let at = own_root(alloc, moves, drafts, 0, tests)?;
    Ok(at)
}

// A test on the pending goal above the root of one more goal and that of the goals before, where these are two.
fn next_root<M: Moves>(
    alloc: Global,
    moves: &mut M,
    drafts: &mut Vec<Draft>,
    goal: u32,
    root: u32,
    test: u32,
    tests: u32,
) -> Result<u32, AllocError>
    requires goal { goal < (M.setting moves.old).game.goals }
    requires test { test ≡ (M.setting moves.old).game.tests + goal }
    requires tests { IsCount (M.setting moves.old).game tests }
    requires roots { HasRoots (M.setting moves.old).game drafts.old.items root goal }
    ensures roots { IfOk result (λ at. HasRoots (M.setting moves.old).game drafts.new.items at (goal + 1)) }
    ensures follows { Follows (at_goal goal (M.setting moves.old)) (M.setting moves.new) }
{
    let own = own_root(alloc, moves, drafts, goal, tests)?;
    if own == root {
        return Ok(root);
    }
    let at = join(moves, drafts, test, own, root)?;
    Ok(at)
}

// The root of one goal, over drafts whose sets are made anew for it.
fn own_root<M: Moves>(
    alloc: Global,
    moves: &mut M,
    drafts: &mut Vec<Draft>,
    goal: u32,
    tests: u32,
) -> Result<u32, AllocError>
    requires goal { goal < (M.setting moves.old).game.goals }
    requires tests { IsCount (M.setting moves.old).game tests }
    requires earlier { AreEarlier (all_tests (M.setting moves.old).game) drafts.old.items }
    ensures makes { IfOk result (λ at. Makes (turned (M.setting moves.old).game goal) (M.setting moves.new).ids
        drafts.old.items drafts.new.items at ((M.setting moves.old).game.region goal)) }
    ensures follows { Follows (at_goal goal (M.setting moves.old)) (M.setting moves.new) }
{
    moves.turn_to(goal);
    let renewed = renew(alloc, moves, drafts.as_slice())?;
    *drafts = renewed;
    let at = root_of(moves, drafts, tests)?;
    Ok(at)
}

// A root for the pending goal.
fn root_of<M: Moves>(moves: &mut M, drafts: &mut Vec<Draft>, tests: u32) -> Result<u32, AllocError>
    requires tests { IsCount (M.setting moves.old).game tests }
    requires drafts { AreDrafts (M.setting moves.old).game (M.setting moves.old).ids drafts.old.items }
    ensures makes { IfOk result (λ at. Makes (M.setting moves.old).game (M.setting moves.new).ids drafts.old.items
        drafts.new.items at (region_now (M.setting moves.old).game)) }
    ensures follows { Follows (M.setting moves.old) (M.setting moves.new) }
{
    let care = moves.region();
    let nothing = moves.nothing();
    if same(care, nothing) {
        let idle = plain(moves, drafts, MoveChoice::Candidate(0))?;
        return Ok(idle);
    }
    let at = build(moves, drafts, care, tests)?;
    Ok(at)
}

// The drafts with the sets of the pending goal.
fn renew<M: Moves>(alloc: Global, moves: &mut M, drafts: &[Draft]) -> Result<Vec<Draft>, AllocError>
    requires earlier { AreEarlier (all_tests (M.setting moves.old).game) drafts.now }
    ensures drafts { IfOk result (λ ds. AreDrafts (M.setting moves.old).game (M.setting moves.new).ids ds.items) }
    ensures stay { IfOk result (λ ds. Stay (blocks_of drafts.now) (blocks_of ds.items)) }
    ensures follows { Follows (M.setting moves.old) (M.setting moves.new) }
{
    let mut renewed = Vec::new(alloc);
    for at in 0..drafts.len() {
        let block = block_at(drafts, at);
        again(moves, &mut renewed, block)?;
    }
    Ok(renewed)
}

// A block with its set for the pending goal, behind others.
fn again<M: Moves>(
    moves: &mut M,
    drafts: &mut Vec<Draft>,
    block: DraftBlock,
) -> Result<u32, AllocError>
    requires drafts { AreDrafts (M.setting moves.old).game (M.setting moves.old).ids drafts.old.items }
    requires fits { FitsEarlier (all_tests (M.setting moves.old).game) (length drafts.old.items) block }
    ensures drafts { IfOk result (λ at. AreDrafts (M.setting moves.old).game (M.setting moves.new).ids
        drafts.new.items) }
    ensures blocks { IfOk result (λ at. blocks_of drafts.new.items ≡ blocks_of drafts.old.items ++ block ∷ []) }
    ensures follows { Follows (M.setting moves.old) (M.setting moves.new) }
{
    match block {
        DraftBlock::Test(test, first, second) => {
            let at = join(moves, drafts, test, first, second)?;
            Ok(at)
        }
        DraftBlock::Move(choice) => {
            let at = plain(moves, drafts, choice)?;
            Ok(at)
        }
    }
}

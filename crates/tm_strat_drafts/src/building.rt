//! Drafts, from the leaves upwards.
ghost use Rattle.std.specs.Prelude.{◌≡◌, ◌<◌, ◌++◌, ◌∷◌, [], ◌≤◌, true, IfOk, Some, length, slice_get};
ghost use Rattle.tm_solve.specs.Sets.{StateSet};
ghost use Rattle.tm_strat_drafts.specs.Begun.{Begins};
ghost use Rattle.tm_strat_drafts.specs.Drafts.{AreDrafts, blocks_of, drafted, FoundOrNot, IsMade, Makes, MakesOrNot};
ghost use Rattle.tm_strat_drafts.specs.Growth.{Follows};
ghost use Rattle.tm_strat_drafts.specs.Moves.{all_tests, good_now, IsCare, IsCount, passes};
ghost use Rattle.tm_strat_drafts.specs.Sets.{chosen};
ghost use Rattle.tm_strat_drafts.specs.Splits.{AreUniform};
ghost use Rattle.tm_strat_drafts.specs.declared.drafts.Draft.{Draft as DraftData};
ghost use Rattle.tm_strat_drafts.specs.declared.drafts.DraftBlock.TheVariants as blocks;

use crate::drafts::{Draft, DraftBlock, MoveChoice};
use crate::moves::Moves;
use crate::splitting::{Split, find_split, lies_in};
use std::alloc::AllocError;
use tm_dd::NodeId;

/// No driver has so many blocks.
const MOST: usize = 4294967295;

// A draft that ends well at each state of a set, or a split of the set.
#[derive(Drop)]
pub(crate) enum Begun {
    Made(u32),
    Parts(Split),
}

// A draft that ends well at each state of a set. Each test that is made splits the set, so no path has a test twice;
// where the draft of one side serves the other one, too, none is made.
pub(crate) fn build<M: Moves>(
    moves: &mut M,
    drafts: &mut Vec<Draft>,
    care: NodeId,
    tests: u32,
) -> Result<u32, AllocError>
    requires care { IsCare (M.setting moves.old).game (M.setting moves.old).ids care }
    requires tests { IsCount (M.setting moves.old).game tests }
    requires drafts { AreDrafts (M.setting moves.old).game (M.setting moves.old).ids drafts.old.items }
    ensures makes { IfOk result (λ at. Makes (M.setting moves.old).game (M.setting moves.new).ids drafts.old.items
        drafts.new.items at ((M.setting moves.old).ids.means care)) }
    ensures follows { Follows (M.setting moves.old) (M.setting moves.new) }
{
    let begun = begin(moves, drafts, care, tests)?;
    match begun {
        Begun::Made(at) => Ok(at),
        Begun::Parts(parts) => {
            let first = build(moves, drafts, parts.first, tests)?;
            if serves(moves, drafts.as_slice(), first, care)? {
                return Ok(first);
            }
            let second = build(moves, drafts, parts.second, tests)?;
            let at = join(moves, drafts, parts.test, first, second)?;
            Ok(at)
        }
    }
}

// A draft for a set where one is at hand, and else a split.
fn begin<M: Moves>(
    moves: &mut M,
    drafts: &mut Vec<Draft>,
    care: NodeId,
    tests: u32,
) -> Result<Begun, AllocError>
    requires care { IsCare (M.setting moves.old).game (M.setting moves.old).ids care }
    requires tests { IsCount (M.setting moves.old).game tests }
    requires drafts { AreDrafts (M.setting moves.old).game (M.setting moves.old).ids drafts.old.items }
    ensures begins { IfOk result (Begins (M.setting moves.old).game (M.setting moves.new).ids drafts.old.items
        drafts.new.items ((M.setting moves.old).ids.means care)) }
    ensures follows { Follows (M.setting moves.old) (M.setting moves.new) }
{
    let found = find(moves, drafts, care)?;
    match found {
        Some(at) => Ok(Begun::Made(at)),
        None => divide(moves, drafts, care, tests),
    }
}

// A split of a set, or a draft for its one state.
fn divide<M: Moves>(
    moves: &mut M,
    drafts: &mut Vec<Draft>,
    care: NodeId,
    tests: u32,
) -> Result<Begun, AllocError>
    requires care { IsCare (M.setting moves.old).game (M.setting moves.old).ids care }
    requires tests { IsCount (M.setting moves.old).game tests }
    requires drafts { AreDrafts (M.setting moves.old).game (M.setting moves.old).ids drafts.old.items }
    ensures begins { IfOk result (Begins (M.setting moves.old).game (M.setting moves.new).ids drafts.old.items
        drafts.new.items ((M.setting moves.old).ids.means care)) }
    ensures follows { Follows (M.setting moves.old) (M.setting moves.new) }
{
    let found = find_split(moves, care, tests)?;
    match found {
        Some(parts) => Ok(Begun::Parts(parts)),
        None => {
            let at = leaf(moves, drafts, care)?;
            Ok(Begun::Made(at))
        }
    }
}

// A draft that is there, or a move that is good at all states of the set.
fn find<M: Moves>(
    moves: &mut M,
    drafts: &mut Vec<Draft>,
    care: NodeId,
) -> Result<Option<u32>, AllocError>
    requires known { (M.setting moves.old).ids.knows care }
    requires drafts { AreDrafts (M.setting moves.old).game (M.setting moves.old).ids drafts.old.items }
    ensures makes { IfOk result (MakesOrNot (M.setting moves.old).game (M.setting moves.new).ids drafts.old.items
        drafts.new.items ((M.setting moves.old).ids.means care)) }
    ensures follows { Follows (M.setting moves.old) (M.setting moves.new) }
{
    let found = known(moves, drafts.as_slice(), care)?;
    match found {
        Some(at) => Ok(Some(at)),
        None => likely(moves, drafts, care),
    }
}

// A draft that is there and ends well at each state of a set.
fn known<M: Moves>(moves: &mut M, drafts: &[Draft], care: NodeId) -> Result<Option<u32>, AllocError>
    requires known { (M.setting moves.old).ids.knows care }
    requires drafts { AreDrafts (M.setting moves.old).game (M.setting moves.old).ids drafts.now }
    ensures found { IfOk result (FoundOrNot (M.setting moves.old).game drafts.now
        ((M.setting moves.old).ids.means care)) }
    ensures follows { Follows (M.setting moves.old) (M.setting moves.new) }
{
    for at in 0..drafts.len() {
        if serves(moves, drafts, at as u32, care)? {
            return Ok(Some(at as u32));
        }
    }
    Ok(None)
}

// Whether a draft is known to end well at each state of a set.
fn serves<M: Moves>(
    moves: &mut M,
    drafts: &[Draft],
    at: u32,
    care: NodeId,
) -> Result<bool, AllocError>
    requires known { (M.setting moves.old).ids.knows care }
    requires at { at < length drafts.now }
    requires drafts { AreDrafts (M.setting moves.old).game (M.setting moves.old).ids drafts.now }
    ensures made { IfOk result (λ r. r ≡ true → IsMade (M.setting moves.old).game drafts.now at
        ((M.setting moves.old).ids.means care)) }
    ensures follows { Follows (M.setting moves.old) (M.setting moves.new) }
{
    let good = good_of(drafts, at);
    let within = lies_in(moves, care, good)?;
    Ok(within)
}

// A move that is good at all states of a set, where the one that is tried is.
fn likely<M: Moves>(
    moves: &mut M,
    drafts: &mut Vec<Draft>,
    care: NodeId,
) -> Result<Option<u32>, AllocError>
    requires known { (M.setting moves.old).ids.knows care }
    requires drafts { AreDrafts (M.setting moves.old).game (M.setting moves.old).ids drafts.old.items }
    ensures makes { IfOk result (MakesOrNot (M.setting moves.old).game (M.setting moves.new).ids drafts.old.items
        drafts.new.items ((M.setting moves.old).ids.means care)) }
    ensures follows { Follows (M.setting moves.old) (M.setting moves.new) }
{
    let choice = moves.likely_move(care)?;
    let good = moves.good(choice)?;
    if lies_in(moves, care, good)? {
        let at = put(drafts, DraftBlock::Move(choice), good)?;
        return Ok(Some(at));
    }
    Ok(None)
}

// A move that is good at the one state of a set.
fn leaf<M: Moves>(moves: &mut M, drafts: &mut Vec<Draft>, care: NodeId) -> Result<u32, AllocError>
    requires care { IsCare (M.setting moves.old).game (M.setting moves.old).ids care }
    requires uniform { AreUniform (M.setting moves.old).game ((M.setting moves.old).ids.means care)
        (all_tests (M.setting moves.old).game) }
    requires drafts { AreDrafts (M.setting moves.old).game (M.setting moves.old).ids drafts.old.items }
    ensures makes { IfOk result (λ at. Makes (M.setting moves.old).game (M.setting moves.new).ids drafts.old.items
        drafts.new.items at ((M.setting moves.old).ids.means care)) }
    ensures follows { Follows (M.setting moves.old) (M.setting moves.new) }
{
    let choice = moves.some_move(care)?;
    let at = plain(moves, drafts, choice)?;
    Ok(at)
}

// A draft of a move.
pub(crate) fn plain<M: Moves>(
    moves: &mut M,
    drafts: &mut Vec<Draft>,
    choice: MoveChoice,
) -> Result<u32, AllocError>
    requires drafts { AreDrafts (M.setting moves.old).game (M.setting moves.old).ids drafts.old.items }
    ensures makes { IfOk result (λ at. Makes (M.setting moves.old).game (M.setting moves.new).ids drafts.old.items
        drafts.new.items at (good_now (M.setting moves.old).game choice)) }
    ensures blocks { IfOk result (λ at.
        blocks_of drafts.new.items ≡ blocks_of drafts.old.items ++ blocks.Move choice ∷ []) }
    ensures follows { Follows (M.setting moves.old) (M.setting moves.new) }
{
    let good = moves.good(choice)?;
    let at = put(drafts, DraftBlock::Move(choice), good)?;
    Ok(at)
}

// A test of which each side leads on to a draft.
pub(crate) fn join<M: Moves>(
    moves: &mut M,
    drafts: &mut Vec<Draft>,
    test: u32,
    first: u32,
    second: u32,
) -> Result<u32, AllocError>
    requires test { test < all_tests (M.setting moves.old).game }
    requires first { first < length drafts.old.items }
    requires second { second < length drafts.old.items }
    requires drafts { AreDrafts (M.setting moves.old).game (M.setting moves.old).ids drafts.old.items }
    ensures makes { IfOk result (λ at. (a b : StateSet)
        → IsMade (M.setting moves.old).game drafts.old.items first a
        → IsMade (M.setting moves.old).game drafts.old.items second b
        → Makes (M.setting moves.old).game (M.setting moves.new).ids drafts.old.items drafts.new.items at
        (chosen (passes (M.setting moves.old).game test) a b)) }
    ensures at { IfOk result (λ at. at ≡ length drafts.old.items) }
    ensures blocks { IfOk result (λ at.
        blocks_of drafts.new.items ≡ blocks_of drafts.old.items ++ blocks.Test test first second ∷ []) }
    ensures follows { Follows (M.setting moves.old) (M.setting moves.new) }
{
    let holds = moves.test(test)?;
    let one = good_of(drafts.as_slice(), first);
    let other = good_of(drafts.as_slice(), second);
    let good = moves.choose(holds, one, other)?;
    let at = put(drafts, DraftBlock::Test(test, first, second), good)?;
    Ok(at)
}

// Puts a draft behind the others, and answers its number.
fn put(drafts: &mut Vec<Draft>, block: DraftBlock, good: NodeId) -> Result<u32, AllocError>
    ensures at { IfOk result (λ at. at ≡ length drafts.old.items) }
    ensures few { IfOk result (λ at. length drafts.new.items ≤ 4294967295) }
    ensures items { IfOk result (λ at. drafts.new.items ≡ drafts.old.items ++ drafted block good ∷ []) }
{
    let count = drafts.len();
    if count >= MOST {
        return Err(AllocError);
    }
    drafts.push(Draft { block, good })?;
    Ok(count as u32)
}

// The set of a draft.
fn good_of(drafts: &[Draft], at: u32) -> NodeId
    requires { at < length drafts.now }
    ensures { (d : DraftData) → slice_get drafts.now at ≡ Some d → d.good ≡ result }
{
    drafts[at as usize].good
}

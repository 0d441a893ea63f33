//! Drafted blocks as blocks of C.
ghost use Rattle.std.specs.Option.{option_map_or};
ghost use Rattle.std.specs.Prelude.{◌≡◌, ◌<◌, ℕ, IfOk, Some, length, map, slice_get};
ghost use Rattle.tm_cir.specs.Fit.{FitBlocks, FitsBlock, FitsTruth};
ghost use Rattle.tm_cir.specs.Tree.{idle};
ghost use Rattle.tm_cir.specs.View.{block_tree, block_trees, trees_of, truth_tree};
ghost use Rattle.tm_strat.specs.Fitting.{AreSpelled, FitsCounts, IsSpelled};
ghost use Rattle.tm_strat.specs.Spelled.{choice_tree, constants_from, draft_tree, test_tree, widths_in};
ghost use Rattle.tm_strat.specs.Trees.{candidate_tree, move_tree, shape_in};
ghost use Rattle.tm_syntax.specs.Design.View.{design_tree};

use crate::arguments::constants;
use crate::candidates::{Candidate, move_block, shape_at};
use crate::numbers::{Counts, narrow};
use crate::predicates::{Predicate, pending};
use std::alloc::{AllocError, Global};
use tm_cir::{Block, Blocks, Truth};
use tm_game::MoveShape;
use tm_strat_drafts::{DraftBlock, MoveChoice};
use tm_syntax::design::Design;

/// What the numbers in drafted blocks stand for: tests of states, shapes of moves, the widths of each task's
/// parameters, and candidates.
#[derive(Drop)]
pub(crate) struct Spelling {
    pub(crate) counts: Counts,
    pub(crate) predicates: Vec<Predicate>,
    pub(crate) shapes: Vec<MoveShape>,
    pub(crate) widths: Vec<Vec<u8>>,
    pub(crate) candidates: Vec<Candidate>,
}

/// The blocks of C, one for each drafted one.
pub(crate) fn spelled(
    alloc: Global,
    design: &Design,
    spelling: &Spelling,
    drafted: &[DraftBlock],
) -> Result<Vec<Block>, AllocError>
    requires { FitsCounts (design_tree design.now) spelling.now.counts }
    ensures fits { IfOk result (λ bs. AreSpelled (design_tree design.now) drafted.now bs.items
        (length drafted.now)) }
    ensures trees { IfOk result (λ bs. block_trees bs.items
        ≡ map (draft_tree (design_tree design.now) spelling.now) drafted.now) }
{
    let mut blocks = Vec::new(alloc);
    for index in 0..drafted.len() {
        let block = block_in(drafted, index);
        let spelled = spelled_block(alloc, design, spelling, block)?;
        blocks.push(spelled)?;
    }
    Ok(blocks)
}

// The drafted block of a number.
fn block_in(drafted: &[DraftBlock], index: usize) -> DraftBlock
    requires { index < length drafted.now }
    ensures { slice_get drafted.now index ≡ Some result }
{
    drafted[index]
}

// A block of C.
#[tactic(auto, using(crate::proofs::Fitted::test_fits))]
fn spelled_block(
    alloc: Global,
    design: &Design,
    spelling: &Spelling,
    block: DraftBlock,
) -> Result<Block, AllocError>
    requires { FitsCounts (design_tree design.now) spelling.now.counts }
    ensures fits { IfOk result (IsSpelled (design_tree design.now) block) }
    ensures tree { IfOk result (λ b. block_tree b ≡ draft_tree (design_tree design.now) spelling.now block) }
{
    match block {
        DraftBlock::Test(test, first, second) => {
            let truth = spelled_test(alloc, spelling, test)?;
            Ok(Block::Test(truth, first, second))
        }
        DraftBlock::Move(choice) => {
            let made = spelled_move(alloc, design, spelling, choice)?;
            Ok(made)
        }
    }
}

// The block of a move, wherever it stands.
fn spelled_move(
    alloc: Global,
    design: &Design,
    spelling: &Spelling,
    choice: MoveChoice,
) -> Result<Block, AllocError>
    requires { FitsCounts (design_tree design.now) spelling.now.counts }
    ensures fits { IfOk result (λ b. (count at : ℕ) → FitsBlock (design_tree design.now) count at (block_tree b)) }
    ensures tree { IfOk result (λ b. block_tree b ≡ choice_tree (design_tree design.now) spelling.now choice) }
{
    match choice {
        MoveChoice::Candidate(number) => candidate_block(alloc, design, spelling, number),
        MoveChoice::Constant(shape, bits) => constant_block(alloc, design, spelling, shape, bits),
    }
}

/// Blocks that fit the design.
#[tactic(auto, using(crate::proofs::Fitted::same_made, crate::proofs::Fitted::never_none))]
pub(crate) fn fitting(design: &Design, list: Vec<Block>) -> Blocks
    requires { FitBlocks (design_tree design.now) (block_trees list.items) }
    ensures fits { FitBlocks (design_tree design.now) (trees_of result) }
    ensures same { trees_of result ≡ block_trees list.items }
{
    match Blocks::new(design, list) {
        Some(blocks) => blocks,
        None => unreachable!(),
    }
}

// The test of a number; behind those of states come those whether a goal is pending.
fn spelled_test(alloc: Global, spelling: &Spelling, test: u32) -> Result<Truth, AllocError>
    ensures fits { IfOk result (λ t. FitsTruth spelling.now.counts.vars spelling.now.counts.processes (truth_tree t)) }
    ensures tree { IfOk result (λ t. truth_tree t ≡ test_tree spelling.now test) }
{
    let index = test as usize;
    let count = spelling.predicates.len();
    if index < count {
        return spelling.predicates[index].truth(alloc, spelling.counts);
    }
    Ok(pending(narrow(index - count)))
}

// The block of the candidate of a number, which is to idle where there is none.
fn candidate_block(
    alloc: Global,
    design: &Design,
    spelling: &Spelling,
    number: u32,
) -> Result<Block, AllocError>
    requires { FitsCounts (design_tree design.now) spelling.now.counts }
    ensures fits { IfOk result (λ b. (count at : ℕ) → FitsBlock (design_tree design.now) count at (block_tree b)) }
    ensures tree { IfOk result (λ b. block_tree b ≡ option_map_or
        (candidate_tree (design_tree design.now) spelling.now.counts spelling.now.shapes.items)
        (slice_get spelling.now.candidates.items number) idle) }
{
    match spelling.candidates.get(number as usize) {
        Some(candidate) => {
            let shape = shape_at(&spelling.shapes, candidate.shape);
            move_block(alloc, design, spelling.counts, shape, &candidate.arguments)
        }
        None => Ok(Block::Idle),
    }
}

// The block of a move of a shape whose arguments are constants.
fn constant_block(
    alloc: Global,
    design: &Design,
    spelling: &Spelling,
    shape: u32,
    bits: u64,
) -> Result<Block, AllocError>
    requires { FitsCounts (design_tree design.now) spelling.now.counts }
    ensures fits { IfOk result (λ b. (count at : ℕ) → FitsBlock (design_tree design.now) count at (block_tree b)) }
    ensures tree { IfOk result (λ b. block_tree b ≡ move_tree (design_tree design.now) spelling.now.counts
        (shape_in spelling.now.shapes.items shape)
        (constants_from bits 0 (widths_in spelling.now (shape_in spelling.now.shapes.items shape)))) }
{
    let shape = shape_at(&spelling.shapes, shape);
    let arguments = constants(alloc, widths_of(spelling, shape), bits)?;
    move_block(alloc, design, spelling.counts, shape, &arguments)
}

// The widths of the parameters of the task that a shape calls.
fn widths_of(spelling: &Spelling, shape: MoveShape) -> &[u8]
    ensures { result.now ≡ widths_in spelling.now shape }
{
    match shape {
        MoveShape::Idle => &[],
        MoveShape::Leave(_) => &[],
        MoveShape::Call(task) => match spelling.widths.get(task as usize) {
            Some(widths) => widths.as_slice(),
            None => &[],
        },
    }
}

//! Moves that blocks may make.
ghost use Rattle.std.specs.Prelude.{◌≡◌, ◌<◌, ◌≤◌, ℕ, true, All, IfOk, Some, if◌then◌else◌, length, map};
ghost use Rattle.std.specs.Prelude.{nat_lt, slice_get};
ghost use Rattle.tm_cir.specs.Fit.{FitsBlock, FitsNum, parameter_count};
ghost use Rattle.tm_cir.specs.Tree.{call, idle, leave};
ghost use Rattle.tm_cir.specs.View.{block_tree, num_tree};
ghost use Rattle.tm_strat.specs.Fitting.{FitsCounts};
ghost use Rattle.tm_strat.specs.Trees.{expression_tree, move_tree, shape_in, takes};
ghost use Rattle.tm_syntax.specs.Design.View.{design_tree};
ghost use Rattle.tm_syntax.specs.Faults.Limits.{limit_of};
ghost use Rattle.tm_syntax.specs.declared.fault.Quantity.TheVariants as quantity;

use crate::expressions::Expression;
use crate::numbers::Counts;
use std::alloc::{AllocError, Global};
use tm_cir::block::MOST_ARGUMENTS;
use tm_cir::{Block, Num64, parameter_count};
use tm_game::MoveShape;
use tm_syntax::design::Design;

/// A move that blocks may make: a shape, by number, and the arguments of a call.
#[derive(Drop)]
pub(crate) struct Candidate {
    pub(crate) shape: u32,
    pub(crate) arguments: Vec<Expression>,
}

/// The shape of a number, which is to idle where there is none.
pub(crate) fn shape_at(shapes: &[MoveShape], number: u32) -> MoveShape
    ensures { result ≡ shape_in shapes.now number }
{
    let index = number as usize;
    if index < shapes.len() {
        shapes[index]
    } else {
        MoveShape::Idle
    }
}

/// The block of a move of a shape with arguments, or to idle where the design has no such move.
pub(crate) fn move_block(
    alloc: Global,
    design: &Design,
    counts: Counts,
    shape: MoveShape,
    arguments: &[Expression],
) -> Result<Block, AllocError>
    requires { FitsCounts (design_tree design.now) counts }
    ensures fits { IfOk result (λ b. (count at : ℕ) → FitsBlock (design_tree design.now) count at (block_tree b)) }
    ensures tree { IfOk result (λ b. block_tree b ≡ move_tree (design_tree design.now) counts shape arguments.now) }
{
    match shape {
        MoveShape::Idle => Ok(Block::Idle),
        MoveShape::Leave(process) => Ok(leave_block(design, process)),
        MoveShape::Call(task) => {
            let nums = nums_of(alloc, counts, arguments)?;
            Ok(call_block(design, counts, task, nums))
        }
    }
}

// The block that leaves the magic block at which a process stands.
fn leave_block(design: &Design, process: u32) -> Block
    ensures fits { (count at : ℕ) → FitsBlock (design_tree design.now) count at (block_tree result) }
    ensures tree { block_tree result
        ≡ (if nat_lt process (length (design_tree design.now).processes) then leave process else idle) }
{
    if (process as usize) < design.processes.len() {
        Block::Leave(process)
    } else {
        Block::Idle
    }
}

// The block that calls a task.
#[tactic(auto, using(crate::proofs::Fitted::call_fits))]
fn call_block(design: &Design, counts: Counts, task: u32, nums: Vec<Num64>) -> Block
    requires counts { FitsCounts (design_tree design.now) counts }
    requires nums { All (FitsNum counts.vars counts.processes) (map num_tree nums.items) }
    ensures fits { (count at : ℕ) → FitsBlock (design_tree design.now) count at (block_tree result) }
    ensures tree { block_tree result ≡ (if takes (design_tree design.now) task (length nums.items)
        then call task (map num_tree nums.items) else idle) }
{
    if are_enough(design, task, nums.len()) {
        Block::Call(task, nums)
    } else {
        Block::Idle
    }
}

// Whether a task has so many parameters.
fn are_enough(design: &Design, task: u32, count: usize) -> bool
    ensures enough { result ≡ true → (parameter_count (design_tree design.now) task ≡ Some count)
        × (count ≤ limit_of quantity.Arguments) }
    ensures told { result ≡ takes (design_tree design.now) task count }
{
    match parameter_count(design, task) {
        Some(parameters) => parameters == count && count <= MOST_ARGUMENTS,
        None => false,
    }
}

// Arguments as expressions of C.
fn nums_of(
    alloc: Global,
    counts: Counts,
    arguments: &[Expression],
) -> Result<Vec<Num64>, AllocError>
    ensures fits { IfOk result (λ nums. All (FitsNum counts.vars counts.processes) (map num_tree nums.items)) }
    ensures trees { IfOk result (λ nums. map num_tree nums.items ≡ map (expression_tree counts) arguments.now) }
{
    let mut nums = Vec::new(alloc);
    for index in 0..arguments.len() {
        let argument = argument_in(arguments, index);
        let num = argument.num(alloc, counts)?;
        nums.push(num)?;
    }
    Ok(nums)
}

// The argument of a number.
fn argument_in(arguments: &[Expression], index: usize) -> Expression
    requires { index < length arguments.now }
    ensures { slice_get arguments.now index ≡ Some result }
{
    arguments[index]
}

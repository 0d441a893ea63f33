//! The shape of blocks.
ghost use Rattle.std.specs.Prelude.{◌≡◌, ◌<◌, ◌≤◌, ◌↔◌, ℕ, List, Some, length, slice_get, IfOk};
ghost use Rattle.tm_syntax.specs.Design.View.{design_tree};
ghost use Rattle.tm_sem.specs.State.{StateData};
ghost use Rattle.tm_sem.specs.declared.state.Move.{Move};
ghost use Rattle.tm_cir.specs.View.{truth_tree, block_trees, trees_of};
ghost use Rattle.tm_cir.specs.Fit.{FitBlocks};
ghost use Rattle.tm_cir.specs.Answer.{Answers};
ghost use Rattle.tm_struct.specs.Tree.{choose};
ghost use Rattle.tm_struct.specs.View.{action_tree, action_trees, program_tree};
ghost use Rattle.tm_struct.specs.Fit.{FitsProgram};
ghost use Rattle.tm_struct.specs.Answer.{AnswersSo};
ghost use Rattle.tm_struct.specs.Shape.{IsWritten, IsNamed, IsShape, move_count, HasMoves};
ghost use Rattle.tm_struct.specs.Inner.Reaching.{LeadOn};
ghost use Rattle.tm_struct.specs.Inner.Naming.{AreNumbers, AreFunctions};

use crate::copying::{copied_nums, copied_truth};
use crate::naming::{Naming, named};
use crate::program::{Structured, Tree};
use crate::reaching::reaches;
use std::alloc::{AllocError, Global};
use tm_cir::{Block, Blocks, Truth};
use tm_syntax::design::Design;

/// The structured driver that is the shape of blocks which were made for this design: each block that is reached from
/// the first one is written once, but an idle one at each branch that leads to it. A block that is not idle becomes a
/// function where two or more branches lead to it, and so does a test that would stand inside 128 open `if`; functions
/// are numbered from the last block to the first.
///
/// It is well made over the design and answers as the blocks do. Linear in the blocks; it goes down by recursion as
/// deep as `if` are open, 128 at most, and as parentheses nest.
pub fn structure(alloc: Global, design: &Design, blocks: &Blocks) -> Result<Structured, AllocError>
    requires { FitBlocks (design_tree design.now) (trees_of blocks.now) }
    ensures shape { IfOk result (λ program. IsShape (trees_of blocks.now) (program_tree program)) }
    ensures fits { IfOk result (λ program. FitsProgram (design_tree design.now) (program_tree program)) }
    ensures count { IfOk result (λ program. HasMoves (trees_of blocks.now) (move_count (program_tree program))) }
    ensures same { IfOk result (λ program. (s : StateData) (goal : ℕ) (m : Move) →
        AnswersSo (program_tree program) s goal m ↔ Answers (trees_of blocks.now) s goal m) }
{
    let blocks = blocks.blocks();
    let reaches = reaches(alloc, blocks)?;
    let naming = named(alloc, blocks, &reaches)?;
    let functions = functions(alloc, blocks, &naming)?;
    let main = tree(alloc, blocks, &naming.numbers, 0)?;
    Ok(Structured { functions, main })
}

/// What each function does.
fn functions(alloc: Global, blocks: &[Block], naming: &Naming) -> Result<Vec<Tree>, AllocError>
    requires leads { LeadOn (block_trees blocks.now) }
    requires long { length naming.now.numbers.items ≡ length blocks.now }
    requires numbers { AreNumbers naming.now.order.items naming.now.numbers.items }
    requires within { (k at : ℕ) → slice_get naming.now.order.items k ≡ Some at → at < length blocks.now }
    ensures { IfOk result (λ functions.
        AreFunctions (block_trees blocks.now) naming.now.order.items (action_trees functions.items)) }
{
    let mut functions = Vec::new(alloc);
    for at in &naming.order {
        functions.push(tree(alloc, blocks, &naming.numbers, *at)?)?;
    }
    Ok(functions)
}

/// A block, written in place.
#[cycle(writing)]
fn tree(
    alloc: Global,
    blocks: &[Block],
    numbers: &[Option<u32>],
    at: usize,
) -> Result<Tree, AllocError>
    requires leads { LeadOn (block_trees blocks.now) }
    requires long { length numbers.now ≡ length blocks.now }
    requires within { at < length blocks.now }
    ensures { IfOk result (λ tree. (order : List ℕ) → AreNumbers order numbers.now
        → IsWritten (block_trees blocks.now) order at (action_tree tree)) }
{
    match &blocks[at] {
        Block::Test(truth, first, second) => {
            let truth = given!(copied_truth(alloc, truth));
            let first = given!(branch(alloc, blocks, numbers, *first as usize), truth);
            let second = branch(alloc, blocks, numbers, *second as usize);
            let second = given!(second, first, truth);
            test(alloc, truth, first, second)
        }
        Block::Call(task, args) => Ok(Tree::Call(*task, copied_nums(alloc, args)?)),
        Block::Leave(process) => Ok(Tree::Leave(*process)),
        Block::Idle => Ok(Tree::Idle),
    }
}

/// What a branch to a block is written as: its function by name, or the block in place.
#[cycle(writing)]
fn branch(
    alloc: Global,
    blocks: &[Block],
    numbers: &[Option<u32>],
    at: usize,
) -> Result<Tree, AllocError>
    requires leads { LeadOn (block_trees blocks.now) }
    requires long { length numbers.now ≡ length blocks.now }
    requires within { at < length blocks.now }
    ensures { IfOk result (λ tree. (order : List ℕ) → AreNumbers order numbers.now
        → IsNamed (block_trees blocks.now) order at (action_tree tree)) }
{
    match numbers[at] {
        Some(number) => Ok(Tree::Go(number)),
        None => tree(alloc, blocks, numbers, at),
    }
}

fn test(alloc: Global, truth: Truth, first: Tree, second: Tree) -> Result<Tree, AllocError>
    ensures { IfOk result (λ tree.
        action_tree tree ≡ choose (truth_tree truth) (action_tree first) (action_tree second)) }
{
    let first = boxed!(alloc, first, second, truth);
    let second = boxed!(alloc, second, first, truth);
    Ok(Tree::If(truth, first, second))
}

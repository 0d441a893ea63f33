//! The blocks of a structured driver.
//!
//! They are laid from the last one to the first, so that each function has its block before anything names it, and
//! turned over at the end.
ghost use Rattle.std.specs.Prelude.{◌≡◌, ◌<◌, ◌↔◌, [], ℕ, Some, length, slice_get, All, IfOk};
ghost use Rattle.tm_syntax.specs.Design.View.{design_tree};
ghost use Rattle.tm_sem.specs.State.{StateData};
ghost use Rattle.tm_sem.specs.declared.state.Move.{Move};
ghost use Rattle.tm_cir.specs.View.{block_tree, block_trees, trees_of};
ghost use Rattle.tm_cir.specs.Fit.{FitBlocks};
ghost use Rattle.tm_cir.specs.Answer.{Answers};
ghost use Rattle.tm_struct.specs.Tree.{ActionTree};
ghost use Rattle.tm_struct.specs.View.{action_tree, action_trees, program_tree};
ghost use Rattle.tm_struct.specs.Fit.{FitsProgram};
ghost use Rattle.tm_struct.specs.Answer.{AnswersSo};
ghost use Rattle.tm_struct.specs.Inner.Laying.{NamesBelow, IsPut, LeadBack, LeadsUpTo, IsLaid, AreLaid, turned, turned_over};

use crate::copying::{copied_nums, copied_truth};
use crate::program::{Structured, Tree};
use std::alloc::{AllocError, Global};
use tm_cir::{Block, Blocks};
use tm_syntax::design::Design;

/// Blocks that answer as a structured driver does that is well made over this design.
///
/// Each test, call, leave and `return` of the driver becomes a block of its own; where `driver_turn` is but a call of a
/// function, those of later functions are left out. Blocks have numbers of 32 bits, so where these do not suffice,
/// memory is wanting. Linear in the driver; it goes down by recursion as deep as `if` are open, 128 at most, and as
/// parentheses nest.
pub fn blocks_of(alloc: Global, design: &Design, program: &Structured) -> Result<Blocks, AllocError>
    requires { FitsProgram (design_tree design.now) (program_tree program.now) }
    ensures fits { IfOk result (λ blocks. FitBlocks (design_tree design.now) (trees_of blocks)) }
    ensures same { IfOk result (λ blocks. (s : StateData) (goal : ℕ) (m : Move) →
        Answers (trees_of blocks) s goal m ↔ AnswersSo (program_tree program.now) s goal m) }
{
    let mut laid = Vec::new(alloc);
    let starts = lay_functions(alloc, &mut laid, &program.functions)?;
    let first = lay(alloc, &starts, &mut laid, &program.main)?;
    let blocks = turned_over(alloc, laid, first)?;
    match Blocks::new(design, blocks) {
        Some(blocks) => Ok(blocks),
        None => unreachable!(),
    }
}

/// Lays the functions, and tells the block with which each begins.
fn lay_functions(
    alloc: Global,
    laid: &mut Vec<Block>,
    functions: &[Tree],
) -> Result<Vec<u32>, AllocError>
    requires names { (k : ℕ) (a : ActionTree) → slice_get (action_trees functions.now) k ≡ Some a → NamesBelow k a }
    requires empty { laid.old.items ≡ [] }
    ensures { IfOk result (λ starts.
        AreLaid (block_trees laid.new.items) starts.items (action_trees functions.now)) }
{
    let mut starts = Vec::new(alloc);
    for function in functions {
        let start = lay(alloc, &starts, laid, function)?;
        starts.push(start)?;
    }
    Ok(starts)
}

/// Lays what a function does, where earlier ones begin with these blocks, and tells the block with which it begins.
fn lay(alloc: Global, starts: &[u32], laid: &mut Vec<Block>, tree: &Tree) -> Result<u32, AllocError>
    requires names { NamesBelow (length starts.now) (action_tree tree.now) }
    requires within { All (λ s. s < length (block_trees laid.old.items)) starts.now }
    ensures { IfOk result (λ start. IsLaid (block_trees laid.old.items) (block_trees laid.new.items) starts.now start
        (action_tree tree.now)) }
{
    match tree {
        Tree::If(truth, first, second) => {
            let second = lay(alloc, starts, laid, second)?;
            let first = lay(alloc, starts, laid, first)?;
            let truth = copied_truth(alloc, truth)?;
            put(laid, Block::Test(truth, first, second))
        }
        Tree::Call(task, args) => put(laid, Block::Call(*task, copied_nums(alloc, args)?)),
        Tree::Leave(process) => put(laid, Block::Leave(*process)),
        Tree::Go(number) => Ok(starts[*number as usize]),
        Tree::Idle => put(laid, Block::Idle),
    }
}

/// Lays a block behind the others, and tells its number.
fn put(laid: &mut Vec<Block>, block: Block) -> Result<u32, AllocError>
    ensures { IfOk result (λ number.
        IsPut (block_trees laid.old.items) (block_trees laid.new.items) number (block_tree block)) }
{
    match u32::try_from(laid.len()) {
        Ok(number) => {
            laid.push(block)?;
            Ok(number)
        }
        Err(_) => {
            drop(block);
            Err(AllocError)
        }
    }
}

/// The blocks up to the one that comes first, turned over.
fn turned_over(alloc: Global, laid: Vec<Block>, first: u32) -> Result<Vec<Block>, AllocError>
    requires { LeadBack (block_trees laid.items) }
    ensures { IfOk result (λ blocks. block_trees blocks.items ≡ turned_over first (block_trees laid.items)) }
{
    let mut laid = laid;
    laid.truncate(first as usize + 1);
    let mut blocks = Vec::new(alloc);
    while let Some(block) = laid.pop() {
        blocks.push(turned(block, first))?;
    }
    Ok(blocks)
}

/// A block with its targets numbered from the other end.
fn turned(block: Block, last: u32) -> Block
    requires { LeadsUpTo last (block_tree block) }
    ensures { block_tree result ≡ turned last (block_tree block) }
{
    match block {
        Block::Test(truth, first, second) => Block::Test(truth, last - first, last - second),
        block => block,
    }
}

//! Blocks that fit a design.
ghost use Rattle.std.specs.Prelude.{◌≡◌, ◌↔◌, IsSome, IfSome};
ghost use Rattle.tm_syntax.specs.Design.View.{design_tree};
ghost use Rattle.tm_cir.specs.View.{block_trees, trees_of};
ghost use Rattle.tm_cir.specs.Fit.{FitBlocks};

use crate::block::Block;
use crate::fit::are_fitting;
use tm_syntax::design::Design;

/// Blocks of some design: at least one, each target a later block, and each number one of the design.
#[derive(Drop)]
pub struct Blocks {
    list: Vec<Block>,
}

impl Blocks {
    /// These blocks, where they fit the design: there is at least one, each test leads to later blocks, each variable,
    /// process and task is one of the design, a call has as many arguments as its task has parameters and at most 64,
    /// and a shift is by less than 64. It takes no memory.
    ///
    /// It goes down the expressions by recursion, and so do `answer` and dropping the blocks. What makes blocks from
    /// input keeps their nesting to a limit of its own.
    pub fn new(design: &Design, blocks: Vec<Block>) -> Option<Blocks>
        ensures exact { IsSome result ↔ FitBlocks (design_tree design.now) (block_trees blocks.items) }
        ensures same { IfSome result (λ made. trees_of made ≡ block_trees blocks.items) }
    {
        if are_fitting(design, &blocks) {
            Some(Blocks { list: blocks })
        } else {
            None
        }
    }

    /// The blocks, in order.
    pub fn blocks(&self) -> &[Block]
        ensures { block_trees result.now ≡ trees_of self.now }
    {
        &self.list
    }
}

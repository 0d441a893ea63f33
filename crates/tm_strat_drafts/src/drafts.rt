//! Blocks whose tests and moves are numbers, and drafts of them.

use tm_dd::NodeId;

/// A move of the driver: one of some candidates, by number, or a move of a shape, by number, whose arguments are
/// constants: the bits of all arguments, the first one the most significant of 64.
#[derive(Clone, Copy, PartialEq, Eq, Debug, Drop)]
pub enum MoveChoice {
    Candidate(u32),
    Constant(u32, u64),
}

/// A test, by number, with the blocks to go on at where it holds and where it does not, or a move.
#[derive(Clone, Copy, Debug, Drop)]
pub enum DraftBlock {
    Test(u32, u32, u32),
    Move(MoveChoice),
}

// A block, and states from which it ends well.
#[derive(Clone, Copy, Drop)]
pub(crate) struct Draft {
    pub(crate) block: DraftBlock,
    pub(crate) good: NodeId,
}

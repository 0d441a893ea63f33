//! The driver's answer.
ghost use Rattle.std.specs.Prelude.{◌≡◌, ◌≤◌, length, map, All};
ghost use Rattle.tm_sem.specs.declared.state.Move.{Move};
ghost use Rattle.tm_cir.specs.View.{num_tree, trees_of};
ghost use Rattle.tm_cir.specs.Meaning.{num_value};
ghost use Rattle.tm_cir.specs.Fit.{FitsNum, AreOfOneDesign};
ghost use Rattle.tm_cir.specs.Answer.{Answers};

use crate::block::{Block, MOST_ARGUMENTS, Num64};
use crate::blocks::Blocks;
use crate::evaluation::{is_so, value};
use smallvec::SmallVec;
use std::alloc::Global;
use tm_sem::state::{Args, Move, State};

/// The driver's move at a state, where `goal` is the number of the pending goal: the tests are followed from the
/// first block to a call, a leave or nothing. It takes no memory.
pub fn answer(alloc: Global, blocks: &Blocks, state: &State, goal: u32) -> Move
    requires { AreOfOneDesign (trees_of blocks.now) state.now }
    ensures follows { Answers (trees_of blocks.now) state.now goal result }
    ensures only { (other : Move) → Answers (trees_of blocks.now) state.now goal other → other ≡ result }
{
    let list = blocks.blocks();
    let mut at = 0;
    loop {
        match &list[at] {
            Block::Test(truth, first, second) => {
                at = if is_so(truth, state, goal) {
                    *first as usize
                } else {
                    *second as usize
                };
            }
            Block::Call(task, args) => return Move::Call(
                *task,
                arguments(alloc, args, state, goal),
            ),
            Block::Leave(process) => return Move::Leave(*process),
            Block::Idle => return Move::Idle,
        }
    }
}

/// The values of a call's arguments.
pub fn arguments(alloc: Global, nums: &[Num64], state: &State, goal: u32) -> Args
    requires few { length nums.now ≤ MOST_ARGUMENTS }
    requires fits { All (λ n. FitsNum (length state.now.values) (length state.now.places) (num_tree n)) nums.now }
    ensures { result ≡ map (λ n. num_value state.now goal (num_tree n)) nums.now }
{
    let mut list = SmallVec::new(alloc);
    for num in nums {
        list.push_reserved(value(num, state, goal));
    }
    Args { list }
}

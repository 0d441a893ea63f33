//! The answer of a structured driver.
ghost use Rattle.std.specs.Prelude.{◌≡◌, ℕ};
ghost use Rattle.tm_sem.specs.declared.state.Move.{Move};
ghost use Rattle.tm_struct.specs.View.{action_tree, program_tree};
ghost use Rattle.tm_struct.specs.Fit.{AreOfOneDesign};
ghost use Rattle.tm_struct.specs.Answer.{AnswersSo};
ghost use Rattle.tm_struct.specs.Inner.Answering.{FitsAt, body_of, IsEndOf};

use crate::program::{Structured, Tree};
use std::alloc::Global;
use tm_cir::arguments;
use tm_cir::evaluation::is_so;
use tm_sem::state::{Move, State};

/// The driver's move at a state, where `goal` is the number of the pending goal: the tests are followed from
/// `driver_turn`, and through the functions that it names, to a call, a leave or nothing. It takes no memory.
pub fn answer_structured(alloc: Global, program: &Structured, state: &State, goal: u32) -> Move
    requires { AreOfOneDesign (program_tree program.now) state.now }
    ensures follows { AnswersSo (program_tree program.now) state.now goal result }
    ensures only { (other : Move) → AnswersSo (program_tree program.now) state.now goal other → other ≡ result }
{
    let mut at = program.functions.len();
    loop {
        match end_of(function(program, at), state, goal) {
            Tree::Call(task, args) => return Move::Call(*task, arguments(alloc, args, state, goal)),
            Tree::Leave(process) => return Move::Leave(*process),
            Tree::Go(number) => at = *number as usize,
            Tree::Idle => return Move::Idle,
            Tree::If(_, _, _) => unreachable!(),
        }
    }
}

/// What the function of this number does, and above all numbers, what `driver_turn` does.
fn function(program: &Structured, at: usize) -> &Tree
    ensures { action_tree result.now ≡ body_of (program_tree program.now) at }
{
    match program.functions.get(at) {
        Some(function) => function,
        None => &program.main,
    }
}

/// Where the tests of a function lead at a state.
fn end_of<'a>(tree: &'a Tree, state: &State, goal: u32) -> &'a Tree
    requires { (below : ℕ) × FitsAt state.now below (action_tree tree.now) }
    ensures { IsEndOf state.now goal (action_tree tree.now) (action_tree result.now) }
{
    let mut end = tree;
    while let Tree::If(truth, first, second) = end {
        end = if is_so(truth, state, goal) {
            first
        } else {
            second
        };
    }
    end
}

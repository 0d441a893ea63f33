//! Questions about sets of states, as a game answers them.
ghost use Rattle.std.specs.Prelude.{IsTrue};
ghost use Rattle.tm_game.specs.Game.{IsSet};
ghost use Rattle.tm_game.specs.Moves.{HasTask};

use super::moves::Asked;
use std::alloc::{AllocError, Global};
use tm_dd::{FALSE, NodeId};
use tm_game::{Game, MoveShape};

/// What is asked of a game, mostly about a set of states.
#[derive(Clone, Copy)]
pub enum Question {
    /// The valid states.
    Valid,
    /// Where the driver can be picked.
    Turn,
    /// Where the goal of a number holds.
    Goal(usize),
    /// The set itself.
    Set,
    /// From where no move of the environment errs or leaves the set.
    Calm,
    /// From where the driver stays in the set.
    Stay,
    /// From where the environment forces the set.
    Force,
    /// Where a move of a shape is allowed, and stays in the set. The other number is that of the move whose arguments
    /// are taken.
    Good(MoveShape, usize),
}

/// What is asked about each set, whatever the design.
const EACH: [Question; 6] = [
    Question::Valid,
    Question::Turn,
    Question::Set,
    Question::Calm,
    Question::Stay,
    Question::Force,
];

/// Asks where each move of the driver is good.
fn push_moves(questions: &mut Vec<Question>, moves: &[Asked]) -> Result<(), AllocError> {
    for (number, asked) in moves.iter().enumerate() {
        if let Some(shape) = asked.shape {
            questions.push(Question::Good(shape, number))?;
        }
    }
    Ok(())
}

/// What is asked about each set, where there are so many goals: what each design is asked, then the goals one by one,
/// and then the moves of the driver.
pub fn questions(
    alloc: Global,
    goals: usize,
    moves: &[Asked],
) -> Result<Vec<Question>, AllocError> {
    let mut questions = Vec::from_slice(alloc, &EACH)?;
    for goal in 0..goals {
        questions.push(Question::Goal(goal))?;
    }
    push_moves(&mut questions, moves)?;
    Ok(questions)
}

/// Whether the task of a shape is there.
fn has_task(game: &Game, shape: MoveShape) -> bool
    ensures { IsTrue result → HasTask game.now.flat shape }
{
    match shape {
        MoveShape::Idle | MoveShape::Leave(_) => true,
        MoveShape::Call(task) => (task as usize) < game.flat().tasks.len(),
    }
}

/// Where a move of a shape is good, and nowhere if its task is not there.
fn good(game: &mut Game, shape: MoveShape, set: NodeId) -> Result<NodeId, AllocError>
    requires { IsSet game.old set }
{
    if !has_task(game, shape) {
        return Ok(FALSE);
    }
    game.legal_move(shape, set)
}

/// The answer to a question about a set.
pub fn answer(game: &mut Game, question: Question, set: NodeId) -> Result<NodeId, AllocError>
    requires { IsSet game.old set }
{
    match question {
        Question::Valid => Ok(game.valid()),
        Question::Turn => Ok(game.turn()),
        Question::Goal(goal) => Ok(game.goals().get(goal).copied().unwrap_or(FALSE)),
        Question::Set => Ok(set),
        Question::Calm => game.calm(set),
        Question::Stay => game.cpre(set),
        Question::Force => game.epre(set),
        Question::Good(shape, _) => good(game, shape, set),
    }
}

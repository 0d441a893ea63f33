//! Where a driver's answer is good.
ghost use Rattle.std.specs.Prelude.{ℕ, All, IfOk, List};
ghost use Rattle.tm_check.specs.Good.{AreMovesFor, FitsReply, HasReplies, IsAnsweredWell, IsGoodReply};
ghost use Rattle.tm_check.specs.Replies.{AreReplies};
ghost use Rattle.tm_cir.specs.Fit.{FitBlocks};
ghost use Rattle.tm_cir.specs.Tree.{BlockTree};
ghost use Rattle.tm_game.specs.Game.{Grows, IsOf, IsSet, IsStates, in_set};
ghost use Rattle.tm_game.specs.Moves.{HasTask};
ghost use Rattle.tm_syntax.specs.Design.{DesignTree};

use crate::replies::{Replies, Reply};
use std::alloc::{AllocError, Global};
use tm_dd::NodeId;
use tm_game::{Game, MoveShape};

/// The valid states at which the answer of the blocks is allowed, for no choices errs, and ends in a set.
///
/// Each shape of a move is asked for once. The blocks are gone over once, from the last to the first, so those to which
/// many tests lead are looked at once. Every id of the game keeps its meaning, also where memory runs out.
pub fn good_answers(
    alloc: Global,
    game: &mut Game,
    replies: &Replies,
    set: NodeId,
) -> Result<NodeId, AllocError>
    requires set { IsSet game.old set }
    requires replies { HasReplies game.old replies.now }

    ensures grows { Grows game.old game.new }
    ensures states { IfOk result (λ id. (d : DesignTree) (goal : ℕ) (bs : List BlockTree) → IsOf d game.old
        → FitBlocks d bs → AreReplies d game.old goal bs replies.now
        → IsStates d game.old.order game.new.diagrams.table (IsAnsweredWell d bs goal (in_set d game.old set)) id) }
{
    let moves = good_moves(alloc, game, &replies.shapes, set)?;
    let count = replies.list.len();
    let mut from_last = Vec::new(alloc);
    for passed in 0..count {
        let reply = &replies.list[count - 1 - passed];
        let good = good_from(game, reply, &moves, &from_last, count)?;
        from_last.push(good)?;
    }
    Ok(from_last[count - 1])
}

// For each shape the states and arguments at which a move of it is good.
fn good_moves(
    alloc: Global,
    game: &mut Game,
    shapes: &[MoveShape],
    set: NodeId,
) -> Result<Vec<NodeId>, AllocError>
    requires of { (d : DesignTree) × IsOf d game.old }
    requires set { IsSet game.old set }
    requires tasks { All (HasTask game.old.flat) shapes.now }

    ensures grows { Grows game.old game.new }
    ensures moves { IfOk result (λ ids. (d : DesignTree) → IsOf d game.old
        → AreMovesFor d game.old.order game.new.diagrams.table (in_set d game.old set) shapes.now ids.items) }
{
    let mut moves = Vec::new(alloc);
    for shape in shapes {
        let good = game.legal_move(*shape, set)?;
        moves.push(good)?;
    }
    Ok(moves)
}

// Where a block ends well, if those behind it are known, from the last on.
fn good_from(
    game: &mut Game,
    reply: &Reply,
    moves: &[NodeId],
    from_last: &[NodeId],
    count: usize,
) -> Result<NodeId, AllocError>
    requires reply { FitsReply game.old.diagrams.table moves.now from_last.now count reply.now }
    ensures grows { Grows game.old game.new }
    ensures good { IfOk result (IsGoodReply game.old.diagrams.table game.new.diagrams.table moves.now from_last.now
        count reply.now) }
{
    match reply {
        Reply::Test {
            holds,
            first,
            second,
        } => {
            let one = from_last[count - 1 - *first as usize];
            let other = from_last[count - 1 - *second as usize];
            let good = game.ite(*holds, one, other)?;
            Ok(good)
        }
        Reply::Move {
            shape,
            fits,
            arguments,
        } => {
            let given = game.compose(moves[*shape], arguments)?;
            let good = game.and(given, *fits)?;
            Ok(good)
        }
    }
}

//! What a driver's blocks do while a goal is pending.
ghost use Rattle.std.specs.Prelude.{◌≡◌, ◌↔◌, IfOk, IsTrue, OnOk};
ghost use Rattle.tm_check.specs.Reads.{IsSized, Reads};
ghost use Rattle.tm_check.specs.Replies.{AreAdded, AreReplies, FitsGame, IsNumbered, IsReply};
ghost use Rattle.tm_game_bits.specs.AssignedStates.{state_of};
ghost use Rattle.tm_cir.specs.Fit.{FitBlocks, FitsTruth};
ghost use Rattle.tm_cir.specs.Meaning.{holds};
ghost use Rattle.tm_cir.specs.View.{block_tree, trees_of, truth_tree};
ghost use Rattle.tm_ddops.specs.Manager.{IsFunction};
ghost use Rattle.tm_game.specs.Game.{Grows, IsOf};
ghost use Rattle.tm_syntax.specs.Design.{DesignTree};
ghost use Rattle.tm_syntax.specs.Design.View.{design_tree};

use crate::calls::call;
use crate::terms::Reading;
use std::alloc::{AllocError, Global};
use tm_cir::{Block, Blocks, Truth};
use tm_dd::{NodeId, TRUE};
use tm_game::{Game, MoveShape};
use tm_syntax::design::Design;

/// What a block does: a test, with the blocks to go on at where it holds and where it does not, or a move of a shape,
/// which is one of a list; the shape's arguments fit into their bits where a function holds, and are functions in the
/// places of the levels of arguments.
#[derive(Drop)]
pub enum Reply {
    Test {
        holds: NodeId,
        first: u32,
        second: u32,
    },
    Move {
        shape: usize,
        fits: NodeId,
        arguments: Vec<(u32, NodeId)>,
    },
}

/// What the blocks of a driver do while a goal is pending, one for each, and the shapes of their moves, each once.
#[derive(Drop)]
pub struct Replies {
    pub list: Vec<Reply>,
    pub shapes: Vec<MoveShape>,
}

/// What the blocks do while a goal is pending. Tests and arguments are made once, whatever is asked of the answers.
///
/// `AllocError` is want of memory. Every id of the game keeps its meaning, also where memory runs out.
pub fn read_replies(
    alloc: Global,
    design: &Design,
    game: &mut Game,
    blocks: &Blocks,
    goal: u32,
) -> Result<Replies, AllocError>
    requires of { IsOf (design_tree design.now) game.old }
    requires sized { IsSized game.old }
    requires blocks { FitBlocks (design_tree design.now) (trees_of blocks.now) }

    ensures grows { Grows game.old game.new }
    ensures replies { IfOk result (AreReplies (design_tree design.now) game.new goal (trees_of blocks.now)) }
{
    let reading = Reading {
        vars: design.vars.len() as u32,
        processes: design.processes.len() as u32,
        goal,
    };
    let mut list = Vec::new(alloc);
    let mut shapes = Vec::new(alloc);
    for block in blocks.blocks() {
        let reply = read_reply(alloc, game, reading, block, &mut shapes)?;
        list.push(reply)?;
    }
    Ok(Replies { list, shapes })
}

// What a block does. A shape that the list does not have is put behind the others.
fn read_reply(
    alloc: Global,
    game: &mut Game,
    reading: Reading,
    block: &Block,
    shapes: &mut Vec<MoveShape>,
) -> Result<Reply, AllocError>
    requires reads { (d : DesignTree) × Reads d game.old reading }
    requires fits { FitsGame game.old.flat reading.vars reading.processes (block_tree block.now) }

    ensures grows { Grows game.old game.new }
    ensures shapes { OnOk result (AreAdded game.old.flat shapes.old.items shapes.new.items) }
    ensures reply { IfOk result (λ r. (d : DesignTree) → Reads d game.old reading
        → IsReply d game.old.order game.new.diagrams.table reading.goal shapes.new.items (block_tree block.now) r) }
{
    match block {
        Block::Test(truth, first, second) => {
            let holds = test(game, reading, truth)?;
            Ok(Reply::Test {
                holds,
                first: *first,
                second: *second,
            })
        }
        Block::Call(task, args) => {
            let shape = shape_number(shapes, MoveShape::Call(*task))?;
            let given = call(alloc, game, reading, *task, args)?;
            Ok(Reply::Move {
                shape,
                fits: given.fits,
                arguments: given.parts,
            })
        }
        Block::Leave(process) => {
            let shape = shape_number(shapes, MoveShape::Leave(*process))?;
            Ok(Reply::Move {
                shape,
                fits: TRUE,
                arguments: Vec::new(alloc),
            })
        }
        Block::Idle => {
            let shape = shape_number(shapes, MoveShape::Idle)?;
            Ok(Reply::Move {
                shape,
                fits: TRUE,
                arguments: Vec::new(alloc),
            })
        }
    }
}

// Where a test holds.
fn test(game: &mut Game, reading: Reading, truth: &Truth) -> Result<NodeId, AllocError>
    requires reads { (d : DesignTree) × Reads d game.old reading }
    requires fits { FitsTruth reading.vars reading.processes (truth_tree truth.now) }

    ensures grows { Grows game.old game.new }
    ensures holds { IfOk result (λ id. (d : DesignTree) → Reads d game.old reading
        → IsFunction game.new.diagrams.table id
        (λ v. holds (state_of d game.old.order v) reading.goal (truth_tree truth.now))) }
{
    let term = reading.truth(game, truth)?;
    let bits = game.bits(term)?;
    Ok(bits[0])
}

// The number of a shape in a list, behind which it is put where it is not there.
fn shape_number(shapes: &mut Vec<MoveShape>, shape: MoveShape) -> Result<usize, AllocError>
    ensures { IfOk result (IsNumbered shapes.old.items shape shapes.new.items) }
{
    for (index, known) in shapes.iter().enumerate() {
        if are_same(*known, shape) {
            return Ok(index);
        }
    }
    let number = shapes.len();
    shapes.push(shape)?;
    Ok(number)
}

// Whether two shapes are the same.
fn are_same(a: MoveShape, b: MoveShape) -> bool
    ensures { IsTrue result ↔ a ≡ b }
{
    a == b
}

//! The moves of the driver that are good at a state.
ghost use Rattle.std.specs.Prelude.{◌≡◌, ◌+◌, ◌<◌, ◌⊎◌, true, IfOk, length};
ghost use Rattle.tm_dd.specs.Reduced.{Extends};
ghost use Rattle.tm_dd.specs.Table.{Knows, means};
ghost use Rattle.tm_game_bits.specs.Diagrams.{IsSetOf, KnowsGame, game_of};
ghost use Rattle.tm_game.specs.Game.{Grows, IsOf, IsSet, in_set};
ghost use Rattle.tm_game.specs.Inner.Good.{HasGoodLeaveBelow, IsGoodLeave, IsGoodStep};
ghost use Rattle.tm_game.specs.Moves.{AreMoves, HasTask};
ghost use Rattle.tm_syntax.specs.Design.{DesignTree};

use crate::game::Game;
use std::alloc::AllocError;
use tm_base::Steps;
use tm_dd::{FALSE, NodeId};
use tm_ddops::Manager;
use tm_game_steps::MadeGame;

/// The shape of a move of the driver: to idle, to leave the magic block at which a process stands, or to call a task.
#[derive(Clone, Copy, PartialEq, Eq, Debug)]
pub enum MoveShape {
    Idle,
    Leave(u32),
    Call(u32),
}

impl Game {
    /// The pairs of a valid state and of arguments at which a move of a shape is allowed, and for no choices errs or
    /// leaves a set. Every id keeps its meaning, also where memory runs out.
    pub fn legal_move(&mut self, shape: MoveShape, set: NodeId) -> Result<NodeId, AllocError>
        requires set { IsSet self.old set }
        requires task { HasTask self.old.flat shape }

        ensures grows { Grows self.old self.new }
        ensures answer { IfOk result (λ id. (d : DesignTree) → IsOf d self.old
            → AreMoves d self.old.order self.new.diagrams.table shape (in_set d self.old set) id) }
    {
        match shape {
            MoveShape::Idle => self.idle_moves(set),
            MoveShape::Leave(process) => self.leave_moves(process, set),
            MoveShape::Call(task) => self.call_moves(task, set),
        }
    }

    // The moves to idle.
    fn idle_moves(&mut self, set: NodeId) -> Result<NodeId, AllocError>
        requires { IsSet self.old set }

        ensures grows { Grows self.old self.new }
        ensures answer { IfOk result (λ id. (d : DesignTree) → IsOf d self.old
            → AreMoves d self.old.order self.new.diagrams.table MoveShape.Idle (in_set d self.old set) id) }
    {
        let moves = good_step(&self.made, &mut self.dd, 0, set)?;
        Ok(moves)
    }

    // The moves to leave the magic block at which a process stands.
    fn leave_moves(&mut self, process: u32, set: NodeId) -> Result<NodeId, AllocError>
        requires { IsSet self.old set }

        ensures grows { Grows self.old self.new }
        ensures answer { IfOk result (λ id. (d : DesignTree) → IsOf d self.old → AreMoves d self.old.order
            self.new.diagrams.table (MoveShape.Leave process) (in_set d self.old set) id) }
    {
        let first = self.flat.tasks.len() + 1;
        let moves = good_leaves(&self.made, &mut self.dd, first, process as usize, set)?;
        Ok(moves)
    }

    // The moves to call a task.
    fn call_moves(&mut self, task: u32, set: NodeId) -> Result<NodeId, AllocError>
        requires set { IsSet self.old set }
        requires task { task < length self.old.flat.tasks }

        ensures grows { Grows self.old self.new }
        ensures answer { IfOk result (λ id. (d : DesignTree) → IsOf d self.old → AreMoves d self.old.order
            self.new.diagrams.table (MoveShape.Call task) (in_set d self.old set) id) }
    {
        let moves = good_step(&self.made, &mut self.dd, task as usize + 1, set)?;
        Ok(moves)
    }
}

// Where a step of the driver is good.
fn good_step(
    made: &MadeGame,
    dd: &mut Manager,
    index: usize,
    set: NodeId,
) -> Result<NodeId, AllocError>
    requires game { KnowsGame dd.old.table made.now.steps }
    requires index { index < length made.now.steps.driver.items }
    requires set { Knows dd.old.table set }

    ensures extends { Extends dd.old.table dd.new.table }
    ensures answer { IfOk result (IsSetOf dd.new.table
        (IsGoodStep (game_of dd.old.table made.now.steps) (means dd.old.table set) index)) }
{
    let step = &made.steps.driver[index];
    let good = made.steps.legal_move(dd, step, set)?;
    Ok(good)
}

// Where some step is good by which a process leaves.
fn good_leaves(
    made: &MadeGame,
    dd: &mut Manager,
    first: usize,
    process: usize,
    set: NodeId,
) -> Result<NodeId, AllocError>
    requires game { KnowsGame dd.old.table made.now.steps }
    requires steps { first + length made.now.movers.items ≡ length made.now.steps.driver.items }
    requires set { Knows dd.old.table set }

    ensures extends { Extends dd.old.table dd.new.table }
    ensures answer { IfOk result (IsSetOf dd.new.table (HasGoodLeaveBelow (game_of dd.old.table made.now.steps)
        (means dd.old.table set) made.now.movers.items first process (length made.now.movers.items))) }
{
    let mut good = FALSE;
    for index in 0..made.movers.len() {
        good = good_leave(made, dd, first, index, process, set, good)?;
    }
    Ok(good)
}

// Where a step is good, if a process leaves by it, or a diagram holds.
fn good_leave(
    made: &MadeGame,
    dd: &mut Manager,
    first: usize,
    index: usize,
    process: usize,
    set: NodeId,
    other: NodeId,
) -> Result<NodeId, AllocError>
    requires game { KnowsGame dd.old.table made.now.steps }
    requires steps { first + length made.now.movers.items ≡ length made.now.steps.driver.items }
    requires index { index < length made.now.movers.items }
    requires set { Knows dd.old.table set }
    requires other { Knows dd.old.table other }

    ensures extends { Extends dd.old.table dd.new.table }
    ensures answer { IfOk result (IsSetOf dd.new.table (λ v. (means dd.old.table other v ≡ true)
        ⊎ IsGoodLeave (game_of dd.old.table made.now.steps) (means dd.old.table set) made.now.movers.items first process
        index v)) }
{
    if made.movers[index] != process {
        return Ok(other);
    }
    let here = good_step(made, dd, first + index, set)?;
    let either = dd.or(other, here, &mut Steps::new(()))?;
    Ok(either)
}

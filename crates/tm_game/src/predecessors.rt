//! Predecessors of sets of states.
ghost use Rattle.std.specs.Prelude.{IfOk};
ghost use Rattle.tm_game.specs.Game.{Grows, IsOf, IsSet, IsStates, in_set};
ghost use Rattle.tm_sem.specs.Forcing.{Forced, IsCalm, Stays};
ghost use Rattle.tm_syntax.specs.Design.{DesignTree};

use crate::game::Game;
use std::alloc::AllocError;
use tm_dd::NodeId;

impl Game {
    /// The valid states from which no stutter or process step errs or leaves a set, and which, where a magic block is
    /// active, have an allowed driver move that never errs or leaves it. The answers on the last sets are remembered.
    ///
    /// Every id keeps its meaning, also where memory runs out.
    pub fn cpre(&mut self, set: NodeId) -> Result<NodeId, AllocError>
        requires { IsSet self.old set }
        ensures grows { Grows self.old self.new }
        ensures answer { IfOk result (λ id. (d : DesignTree) → IsOf d self.old
            → IsStates d self.old.order self.new.diagrams.table (Stays d (in_set d self.old set)) id) }
    {
        let stays = self.made.steps.cpre(&mut self.dd, &mut self.recent, set)?;
        Ok(stays)
    }

    /// The valid states from which no stutter or process step errs or leaves a set.
    ///
    /// Every id keeps its meaning, also where memory runs out.
    pub fn calm(&mut self, set: NodeId) -> Result<NodeId, AllocError>
        requires { IsSet self.old set }
        ensures grows { Grows self.old self.new }
        ensures answer { IfOk result (λ id. (d : DesignTree) → IsOf d self.old
            → IsStates d self.old.order self.new.diagrams.table (IsCalm d (in_set d self.old set)) id) }
    {
        let calm = self.made.steps.calm(&mut self.dd, set)?;
        Ok(calm)
    }

    /// The valid states outside `cpre` of all that a set leaves out: from these the environment forces an error or a
    /// state of the set.
    ///
    /// Every id keeps its meaning, also where memory runs out.
    pub fn epre(&mut self, set: NodeId) -> Result<NodeId, AllocError>
        requires { IsSet self.old set }
        ensures grows { Grows self.old self.new }
        ensures answer { IfOk result (λ id. (d : DesignTree) → IsOf d self.old
            → IsStates d self.old.order self.new.diagrams.table (Forced d (in_set d self.old set)) id) }
    {
        let forced = self.made.steps.epre(&mut self.dd, &mut self.recent, set)?;
        Ok(forced)
    }
}

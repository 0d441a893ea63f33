//! The exact step operator over the game of a design.
ghost use Rattle.tm_solve_exact.specs.Exact.{exact_game, exact_ids};
ghost use Rattle.tm_solve_exact.specs.Laws.{exact_absorbing, exact_monotone};

use crate::exact::Exact;
use crate::parts::part;
use crate::sets::{both, either, rest};
use std::alloc::AllocError;
use tm_dd::NodeId;
use tm_solve::Pre;

impl Pre for Exact {
    ghost game = { λ e. exact_game e.game };

    ghost ids = { λ e. exact_ids e.game };

    fn goals(&self) -> u32 {
        let _store = self.game.manager().store();
        self.goals
    }

    fn fairs(&self) -> u32 {
        let _store = self.game.manager().store();
        self.fairs
    }

    fn whole(&self) -> NodeId {
        let _store = self.game.manager().store();
        self.game.valid()
    }

    fn part(
        &mut self,
        z: NodeId,
        y: NodeId,
        x: NodeId,
        goal: u32,
        fair: u32,
    ) -> Result<NodeId, AllocError> {
        part(&mut self.game, z, y, x, goal, fair)
    }

    fn union(&mut self, a: NodeId, b: NodeId) -> Result<NodeId, AllocError> {
        either(&mut self.game, a, b)
    }

    fn meet(&mut self, a: NodeId, b: NodeId) -> Result<NodeId, AllocError> {
        both(&mut self.game, a, b)
    }

    fn without(&mut self, a: NodeId, b: NodeId) -> Result<NodeId, AllocError> {
        rest(&mut self.game, a, b)
    }

    ghost monotone = { λ e. exact_monotone e.game };

    ghost absorbing = { λ e. exact_absorbing e.game };
}

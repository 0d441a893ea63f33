//! The exact step operator over the game of a design with its pool.
ghost use Rattle.tm_refine.specs.Pooled.{pool_ids};
ghost use Rattle.tm_solve_exact.specs.Exact.{exact_game};
ghost use Rattle.tm_solve_exact.specs.Laws.{exact_absorbing, exact_monotone};

use crate::pooled::Pooled;
use crate::sets::{both, either, part, rest};
use std::alloc::AllocError;
use tm_dd::NodeId;
use tm_solve::Pre;

impl Pre for Pooled {
    ghost game = { λ p. exact_game p.exact.game };

    ghost ids = { λ p. pool_ids p.exact.game };

    fn goals(&self) -> u32 {
        self.exact.goals()
    }

    fn fairs(&self) -> u32 {
        self.exact.fairs()
    }

    fn whole(&self) -> NodeId {
        self.exact.whole()
    }

    fn part(
        &mut self,
        z: NodeId,
        y: NodeId,
        x: NodeId,
        goal: u32,
        fair: u32,
    ) -> Result<NodeId, AllocError> {
        part(&mut self.exact.game, z, y, x, goal, fair)
    }

    fn union(&mut self, a: NodeId, b: NodeId) -> Result<NodeId, AllocError> {
        either(&mut self.exact.game, a, b)
    }

    fn meet(&mut self, a: NodeId, b: NodeId) -> Result<NodeId, AllocError> {
        both(&mut self.exact.game, a, b)
    }

    fn without(&mut self, a: NodeId, b: NodeId) -> Result<NodeId, AllocError> {
        rest(&mut self.exact.game, a, b)
    }

    ghost monotone = { λ p. exact_monotone p.exact.game };

    ghost absorbing = { λ p. exact_absorbing p.exact.game };
}

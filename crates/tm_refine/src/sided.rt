//! The step operator of a side, over the cells of tracked predicates.
ghost use Rattle.tm_refine.specs.Sided.{side_game, side_ids};

use crate::arena::Arena;
use std::alloc::AllocError;
use tm_dd::NodeId;
use tm_solve::Pre;

/// A game, the numbers of the tracked predicates, and the side that is solved over their cells: the upper parts of the
/// exact step operator, or its lower ones (de Alfaro and Roy 2007).
#[derive(Drop)]
pub struct Sided<A> {
    pub arena: A,
    pub tracked: Vec<u32>,
    pub upper: bool,
}

impl<A: Arena> Pre for Sided<A> {
    ghost use Rattle.tm_refine.specs.SidedLaws.{side_absorbing, side_monotone};

    ghost game = { λ p. side_game p.upper (A.tests p.arena p.tracked.items) (A.game p.arena) };

    ghost ids = { λ p.
        side_ids p.upper p.tracked.items (A.tests p.arena p.tracked.items) (A.game p.arena) (A.ids p.arena) };

    fn goals(&self) -> u32 {
        self.arena.goals()
    }

    fn fairs(&self) -> u32 {
        self.arena.fairs()
    }

    fn whole(&self) -> NodeId {
        self.arena.whole()
    }

    fn part(
        &mut self,
        z: NodeId,
        y: NodeId,
        x: NodeId,
        goal: u32,
        fair: u32,
    ) -> Result<NodeId, AllocError> {
        let exact = self.arena.part(z, y, x, goal, fair)?;
        self.arena.side(self.tracked.as_slice(), self.upper, exact)
    }

    fn union(&mut self, a: NodeId, b: NodeId) -> Result<NodeId, AllocError> {
        self.arena.union(a, b)
    }

    fn meet(&mut self, a: NodeId, b: NodeId) -> Result<NodeId, AllocError> {
        self.arena.meet(a, b)
    }

    fn without(&mut self, a: NodeId, b: NodeId) -> Result<NodeId, AllocError> {
        self.arena.without(a, b)
    }

    ghost monotone = { λ p.
        side_monotone p.upper (A.tests p.arena p.tracked.items) (A.game p.arena) (A.monotone p.arena) };

    ghost absorbing = { λ p.
        side_absorbing p.upper (A.tests p.arena p.tracked.items) (A.game p.arena) (A.absorbing p.arena) };
}

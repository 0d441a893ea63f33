//! The game of a design, as deciding asks for it.
ghost use Rattle.std.specs.Prelude.{length};
ghost use Rattle.tm_refine.specs.Pooled.{pool_ids, tests_of};
ghost use Rattle.tm_refine.specs.PooledLaws.{pool_cells, pool_exact, pool_separates, pool_size};
ghost use Rattle.tm_solve_exact.specs.Exact.{exact_game};
ghost use Rattle.tm_solve_exact.specs.Laws.{exact_absorbing, exact_monotone};

use crate::arena::Arena;
use crate::forgetting::forget;
use crate::memory::{Memory, remembered_side};
use crate::parting::apart;
use crate::parts::{leaves_out, split};
use crate::pooled::{Pooled, ROOM, noted};
use crate::sets::{both, either, part, rest};
use crate::telling::first_apart;
use std::alloc::{AllocError, Global};
use tm_dd::NodeId;
use tm_sem::state::State;
use tm_solve::{Iterates, Pre, solve};

impl Arena for Pooled {
    ghost game = { λ p. exact_game p.exact.game };

    ghost ids = { λ p. pool_ids p.exact.game };

    ghost tests = { λ p. tests_of p.exact.game };

    ghost size = { λ p. length p.exact.game.flat.pool };

    fn goals(&self) -> u32 {
        self.exact.goals()
    }

    fn fairs(&self) -> u32 {
        self.exact.fairs()
    }

    fn whole(&self) -> NodeId {
        self.exact.whole()
    }

    fn part(
        &mut self,
        z: NodeId,
        y: NodeId,
        x: NodeId,
        goal: u32,
        fair: u32,
    ) -> Result<NodeId, AllocError> {
        part(&mut self.exact.game, z, y, x, goal, fair)
    }

    fn union(&mut self, a: NodeId, b: NodeId) -> Result<NodeId, AllocError> {
        either(&mut self.exact.game, a, b)
    }

    fn meet(&mut self, a: NodeId, b: NodeId) -> Result<NodeId, AllocError> {
        both(&mut self.exact.game, a, b)
    }

    fn without(&mut self, a: NodeId, b: NodeId) -> Result<NodeId, AllocError> {
        rest(&mut self.exact.game, a, b)
    }

    fn side(&mut self, tracked: &[u32], upper: bool, set: NodeId) -> Result<NodeId, AllocError> {
        let part = remembered_side(
            self.alloc,
            &mut self.exact.game,
            &mut self.memory,
            tracked,
            upper,
            set,
        )?;
        self.hint = noted(self.hint, set, part);
        Ok(part)
    }

    fn leaves_out(&mut self, set: NodeId) -> Result<bool, AllocError> {
        leaves_out(&mut self.exact.game, set)
    }

    fn split(
        &mut self,
        tracked: &[u32],
        set: NodeId,
    ) -> Result<Option<(State, State)>, AllocError> {
        self.hint = None;
        split(self.alloc, &mut self.exact.game, tracked, set)
    }

    fn apart(&mut self, tracked: &[u32]) -> Result<Option<(State, State)>, AllocError> {
        apart(self.alloc, &mut self.exact.game, tracked)
    }

    fn tells(&mut self, left: &State, right: &State) -> Result<u32, AllocError> {
        first_apart(self.alloc, &self.exact.game, left, right)
    }

    fn first(&self) -> u32 {
        self.exact.game.flat().first
    }

    fn hint(&self) -> NodeId {
        match self.hint {
            Some(set) => set,
            None => self.exact.game.valid(),
        }
    }

    fn is_full(&self) -> bool {
        let kept = self.exact.game.manager().store().kept();
        kept > ROOM && kept / 2 > self.kept
    }

    fn forget(&mut self, set: NodeId) -> Result<NodeId, AllocError> {
        self.hint = None;
        self.memory = Memory::new(self.alloc);
        let set = forget(&mut self.exact.game, set)?;
        self.kept = self.exact.game.manager().store().kept();
        Ok(set)
    }

    fn solve_exact(&mut self, alloc: Global) -> Result<Iterates, AllocError> {
        solve(alloc, self)
    }

    ghost pool_size = { λ p d can. pool_size p.exact.game d can };

    ghost separates = { λ p d can. pool_separates p.exact.game d can };

    ghost monotone = { λ p. exact_monotone p.exact.game };

    ghost absorbing = { λ p. exact_absorbing p.exact.game };

    ghost exact = { λ p d can. pool_exact p.exact.game d can };

    ghost cells = { λ p d ks can. pool_cells p.exact.game d ks can };
}

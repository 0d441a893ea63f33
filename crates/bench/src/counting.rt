//! Games over predicates that count the steps of their decision.
use std::alloc::{AllocError, Global};
use tm_dd::NodeId;
use tm_refine::Arena;
use tm_sem::state::State;
use tm_solve::Iterates;

/// How many solutions over cells were sought, and how many of them in rounds.
///
/// A solution asks for parts over the cells of its predicates alone, and the next one has more or fewer predicates. The
/// solutions of rounds come first, each over more predicates than the one before.
#[derive(Drop)]
pub struct Tally {
    /// How many solutions were sought.
    pub solutions: u32,
    /// How many of them were sought in rounds.
    pub rounds: u32,
    /// How many predicates the last one had.
    pub predicates: Option<usize>,
}

impl Tally {
    /// Of no solution.
    pub fn new() -> Tally {
        Tally {
            solutions: 0,
            rounds: 0,
            predicates: None,
        }
    }

    // Counts a solution over the cells of so many predicates, where it is not the last one still.
    fn note(&mut self, predicates: usize) {
        let is_another = match self.predicates {
            Some(last) => last != predicates,
            None => true,
        };
        if is_another {
            self.count(predicates);
        }
    }

    // Counts a solution over the cells of so many predicates.
    fn count(&mut self, predicates: usize) {
        let rises = match self.predicates {
            Some(last) => last < predicates,
            None => true,
        };
        if rises && self.rounds == self.solutions {
            self.rounds = self.rounds.saturating_add(1);
        }
        self.solutions = self.solutions.saturating_add(1);
        self.predicates = Some(predicates);
    }
}

/// A game over predicates, and what is counted of its decision.
#[derive(Drop)]
pub struct Counted<A> {
    pub arena: A,
    pub tally: Tally,
}

impl<A: Arena> Arena for Counted<A> {
    ghost game = { λ p. A.game p.arena };

    ghost ids = { λ p. A.ids p.arena };

    ghost tests = { λ p. A.tests p.arena };

    ghost size = { λ p. A.size p.arena };

    fn goals(&self) -> u32 {
        self.arena.goals()
    }

    fn fairs(&self) -> u32 {
        self.arena.fairs()
    }

    fn whole(&self) -> NodeId {
        self.arena.whole()
    }

    fn part(
        &mut self,
        z: NodeId,
        y: NodeId,
        x: NodeId,
        goal: u32,
        fair: u32,
    ) -> Result<NodeId, AllocError> {
        self.arena.part(z, y, x, goal, fair)
    }

    fn union(&mut self, a: NodeId, b: NodeId) -> Result<NodeId, AllocError> {
        self.arena.union(a, b)
    }

    fn meet(&mut self, a: NodeId, b: NodeId) -> Result<NodeId, AllocError> {
        self.arena.meet(a, b)
    }

    fn without(&mut self, a: NodeId, b: NodeId) -> Result<NodeId, AllocError> {
        self.arena.without(a, b)
    }

    fn side(&mut self, tracked: &[u32], upper: bool, set: NodeId) -> Result<NodeId, AllocError> {
        self.tally.note(tracked.len());
        self.arena.side(tracked, upper, set)
    }

    fn leaves_out(&mut self, set: NodeId) -> Result<bool, AllocError> {
        self.arena.leaves_out(set)
    }

    fn split(
        &mut self,
        tracked: &[u32],
        set: NodeId,
    ) -> Result<Option<(State, State)>, AllocError> {
        self.arena.split(tracked, set)
    }

    fn apart(&mut self, tracked: &[u32]) -> Result<Option<(State, State)>, AllocError> {
        self.arena.apart(tracked)
    }

    fn tells(&mut self, left: &State, right: &State) -> Result<u32, AllocError> {
        self.arena.tells(left, right)
    }

    fn first(&self) -> u32 {
        self.arena.first()
    }

    fn hint(&self) -> NodeId {
        self.arena.hint()
    }

    fn is_full(&self) -> bool {
        self.arena.is_full()
    }

    fn forget(&mut self, set: NodeId) -> Result<NodeId, AllocError> {
        self.arena.forget(set)
    }

    fn solve_exact(&mut self, alloc: Global) -> Result<Iterates, AllocError> {
        self.arena.solve_exact(alloc)
    }

    ghost pool_size = { λ p. A.pool_size p.arena };

    ghost separates = { λ p. A.separates p.arena };

    ghost monotone = { λ p. A.monotone p.arena };

    ghost absorbing = { λ p. A.absorbing p.arena };

    ghost exact = { λ p. A.exact p.arena };

    ghost cells = { λ p. A.cells p.arena };
}

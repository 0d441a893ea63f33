//! What the solution of an exact game certifies.
ghost use Rattle.std.specs.Prelude.{◌↔◌, IfOk};
ghost use Rattle.tm_solve_exact.specs.Exact.{IsExactOf, exact_game, exact_ids, exact_operator, set_of};
ghost use Rattle.tm_solve_exact.specs.Solving.{CanSolve};
ghost use Rattle.tm_game.specs.Game.{GameData};
ghost use Rattle.tm_sem.specs.Certificates.{C1, MeetsEnvironment, MeetsMoveForm};
ghost use Rattle.tm_solve.specs.Exact.{IsGameOf, LeavesOut, MeetsLevels, MeetsRanks};
ghost use Rattle.tm_solve.specs.Fixpoints.{Holds, InRegion};
ghost use Rattle.tm_solve.specs.Ids.{Follows};
ghost use Rattle.tm_solve.specs.Iterates.{KnowsAll, driver_sets, levels_of};
ghost use Rattle.tm_syntax.specs.Design.{DesignTree};

use crate::exact::Exact;
use std::alloc::{AllocError, Global};
use tm_solve::{Iterates, levels_are_certified, ranked_sets_are_certified, solve};

/// The exact operator over a game is that of each design that can be solved over the game.
pub fn exact_operators_are_those_of_their_designs()
    ensures { (d : DesignTree) (g : GameData) → CanSolve d g → IsGameOf d (exact_operator g) (exact_game g) }
{}

impl Exact {
    /// Solves the game. Of each design that can be solved over it, the ranked sets meet all conditions of a driver's
    /// certificate in its move form but the one on initial states, and that one too exactly where the region holds each
    /// initial state; the levels meet all of an environment's certificate but the one on initial states, and that one
    /// too exactly where the region leaves one out.
    ///
    /// Want of memory is the only error. After it, too, every id means what it meant, and the game has the same
    /// designs.
    pub fn solve(&mut self, alloc: Global) -> Result<Iterates, AllocError>
        ensures region { IfOk result (λ it. Holds (exact_game self.old.game).states
            (set_of self.new.game it.region) (InRegion (exact_game self.old.game))) }

        ensures ranks { IfOk result (λ it. (d : DesignTree) → CanSolve d self.old.game
            → MeetsRanks d (driver_sets (exact_ids self.new.game) it)) }
        ensures driver { IfOk result (λ it. (d : DesignTree) → CanSolve d self.old.game
            → (C1 d (driver_sets (exact_ids self.new.game) it)
            ↔ MeetsMoveForm d (driver_sets (exact_ids self.new.game) it))) }

        ensures levels { IfOk result (λ it. (d : DesignTree) → CanSolve d self.old.game
            → MeetsLevels d (levels_of (exact_ids self.new.game) it)) }
        ensures environment { IfOk result (λ it. (d : DesignTree) → CanSolve d self.old.game
            → (LeavesOut d (set_of self.new.game it.region)
            ↔ MeetsEnvironment d (levels_of (exact_ids self.new.game) it))) }

        ensures known { IfOk result (KnowsAll (exact_ids self.new.game)) }
        ensures exact { (d : DesignTree) → IsExactOf d self.old.game → IsExactOf d self.new.game }
        ensures follows { Follows (exact_game self.old.game) (exact_ids self.old.game) (exact_game self.new.game)
            (exact_ids self.new.game) }
    {
        ranked_sets_are_certified();
        levels_are_certified();
        exact_operators_are_those_of_their_designs();
        solve(alloc, self)
    }
}

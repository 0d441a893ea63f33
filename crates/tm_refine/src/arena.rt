//! What is asked of a game that is decided over predicates.
ghost use Rattle.std.specs.Prelude.{◌≡◌, ◌<◌, ◌≤◌, length, ◌&&◌, ◌||◌, ℕ, List, not, IfOk, MatchOption};
ghost use Rattle.tm_abs.specs.Split.{IsCut, PartsAreOne};
ghost use Rattle.tm_flat_pool.specs.Cells.{SameCell};
ghost use Rattle.tm_flat_pool.specs.Predicates.{pool};
ghost use Rattle.tm_game_pool.specs.Separating.{Separates, predicates_at};
ghost use Rattle.tm_refine.specs.Parts.{TellCells};
ghost use Rattle.tm_refine.specs.Reasons.{TellsFirst};
ghost use Rattle.tm_refine.specs.Sided.{side_part};
ghost use Rattle.tm_refine.specs.Solved.{IsOut};
ghost use Rattle.tm_refine.specs.Searching.{IsParted};
ghost use Rattle.tm_sem.specs.Step.{IsState};
ghost use Rattle.tm_solve.specs.Exact.{IsGameOf};
ghost use Rattle.tm_solve.specs.Fixpoints.{Holds, InRegion};
ghost use Rattle.tm_solve.specs.Game.{Game, IsAbsorbing, IsMonotone};
ghost use Rattle.tm_solve.specs.Ids.{Follows, Ids, Is, IsExact, Stay};
ghost use Rattle.tm_solve.specs.Iterates.{KnowsAll, driver_sets, levels_of};
ghost use Rattle.tm_solve.specs.Levels.{LevelsFit};
ghost use Rattle.tm_solve.specs.Operator.{Operator};
ghost use Rattle.tm_solve.specs.Ranks.{RanksFit};
ghost use Rattle.tm_solve.specs.Sets.{StateSet, everywhere};
ghost use Rattle.tm_syntax.specs.Design.{DesignTree};
ghost use Rattle.tm_syntax.specs.Design.Atoms.{first_atoms};

use std::alloc::{AllocError, Global};
use tm_dd::NodeId;
use tm_sem::state::State;
use tm_solve::Iterates;

/// A game with a pool of predicates: its exact step operator, and the parts of its sets over the cells of predicates.
///
/// Predicates are named by their numbers in the pool; a number that the pool does not have names none. No call changes
/// the game, its designs or its predicates, and after each call but `forget`, also one that is refused, every known id
/// means what it meant.
pub trait Arena {
    /// The valid states, the numbers of goals and fairness conditions, and the exact step operator.
    ghost game: { Self → Game };

    /// Which ids are known, what they mean, and of which designs their sets are.
    ghost ids: { Self → Ids };

    /// The predicates of some numbers as tests.
    ghost tests: { Self → List ℕ → List StateSet };

    /// How many predicates the pool has.
    ghost size: { Self → ℕ };

    /// The number of goals.
    fn goals(&self) -> u32
        ensures value { result ≡ (game self.now).goals }
        ensures exact { IsExact (game self.now).states (ids self.now) };

    /// The number of fairness conditions.
    fn fairs(&self) -> u32
        ensures value { result ≡ (game self.now).fairs }
        ensures exact { IsExact (game self.now).states (ids self.now) };

    /// The set of all valid states.
    fn whole(&self) -> NodeId
        ensures value { Is (game self.now).states (ids self.now) result everywhere }
        ensures exact { IsExact (game self.now).states (ids self.now) };

    /// The exact step operator, of three sets, a goal and a fairness condition.
    fn part(
        &mut self,
        z: NodeId,
        y: NodeId,
        x: NodeId,
        goal: u32,
        fair: u32,
    ) -> Result<NodeId, AllocError>
        requires z_known { (ids self.old).knows z }
        requires y_known { (ids self.old).knows y }
        requires x_known { (ids self.old).knows x }
        requires goal { goal < (game self.old).goals }
        requires fair { fair < (game self.old).fairs }
        ensures value { let means = (ids self.old).means in IfOk result (λ id.
            Is (game self.old).states (ids self.new) id
            ((game self.old).part (means z) (means y) (means x) goal fair)) }
        ensures follows { Follows (game self.old) (ids self.old) (game self.new) (ids self.new) }
        ensures tests { tests self.new ≡ tests self.old };

    /// The states in `a` or `b`.
    fn union(&mut self, a: NodeId, b: NodeId) -> Result<NodeId, AllocError>
        requires a_known { (ids self.old).knows a }
        requires b_known { (ids self.old).knows b }
        ensures value { IfOk result (λ id. Is (game self.old).states (ids self.new) id
            (λ s. (ids self.old).means a s || (ids self.old).means b s)) }
        ensures follows { Follows (game self.old) (ids self.old) (game self.new) (ids self.new) }
        ensures tests { tests self.new ≡ tests self.old };

    /// The states in `a` and `b`.
    fn meet(&mut self, a: NodeId, b: NodeId) -> Result<NodeId, AllocError>
        requires a_known { (ids self.old).knows a }
        requires b_known { (ids self.old).knows b }
        ensures value { IfOk result (λ id. Is (game self.old).states (ids self.new) id
            (λ s. (ids self.old).means a s && (ids self.old).means b s)) }
        ensures follows { Follows (game self.old) (ids self.old) (game self.new) (ids self.new) }
        ensures tests { tests self.new ≡ tests self.old };

    /// The states in `a` and not in `b`.
    fn without(&mut self, a: NodeId, b: NodeId) -> Result<NodeId, AllocError>
        requires a_known { (ids self.old).knows a }
        requires b_known { (ids self.old).knows b }
        ensures value { IfOk result (λ id. Is (game self.old).states (ids self.new) id
            (λ s. (ids self.old).means a s && not ((ids self.old).means b s))) }
        ensures follows { Follows (game self.old) (ids self.old) (game self.new) (ids self.new) }
        ensures tests { tests self.new ≡ tests self.old };

    /// The upper or the lower part of a set over the cells of tracked predicates.
    fn side(&mut self, tracked: &[u32], upper: bool, set: NodeId) -> Result<NodeId, AllocError>
        requires set_known { (ids self.old).knows set }
        ensures value { IfOk result (λ id. Is (game self.old).states (ids self.new) id
            (side_part upper (game self.old).states (tests self.old tracked.now) ((ids self.old).means set))) }
        ensures follows { Follows (game self.old) (ids self.old) (game self.new) (ids self.new) }
        ensures tests { tests self.new ≡ tests self.old };

    /// Whether a set leaves out an initial state.
    fn leaves_out(&mut self, set: NodeId) -> Result<bool, AllocError>
        requires set_known { (ids self.old).knows set }
        ensures out { IfOk result (λ b. (d : DesignTree) → (ids self.old).of d → IsOut d ((ids self.old).means set) b) }
        ensures follows { Follows (game self.old) (ids self.old) (game self.new) (ids self.new) }
        ensures tests { tests self.new ≡ tests self.old };

    /// Two states of one cell, the first in a set and the second not, where a cell is cut.
    fn split(&mut self, tracked: &[u32], set: NodeId) -> Result<Option<(State, State)>, AllocError>
        requires set_known { (ids self.old).knows set }
        ensures split { IfOk result (λ o. (d : DesignTree) → (ids self.old).of d → MatchOption o
            (PartsAreOne d (predicates_at (pool d) tracked.now) ((ids self.old).means set))
            (λ p. IsCut d (predicates_at (pool d) tracked.now) ((ids self.old).means set) p.0 p.1)) }
        ensures follows { Follows (game self.old) (ids self.old) (game self.new) (ids self.new) }
        ensures tests { tests self.new ≡ tests self.old };

    /// Two states of one cell that are not one, where there are such.
    fn apart(&mut self, tracked: &[u32]) -> Result<Option<(State, State)>, AllocError>
        ensures apart { IfOk result (λ o. (d : DesignTree) → (ids self.old).of d → MatchOption o
            (Separates d (predicates_at (pool d) tracked.now))
            (λ p. IsParted d (predicates_at (pool d) tracked.now) p.0 p.1)) }
        ensures follows { Follows (game self.old) (ids self.old) (game self.new) (ids self.new) }
        ensures tests { tests self.new ≡ tests self.old };

    /// The number of the first predicate that tells two states apart.
    fn tells(&mut self, left: &State, right: &State) -> Result<u32, AllocError>
        requires apart { (d : DesignTree) × (ids self.old).of d × IsState d left.now × IsState d right.now
            × (¬ SameCell d (pool d) left.now right.now) }
        ensures first { IfOk result (λ k. (d : DesignTree) → (ids self.old).of d
            → TellsFirst d (pool d) left.now right.now k) }
        ensures designs { (d : DesignTree) → (ids self.old).of d → (ids self.new).of d }
        ensures game { game self.new ≡ game self.old }
        ensures stay { Stay (ids self.old) (ids self.new) };

    /// How many predicates are tracked from the start: those of goals and declared fairness conditions.
    fn first(&self) -> u32
        ensures below { result ≤ size self.now }
        ensures claims { (d : DesignTree) → (ids self.now).of d → result ≡ first_atoms d };

    /// A known set that was cut while the last solution was sought, if there is one.
    fn hint(&self) -> NodeId
        ensures known { (ids self.now).knows result };

    /// Whether there are so many sets that those which are not needed should be forgotten.
    fn is_full(&self) -> bool;

    /// Forgets all sets but one, and answers the id of that one then. Ids that were known before may mean nothing any
    /// more.
    fn forget(&mut self, set: NodeId) -> Result<NodeId, AllocError>
        requires set_known { (ids self.old).knows set }
        ensures value { IfOk result (λ id. Is (game self.old).states (ids self.new) id ((ids self.old).means set)) }
        ensures designs { (d : DesignTree) → (ids self.old).of d → (ids self.new).of d }
        ensures game { game self.new ≡ game self.old };

    /// What `solve` gives of the exact game.
    fn solve_exact(&mut self, alloc: Global) -> Result<Iterates, AllocError>
        ensures region { IfOk result (λ it.
            Holds (game self.old).states ((ids self.new).means it.region) (InRegion (game self.old))) }
        ensures known { IfOk result (λ it. KnowsAll (ids self.new) it) }
        ensures ranks { IfOk result (λ it. RanksFit (game self.old) (driver_sets (ids self.new) it)) }
        ensures levels { IfOk result (λ it.
            LevelsFit (game self.old) ((ids self.new).means it.region) (levels_of (ids self.new) it)) }
        ensures follows { Follows (game self.old) (ids self.old) (game self.new) (ids self.new) };

    /// The pool has so many predicates, which tell valid states apart.
    ghost pool_size: { (p : Self) (d : DesignTree) → (ids p).of d → length (pool d) ≡ size p };

    ghost separates: { (p : Self) (d : DesignTree) → (ids p).of d → Separates d (pool d) };

    /// The exact step operator is lawful.
    ghost monotone: { (p : Self) → IsMonotone (game p) };

    ghost absorbing: { (p : Self) → IsAbsorbing (game p) };

    /// The game is that of its designs, and the tests tell the cells of their predicates.
    ghost exact: { (p : Self) (d : DesignTree) → (ids p).of d → (op : Operator) × IsGameOf d op (game p) };

    ghost cells: { (p : Self) (d : DesignTree) (ks : List ℕ) → (ids p).of d
        → TellCells d (predicates_at (pool d) ks) (tests p ks) };
}

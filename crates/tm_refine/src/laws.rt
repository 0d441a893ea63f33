//! Laws: the parts that a side takes are those over the cells of the tracked predicates.
ghost use Rattle.std.specs.Prelude.{◌≡◌, ◌↔◌, ℕ, List, true};
ghost use Rattle.tm_flat_pool.specs.Cells.{IsInLower, IsInUpper};
ghost use Rattle.tm_flat_pool.specs.Predicates.{pool};
ghost use Rattle.tm_game.specs.Game.{GameData};
ghost use Rattle.tm_game_pool.specs.Separating.{predicates_at};
ghost use Rattle.tm_refine.specs.Parts.{lower_part, upper_part};
ghost use Rattle.tm_refine.specs.Pooled.{CanDecide, tests_of};
ghost use Rattle.tm_sem.specs.State.{StateData};
ghost use Rattle.tm_sem.specs.Step.{IsState};
ghost use Rattle.tm_solve.specs.Sets.{StateSet};
ghost use Rattle.tm_solve_exact.specs.Exact.{exact_game};
ghost use Rattle.tm_syntax.specs.Design.{DesignTree};

/// The lower and the upper part of a set that a side takes are the cells of the tracked predicates that lie in the set,
/// and those that meet it.
pub fn parts_are_those_of_cells()
    ensures lower { (d : DesignTree) (g : GameData) (ks : List ℕ) (a : StateSet) (s : StateData) → CanDecide d g
        → IsState d s → (lower_part (exact_game g).states (tests_of g ks) a s ≡ true)
        ↔ IsInLower d (predicates_at (pool d) ks) a s }
    ensures upper { (d : DesignTree) (g : GameData) (ks : List ℕ) (a : StateSet) (s : StateData) → CanDecide d g
        → IsState d s → (upper_part (exact_game g).states (tests_of g ks) a s ≡ true)
        ↔ IsInUpper d (predicates_at (pool d) ks) a s }
{}

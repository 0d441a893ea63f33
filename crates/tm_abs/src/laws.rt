//! Laws: with every predicate of the pool tracked, both parts of a set are the set itself; where a set cuts a cell, its
//! parts are not one.
ghost use Rattle.std.specs.Prelude.{◌≡◌, ◌↔◌, Bool, List, true};
ghost use Rattle.tm_abs.specs.Split.{IsCut, PartsAreOne};
ghost use Rattle.tm_flat.specs.Inputs.{AreSmall};
ghost use Rattle.tm_flat_pool.specs.Cells.{IsInLower, IsInUpper};
ghost use Rattle.tm_flat_pool.specs.Predicates.{Predicate, pool};
ghost use Rattle.tm_sem.specs.State.{StateData};
ghost use Rattle.tm_sem.specs.Step.{IsState};
ghost use Rattle.tm_syntax.specs.Design.{DesignTree};

/// With every predicate of the pool tracked, the lower and the upper part of a set are its valid states, where the
/// numbers of the design are small.
pub fn whole_pools_part_nothing()
    ensures lower { (d : DesignTree) → AreSmall d → (set : StateData → Bool) (s : StateData) → IsState d s
        → IsInLower d (pool d) set s ↔ (set s ≡ true) }
    ensures upper { (d : DesignTree) → AreSmall d → (set : StateData → Bool) (s : StateData) → IsState d s
        → IsInUpper d (pool d) set s ↔ (set s ≡ true) }
{}

/// Where two valid states of one cell are in a set and outside, its parts are not one: so `Cells::split` answers `None`
/// exactly where they are.
#[tactic(auto, using(crate::proofs::Splitting::cut_parts))]
pub fn cut_cells_part_sets()
    ensures { (d : DesignTree) (predicates : List Predicate) (set : StateData → Bool) (inside out : StateData)
        → IsCut d predicates set inside out → ¬ PartsAreOne d predicates set }
{}

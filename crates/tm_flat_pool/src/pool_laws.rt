//! Laws: the pool of predicates of a design, and the cells of predicates.
ghost use Rattle.std.specs.Prelude.{◌≡◌, Bool, true, List, ◌++◌};
ghost use Rattle.std.specs.List.{AllByRecursion};
ghost use Rattle.tm_syntax.specs.Design.{DesignTree};
ghost use Rattle.tm_syntax.specs.Design.Atoms.{pool_atoms};
ghost use Rattle.tm_syntax.specs.Faults.{IsOfText, IsSound};
ghost use Rattle.tm_flat_pool.specs.Truths.{IsTruth};
ghost use Rattle.tm_sem.specs.State.{StateData};
ghost use Rattle.tm_sem.specs.Certificates.{DriverSets, IsIn, Level, MeetsEnvironment, MeetsMoveForm};
ghost use Rattle.tm_flat_pool.specs.Cells.{AreDriverUnions, AreLevelUnions, IsInLower, IsInUpper, IsUnion, SameCell, Undecided};
ghost use Rattle.tm_flat_pool.specs.Predicates.{Predicate};

/// The lower part of a set lies in the set, and the set in its upper part. The two are one where the set is a union of
/// cells.
#[tactic(auto, using(crate::proofs::Parted::lower_lies_within, crate::proofs::Parted::within_lies_upper, crate::proofs::Parted::upper_is_lower))]
pub fn cells_bound_sets()
    ensures lower { (d : DesignTree) (predicates : List Predicate) (set : StateData → Bool) (s : StateData)
        → IsInLower d predicates set s → IsIn d set s }
    ensures upper { (d : DesignTree) (predicates : List Predicate) (set : StateData → Bool) (s : StateData)
        → IsIn d set s → IsInUpper d predicates set s }
    ensures union { (d : DesignTree) (predicates : List Predicate) (set : StateData → Bool) (s : StateData)
        → IsUnion d predicates set → IsInUpper d predicates set s → IsInLower d predicates set s }
{}

/// Further predicates part cells: what was a union of cells stays one.
#[tactic(auto, using(crate::proofs::Parted::cells_are_parted))]
pub fn predicates_part_cells()
    ensures cells { (d : DesignTree) (predicates more : List Predicate) (s t : StateData)
        → SameCell d (predicates ++ more) s t → SameCell d predicates s t }
    ensures unions { (d : DesignTree) (predicates more : List Predicate) (set : StateData → Bool)
        → IsUnion d predicates set → IsUnion d (predicates ++ more) set }
{}

/// Sets that are unions of cells and meet what is asked of a certificate decide a design.
#[tactic(auto, using(crate::proofs::Parted::driver_decides, crate::proofs::Parted::environment_decides))]
pub fn certificates_of_cells_decide()
    ensures driver { (d : DesignTree) (predicates : List Predicate) (c : DriverSets) → AreDriverUnions d predicates c
        → MeetsMoveForm d c → ¬ Undecided d predicates }
    ensures environment { (d : DesignTree) (predicates : List Predicate) (levels : List Level)
        → AreLevelUnions d predicates levels → MeetsEnvironment d levels → ¬ Undecided d predicates }
{}

/// The atoms of the pool of a sound design of a text are truths where they stand.
pub fn atoms_of_pools_are_truths()
    ensures { (d : DesignTree) → IsSound d → IsOfText d.spec → AllByRecursion (IsTruth d) (pool_atoms d) }
{}

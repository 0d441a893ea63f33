//! Laws: the pool of predicates of a design tells its valid states apart, begins with the atoms of its goals and
//! declared fairness conditions, and stays with a game of the design.
#![tactic(auto)]

ghost use Rattle.std.specs.Prelude.{◌≡◌, ◌==◌, ◌≤◌, ℕ, not, length, map, slice_index};
ghost use Rattle.std.specs.List.{range_with_len};
ghost use Rattle.tm_syntax.specs.Design.{DesignTree};
ghost use Rattle.tm_syntax.specs.Design.Atoms.{Atom, a_variable, claim_atoms, first_atoms, pooled, resolved_atom};
ghost use Rattle.tm_sem.specs.State.{StateData};
ghost use Rattle.tm_sem.specs.Step.{IsState};
ghost use Rattle.tm_sem.specs.StateBits.{state_bits};
ghost use Rattle.tm_game_pool.specs.Separating.{Separates, predicates_at};
ghost use Rattle.tm_flat_pool.specs.Predicates.{of_atom, pool, predicate_holds};
ghost use Rattle.tm_flat.specs.Inputs.{AreSmall};
ghost use Rattle.tm_game.specs.Copied.{IsCopied};
ghost use Rattle.tm_game.specs.Game.{GameData, Grows};
ghost use Rattle.tm_game_pool.specs.Pooled.{HasPool};

/// An atom that is a state variable holds exactly where the variable is not 0.
#[tactic(auto, using(crate::proofs::Separated::atom_holds))]
pub fn atoms_of_variables_hold_where_these_are_set()
    ensures { (d : DesignTree) (a : Atom) (v : ℕ) (s : StateData) → resolved_atom d a ≡ a_variable v
        → predicate_holds d s (of_atom a) ≡ not (slice_index s.values v == 0) }
{}

/// Valid states with the same bits are one, where the numbers of the design are small.
#[tactic(auto, using(crate::proofs::OneState::same_bits))]
pub fn valid_states_are_told_by_their_bits()
    ensures { (d : DesignTree) → AreSmall d → (s t : StateData) → IsState d s → IsState d t
        → state_bits d s ≡ state_bits d t → s ≡ t }
{}

/// Valid states at which all predicates of the pool have the same values are one, where the numbers of the design are
/// small.
#[tactic(auto, using(crate::proofs::Separated::pool_separates))]
pub fn pools_separate_valid_states()
    ensures { (d : DesignTree) → AreSmall d → Separates d (pool d) }
{}

/// The first predicates of the pool are the atoms of goals and declared fairness conditions.
#[tactic(auto, using(crate::proofs::Claims::first_within, crate::proofs::Claims::claims_first))]
pub fn pools_begin_with_claims()
    ensures within { (d : DesignTree) → first_atoms d ≤ length (pool d) }
    ensures first { (d : DesignTree) → predicates_at (pool d) (range_with_len 0 (first_atoms d))
        ≡ map of_atom (pooled d (claim_atoms d)) }
{}

/// The pool of a design whose numbers are not small need not tell its valid states apart: 64 bits tell no two values
/// apart of an enum with more constants than that.
#[tactic(auto, using(crate::proofs::Wide::not_all_separate))]
pub fn pools_of_wide_designs_do_not_separate()
    ensures { ¬ ((d : DesignTree) → Separates d (pool d)) }
{}

/// A game that has the pool of a design keeps it as it grows, and when its diagrams are copied.
#[tactic(auto, using(crate::proofs::Pooled::pool_grown, crate::proofs::Pooled::pool_copied))]
pub fn games_keep_their_pools()
    ensures grown { (d : DesignTree) (g h : GameData) → Grows g h → HasPool d g → HasPool d h }
    ensures copied { (d : DesignTree) (g h : GameData) → IsCopied g h → HasPool d g → HasPool d h }
{}

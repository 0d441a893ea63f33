//! Laws of atoms over their definitions alone.
ghost use Rattle.std.specs.Prelude.{◌≡◌, ◌↔◌, ◌++◌, List, [], true};
ghost use Rattle.tm_syntax.specs.Design.{DesignTree};
ghost use Rattle.tm_syntax.specs.Design.Atoms.{Atom, Resolved, pooled, same_atom};
ghost use Rattle.tm_atoms.specs.Pool.{with_atoms};

/// Two atoms are one exactly where they are equal once they are resolved.
#[tactic(auto, using(crate::proofs::SameAtoms::same_atoms))]
pub fn same_atoms_are_equal()
    ensures { (a b : Resolved) → same_atom a b ≡ true ↔ a ≡ b }
{}

/// The atoms of a pool are those that are left where each is put behind the others unless it is one of them.
#[tactic(auto, using(crate::proofs::Noting::pooled_is))]
pub fn atoms_of_a_pool_are_noted_in_turn()
    ensures { (d : DesignTree) (atoms : List Atom) → with_atoms d [] atoms ≡ pooled d atoms }
{}

/// One list of atoms behind another one.
#[tactic(auto, using(crate::proofs::Noting::with_both))]
pub fn atoms_of_two_lists_are_noted_in_turn()
    ensures { (d : DesignTree) (pool xs ys : List Atom) →
        with_atoms d pool (xs ++ ys) ≡ with_atoms d (with_atoms d pool xs) ys }
{}

/// A list of atoms that has been noted adds nothing, whatever was noted since.
#[tactic(auto, using(crate::proofs::Noting::noted_before))]
pub fn noted_atoms_add_nothing()
    ensures { (d : DesignTree) (pool xs ys : List Atom) →
        with_atoms d (with_atoms d (with_atoms d pool xs) ys) xs ≡ with_atoms d (with_atoms d pool xs) ys }
{}

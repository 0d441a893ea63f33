//! A law: what a sound design of a text has that the steps of its processes ask for.
ghost use Rattle.std.specs.Prelude.{ℕ};
ghost use Rattle.tm_syntax.specs.declared.design.Design as resolved;
ghost use Rattle.tm_syntax.specs.Design.Locations.{rest};
ghost use Rattle.tm_syntax.specs.Design.View.{design_tree};
ghost use Rattle.tm_syntax.specs.Faults.{IsOfText, IsSound};
ghost use Rattle.tm_flat.specs.BitStep.{HasRoom};
ghost use Rattle.tm_locations.specs.Locations.{LocationTable};
ghost use Rattle.tm_flat_moves.specs.Items.{MayBeWalked};
ghost use Rattle.tm_flat_design.specs.Tables.{walk_tables};

/// In a design of a text that keeps its facts what is left to be done at each location of a process are statements of
/// its bodies, which value, assign and call what has the types that their places ask for; and where the design has room
/// for its choices, so has each of its text with the same instances and variables.
pub fn what_is_left_may_be_walked()
    ensures { (d : resolved.Design) → IsSound (design_tree d) → IsOfText (design_tree d).spec → HasRoom (design_tree d)
        → (l : LocationTable) (first p k : ℕ) → MayBeWalked (walk_tables d l first) (rest (design_tree d) p k) }
{}

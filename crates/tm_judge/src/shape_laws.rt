//! Reads and writes the certificates of a design that is given as guarded updates.
ghost use Rattle.std.specs.Prelude.{◌≡◌};
ghost use Rattle.tm_cert.specs.declared.shape.Kind.{Kind};
ghost use Rattle.tm_flat.specs.Flat.{FlatTerms};
ghost use Rattle.tm_flat.specs.IsFlat.{IsFlat};
ghost use Rattle.tm_judge.specs.FlatShape.{design_shape, flat_shape};
ghost use Rattle.tm_syntax.specs.Design.{DesignTree};
ghost use Rattle.tm_syntax.specs.Faults.{IsSound};
ghost use Rattle.tm_term.specs.Table.{Table};

/// The guarded updates of a sound design ask the same of certificates as the design does: its state bits, its goals and
/// its fairness conditions. So none of these counts stops at the greatest number of 32 bits.
pub fn shapes_are_those_of_designs()
    ensures { (t : Table) (d : DesignTree) (f : FlatTerms) (wanted : Kind) → IsFlat t d f → IsSound d
        → flat_shape f wanted ≡ design_shape d wanted }
{}

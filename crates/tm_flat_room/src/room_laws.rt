//! Laws: the choices and arguments of a sound design of a text fit into the bits that there are for them, and its
//! numbers are small.
ghost use Rattle.tm_flat.specs.BitStep.{HasRoom};
ghost use Rattle.tm_flat.specs.Inputs.{AreSmall};
ghost use Rattle.tm_syntax.specs.declared.design.Design as resolved;
ghost use Rattle.tm_syntax.specs.Design.View.{design_tree};
ghost use Rattle.tm_syntax.specs.Faults.{IsOfText, IsSound};

/// In a design of a text that keeps its facts, what is done from one location to the next and in each controllable task
/// fits into the bits that there are for choices, and the arguments of each such task fit into those for arguments.
pub fn sound_designs_of_texts_have_room()
    ensures { (d : resolved.Design) → IsSound (design_tree d) → IsOfText (design_tree d).spec
        → HasRoom (design_tree d) }
{}

/// The numbers of a design of a text that keeps its facts, of which a memory holds the lists, are each written in at
/// most 64 bits.
pub fn sound_designs_of_texts_are_small()
    ensures { (d : resolved.Design) → IsSound (design_tree d) → IsOfText (design_tree d).spec
        → AreSmall (design_tree d) }
{}

//! What a checked text settles of the cells of its designs: their types, the values that they can have, the values of
//! constants, and where arrays end.
ghost use Rattle.tm_syntax.specs.Design.{DesignTree, IsDesign};
ghost use Rattle.tm_syntax.specs.Faults.{IsOfText, IsSound, IsTyped};
ghost use Rattle.tm_design.specs.Settled.{AreSettled};
ghost use Rattle.tm_design.specs.Values.{HasParameters, HasValues};

/// In the design of a checked tree each cell that a path means has the type that the text says, each enum constant is a
/// value of its type, and no array has an element past its end.
#[tactic(auto, using(crate::proofs::SettledDesigns::checked_settled))]
pub fn designs_of_checked_texts_are_settled()
    ensures { (d : DesignTree) → IsTyped d.spec → IsDesign d → AreSettled d }
{}

/// So it is in a design of a text that keeps its facts.
#[tactic(auto, using(crate::proofs::SettledDesigns::settled))]
pub fn sound_designs_of_texts_are_settled()
    ensures { (d : DesignTree) → IsSound d → IsOfText d.spec → AreSettled d }
{}

/// In the design of a checked tree each type that is named has values, and declared values and enum constants are some
/// of their types.
pub fn designs_of_checked_texts_have_values()
    ensures { (d : DesignTree) → IsTyped d.spec → IsDesign d → HasValues d }
{}

/// In the design of a checked tree each parameter of a task has a cell, which is of its type.
#[tactic(auto, using(crate::proofs::ParamCells::parameters))]
pub fn tasks_of_checked_texts_have_parameters()
    ensures { (d : DesignTree) → IsTyped d.spec → IsDesign d → HasParameters d }
{}

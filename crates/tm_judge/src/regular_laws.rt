//! Laws: what is asked of designs where certificates are tried holds of those of texts.
ghost use Rattle.tm_verdict.specs.Regular.{IsRegular};
ghost use Rattle.tm_sem.specs.State.{StateData};
ghost use Rattle.tm_sem.specs.Step.{IsInitial};
ghost use Rattle.tm_syntax.specs.declared.design.Design as resolved;
ghost use Rattle.tm_syntax.specs.Design.{DesignTree};
ghost use Rattle.tm_syntax.specs.Design.View.{design_tree};
ghost use Rattle.tm_syntax.specs.Faults.{IsOfText, IsSound};

/// In a design of a text that keeps its facts all steps fit into the bits that there are for choices and arguments, a
/// step from a valid state leads to a valid one, and every initial state is valid.
pub fn sound_designs_of_texts_are_regular()
    ensures { (d : resolved.Design) → IsSound (design_tree d) → IsOfText (design_tree d).spec
        → IsRegular (design_tree d) }
{}

/// Such a design has an initial state.
pub fn sound_designs_of_texts_have_initial_states()
    ensures { (d : DesignTree) → IsSound d → IsOfText d.spec → (s : StateData) × IsInitial d s }
{}

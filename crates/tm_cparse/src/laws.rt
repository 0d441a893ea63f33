//! Which designs have names in C.
ghost use Rattle.tm_syntax.specs.Design.{DesignTree};
ghost use Rattle.tm_syntax.specs.Faults.{IsOfText, IsSound};
ghost use Rattle.tm_cparse.specs.Faults.{HasNames};

/// The variables, processes and tasks of a design of a text have names in C, where the design keeps its facts: so the
/// reader is exact over it.
pub fn sound_designs_have_names()
    ensures { (d : DesignTree) → IsOfText d.spec → IsSound d → HasNames d }
{}

//! A law: what a sound design of a text has that its runs ask for.
ghost use Rattle.tm_syntax.specs.Design.{DesignTree};
ghost use Rattle.tm_syntax.specs.Faults.{IsOfText, IsSound};
ghost use Rattle.tm_design.specs.Runnable.{IsFit};

/// In a design of a text that keeps its facts each cell that a path means has the type that the text says, each
/// parameter of a task has a cell of its type, the parameters of controllable tasks that are numbers have 1 to 64 bits,
/// and processes and locations are so few that a state can number them.
pub fn sound_designs_of_texts_are_fit()
    ensures { (d : DesignTree) → IsSound d → IsOfText d.spec → IsFit d }
{}

//! A law: what a sound design of a text has that the terms of what it says of states ask for.
ghost use Rattle.tm_syntax.specs.declared.design.Design as resolved;
ghost use Rattle.tm_syntax.specs.Design.View.{design_tree};
ghost use Rattle.tm_syntax.specs.Faults.{IsOfText, IsSound};
ghost use Rattle.tm_flat_states.specs.Markable.{IsMarkable};

/// A design of a text that keeps its facts, of which a memory holds the lists, has types with values, goals and
/// fairness conditions that are truths over settled cells, parameters with cells, small numbers, and no more inputs
/// than can be numbered.
pub fn sound_designs_of_texts_are_markable()
    ensures { (d : resolved.Design) → IsSound (design_tree d) → IsOfText (design_tree d).spec → IsMarkable d }
{}

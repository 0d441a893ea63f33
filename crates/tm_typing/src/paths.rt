//! What the paths of a design of a text are made of, and how many variables a design within its limits has.

ghost use Rattle.std.specs.Prelude.{◌≤◌, ℕ, List, length};
ghost use Rattle.tm_syntax.specs.Tokens.{IsWordLike};
ghost use Rattle.tm_syntax.specs.Design.{DesignTree, IsDesign};
ghost use Rattle.tm_syntax.specs.Faults.{IsOfText, IsSound};
ghost use Rattle.tm_typing.specs.Paths.{IsPathText, HasPathTexts, underscored};

/// In a design of a text the path of each variable, process, controllable task, goal and fairness condition begins as a
/// name does, and goes on with bytes of names and with dots.
pub fn items_have_path_texts()
    ensures { (d : DesignTree) → IsOfText d.spec → IsDesign d → HasPathTexts d }
{}

/// The text of a path with `_` in the place of each dot is a word.
pub fn underscored_paths_are_words()
    ensures { (path : List ℕ) → IsPathText path → IsWordLike (underscored path) }
{}

/// A design that keeps its facts has at most 256 variables, since each of them has a bit.
pub fn sound_designs_have_few_variables()
    ensures { (d : DesignTree) → IsSound d → length d.vars ≤ 256 }
{}

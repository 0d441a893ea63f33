//! A law: what a sound design of a text has that the steps of its controllable tasks ask for.
ghost use Rattle.std.specs.Prelude.{List, length};
ghost use Rattle.tm_syntax.specs.declared.design.Design as resolved;
ghost use Rattle.tm_syntax.specs.Design.View.{design_tree};
ghost use Rattle.tm_syntax.specs.Faults.{IsOfText, IsSound};
ghost use Rattle.tm_locations.specs.declared.table.Locations as located;
ghost use Rattle.tm_plain.specs.Machine.{AreLocated};
ghost use Rattle.tm_flat_moves.specs.Callable.{AreCallable};

/// The controllable tasks of a design of a text that keeps its facts may be called, by the locations of its processes:
/// its bodies may be walked, their choices and arguments fit into the bits that there are for them, in each design of
/// its text with the same instances and variables, and its numbers are small.
pub fn sound_designs_of_texts_are_callable()
    ensures { (d : resolved.Design) → IsSound (design_tree d) → IsOfText (design_tree d).spec
        → (all : List located.Locations) → AreLocated d (length d.processes.items) all → AreCallable d all }
{}

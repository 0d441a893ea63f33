//! Laws: what a sound design of a text has that walks through its bodies ask for, in each design of its tables.
ghost use Rattle.std.specs.Prelude.{◌≡◌, ℕ, List};
ghost use Rattle.tm_syntax.specs.declared.design.Design as resolved;
ghost use Rattle.tm_syntax.specs.Design.{DesignTree};
ghost use Rattle.tm_syntax.specs.Design.View.{design_tree};
ghost use Rattle.tm_syntax.specs.Design.Work.{WorkItem};
ghost use Rattle.tm_syntax.specs.Faults.{IsOfText, IsSound};
ghost use Rattle.tm_flat.specs.Fitting.{ItemsFit};
ghost use Rattle.tm_locations.specs.Locations.{AreLocations, LocationTable};
ghost use Rattle.tm_flat_bodies.specs.Walks.{AreWalkable};
ghost use Rattle.tm_flat_design.specs.Tables.{walk_tables};

/// The bodies of a design of a text that keeps its facts may be walked, by its tables and by those of the locations of
/// each process: cells are settled, the parameters and locals of each body have names of their own, and what the
/// statements of a task value, assign and call has the types that their places ask for.
pub fn sound_designs_of_texts_are_walkable()
    ensures { (d : resolved.Design) → IsSound (design_tree d) → IsOfText (design_tree d).spec → (l : LocationTable)
        (p first : ℕ) → AreLocations l (design_tree d) p → AreWalkable (walk_tables d l first) }
{}

/// Work items that fit into a room from a position on in one design fit into it in each design with its text, its
/// instances and its variables.
pub fn designs_of_one_text_fit_alike()
    ensures { (d e : DesignTree) → d.spec ≡ e.spec → d.instances ≡ e.instances → d.vars ≡ e.vars → (room : ℕ)
        (items : List WorkItem) (k : ℕ) → ItemsFit room d items k → ItemsFit room e items k }
{}

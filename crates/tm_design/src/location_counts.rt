//! Laws: the locations of the processes of a design are as many as its text counts.
ghost use Rattle.std.specs.Prelude.{◌≡◌, ◌+◌, ℕ, Some};
ghost use Rattle.tm_syntax.specs.Design.{DesignTree};
ghost use Rattle.tm_syntax.specs.Design.Locations.{Thread, end_number, thread};
ghost use Rattle.tm_syntax.specs.Design.Scope.{Site, site};
ghost use Rattle.tm_syntax.specs.Counts.Bodies.{process_locations};
ghost use Rattle.tm_syntax.specs.Faults.{IsOfText, IsSound};
ghost use Rattle.tm_design.specs.ProcessTexts.{process_text};

/// In a design of a text that keeps its facts a process has as many locations as its text counts, its start and its end
/// among them.
pub fn processes_have_the_locations_of_their_text()
    ensures { (d : DesignTree) → IsSound d → IsOfText d.spec → (p : ℕ) (t : Thread) (s : Site) → thread d p ≡ Some t
        → site d t.scope.instance ≡ Some s → process_locations (process_text d s t) ≡ end_number d p + 1 }
{}

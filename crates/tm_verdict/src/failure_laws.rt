//! Laws: where the parts of a certificate fail, in terms of predecessors of sets.
ghost use Rattle.std.specs.Prelude.{◌≡◌, ◌↔◌, ℕ};
ghost use Rattle.tm_verdict.specs.Found.{IsFound, NamesStates, RestsOn};
ghost use Rattle.tm_verdict.specs.Regular.{IsDriver, IsRegular};
ghost use Rattle.tm_sem.specs.declared.state.Move.{Move};
ghost use Rattle.tm_sem.specs.Certificates.{DriverSets};
ghost use Rattle.tm_sem.specs.State.{StateData};
ghost use Rattle.tm_sem.specs.Step.{IsState};
ghost use Rattle.tm_syntax.specs.Design.{DesignTree};
ghost use Rattle.tm_verdict.specs.Driver.{DriverPart, FailsAt, Passes};

/// A part of a driver's certificate fails exactly at the valid states at which it is found to, given that the parts
/// pass that are tried before it and on which it rests.
pub fn driver_parts_fail_where_they_are_found_to()
    ensures { (d : DesignTree) (answers : StateData → ℕ → Move) (c : DriverSets) → IsRegular d
        → IsDriver (λ s g move. answers s g ≡ move) → (part : DriverPart)
        → RestsOn d (λ s g move. answers s g ≡ move) c part → (s : StateData)
        → FailsAt d (λ s g move. answers s g ≡ move) c part s
        ↔ (IsState d s × IsFound d (λ s g move. answers s g ≡ move) c part s) }
{}

/// A part that fails nowhere passes, unless it asks for a state.
pub fn driver_parts_that_fail_nowhere_pass()
    ensures { (d : DesignTree) (answers : StateData → ℕ → Move) (c : DriverSets) → IsRegular d → (part : DriverPart)
        → NamesStates part → ((s : StateData) → ¬ FailsAt d (λ s g move. answers s g ≡ move) c part s)
        → Passes d (λ s g move. answers s g ≡ move) c part }
{}

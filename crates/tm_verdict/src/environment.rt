//! Where the parts of an environment's certificate fail.
ghost use Rattle.std.specs.Prelude.{◌↔◌, List};
ghost use Rattle.tm_verdict.specs.Levels.{IsDecided, IsFound, NamesStates, RestsOn};
ghost use Rattle.tm_verdict.specs.Regular.{IsRegular};
ghost use Rattle.tm_sem.specs.Certificates.{Level};
ghost use Rattle.tm_sem.specs.State.{StateData};
ghost use Rattle.tm_sem.specs.Step.{IsState};
ghost use Rattle.tm_syntax.specs.Design.{DesignTree};
ghost use Rattle.tm_verdict.specs.Environment.{FailsAt, LevelPart, Passes};

/// A part of an environment's certificate fails exactly at the valid states at which it is found to, given that the
/// part passes on which it rests.
pub fn level_parts_fail_where_they_are_found_to()
    ensures { (d : DesignTree) (levels : List Level) → IsRegular d → (part : LevelPart) → RestsOn d levels part
        → (s : StateData) → FailsAt d levels part s ↔ (IsState d s × IsFound d levels part s) }
{}

/// A part that fails nowhere passes, given the part on which it rests, and that it is decided at each valid state
/// whether it is as asked; unless the part asks for a state.
pub fn level_parts_that_fail_nowhere_pass()
    ensures { (d : DesignTree) (levels : List Level) → IsRegular d → (part : LevelPart) → NamesStates part
        → RestsOn d levels part → ((s : StateData) → IsState d s → IsDecided d levels part s)
        → ((s : StateData) → ¬ FailsAt d levels part s) → Passes d levels part }
{}

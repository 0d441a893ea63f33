//! The law that certificates whose sets agree at the valid states are judged alike.
#![tactic(auto)]

ghost use Rattle.std.specs.Prelude.{◌≡◌, ◌↔◌, ℕ, List};
ghost use Rattle.tm_agreement.specs.Agreement.{DriversAgree, LevelsAgree};
ghost use Rattle.tm_verdict.specs.Regular.{IsRegular};
ghost use Rattle.tm_sem.specs.Certificates.{DriverSets, IsGoodMove, Level, MeetsDriver, MeetsEnvironment, MeetsMoveForm};
ghost use Rattle.tm_sem.specs.State.{StateData};
ghost use Rattle.tm_sem.specs.Step.{IsState};
ghost use Rattle.tm_sem.specs.declared.state.Move.{Move};
ghost use Rattle.tm_syntax.specs.Design.{DesignTree};
ghost use Rattle.tm_verdict.specs.Driver as driver;
ghost use Rattle.tm_verdict.specs.Environment as environment;

/// Drivers' certificates whose sets agree at the valid states meet the same conditions, have the same good moves, and
/// are refused alike: with the same condition, goal and state.
pub fn agreeing_drivers_are_judged_alike()
    ensures meets { (d : DesignTree) (answers : StateData → ℕ → Move) (x y : DriverSets) → IsRegular d
        → DriversAgree d x y
        → (MeetsDriver d (λ s g move. answers s g ≡ move) x ↔ MeetsDriver d (λ s g move. answers s g ≡ move) y) }
    ensures good { (d : DesignTree) (x y : DriverSets) (goal : ℕ) (s : StateData) (move : Move) → IsRegular d
        → DriversAgree d x y → IsState d s → (IsGoodMove d x goal s move ↔ IsGoodMove d y goal s move) }
    ensures move_form { (d : DesignTree) (x y : DriverSets) → IsRegular d → DriversAgree d x y
        → (MeetsMoveForm d x ↔ MeetsMoveForm d y) }
    ensures refused { (d : DesignTree) (answers : StateData → ℕ → Move) (x y : DriverSets) (condition goal : ℕ)
        (s : StateData) → IsRegular d → DriversAgree d x y
        → (driver.IsRefused d (λ s g move. answers s g ≡ move) x condition goal s
        ↔ driver.IsRefused d (λ s g move. answers s g ≡ move) y condition goal s) }
{}

/// Environments' certificates whose sets agree at the valid states meet the same conditions, and are refused alike.
pub fn agreeing_environments_are_judged_alike()
    ensures meets { (d : DesignTree) (x y : List Level) → LevelsAgree d x y
        → (MeetsEnvironment d x ↔ MeetsEnvironment d y) }
    ensures refused { (d : DesignTree) (x y : List Level) (condition goal : ℕ) (s : StateData) → LevelsAgree d x y
        → (environment.IsRefused d x condition goal s ↔ environment.IsRefused d y condition goal s) }
{}

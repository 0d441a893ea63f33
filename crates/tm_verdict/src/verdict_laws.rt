//! What checkers of certificates answer, and laws on the conditions that they try: part by part, in order.
ghost use Rattle.std.specs.Prelude.{◌≡◌, ◌↔◌, ℕ, List, length};
ghost use Rattle.std.specs.List.{AllByRecursion};
ghost use Rattle.tm_syntax.specs.Design.{DesignTree};
ghost use Rattle.tm_sem.specs.declared.state.Move.{Move};
ghost use Rattle.tm_sem.specs.State.{StateData};
ghost use Rattle.tm_sem.specs.Certificates.{DriverSets, Level, MeetsDriver, MeetsEnvironment, WaitForConditions};
ghost use Rattle.tm_verdict.specs.Driver as driver;
ghost use Rattle.tm_verdict.specs.Driver.{driver_parts};
ghost use Rattle.tm_verdict.specs.Environment as environment;
ghost use Rattle.tm_verdict.specs.Environment.{HasShape, level_parts};

/// Sets are a driver's certificate exactly where all parts of its conditions pass, given as many goals as the design
/// has, and ranked regions that wait for its fairness conditions.
pub fn drivers_pass_part_by_part()
    ensures { (d : DesignTree) (answers : StateData → ℕ → Move) (c : DriverSets) → length c.goals ≡ length d.goals
        → WaitForConditions d c → MeetsDriver d (λ s g move. answers s g ≡ move) c
        ↔ AllByRecursion (driver.Passes d (λ s g move. answers s g ≡ move) c) (driver_parts c) }
{}

/// A certificate that is refused is none.
pub fn refused_drivers_are_not_certified()
    ensures { (d : DesignTree) (answers : StateData → ℕ → Move) (c : DriverSets) (condition goal : ℕ) (s : StateData)
        → driver.IsRefused d (λ s g move. answers s g ≡ move) c condition goal s
        → ¬ MeetsDriver d (λ s g move. answers s g ≡ move) c }
{}

/// Levels are an environment's certificate exactly where all parts of its conditions pass, given goals of the design
/// and a chain for each of its fairness conditions.
pub fn environments_pass_part_by_part()
    ensures { (d : DesignTree) (levels : List Level) → HasShape d levels
        → MeetsEnvironment d levels ↔ AllByRecursion (environment.Passes d levels) (level_parts levels) }
{}

/// Levels that are refused are no certificate.
pub fn refused_environments_are_not_certified()
    ensures { (d : DesignTree) (levels : List Level) (condition goal : ℕ) (s : StateData)
        → environment.IsRefused d levels condition goal s → ¬ MeetsEnvironment d levels }
{}

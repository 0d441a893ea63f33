//! What the iterates of a solution certify, where the step operator is the exact one of a design.
ghost use Rattle.std.specs.Prelude.{◌↔◌, ℕ, List};
ghost use Rattle.tm_sem.specs.Certificates.{C1, DriverSets, Level, MeetsEnvironment, MeetsMoveForm};
ghost use Rattle.tm_solve.specs.Exact.{IsGameOf, LeavesOut, MeetsLevels, MeetsRanks};
ghost use Rattle.tm_solve.specs.Game.{Game, IsAbsorbing, IsMonotone};
ghost use Rattle.tm_solve.specs.Levels.{LevelsFit};
ghost use Rattle.tm_solve.specs.Operator.{game_of, Operator, Rises};
ghost use Rattle.tm_solve.specs.Ranks.{RanksFit};
ghost use Rattle.tm_solve.specs.Sets.{StateSet};
ghost use Rattle.tm_solve.specs.Sides.{IsBelow, with_part};
ghost use Rattle.tm_sem.specs.State.{StateData};
ghost use Rattle.tm_syntax.specs.Design.{DesignTree};

/// Over the exact operator ranked sets meet all conditions of a driver's certificate in its move form but the one on
/// initial states, and that one too exactly where the region holds each initial state.
pub fn ranked_sets_are_certified()
    ensures conditions { (d : DesignTree) (op : Operator) (g : Game) (c : DriverSets) → IsGameOf d op g
        → RanksFit g c → MeetsRanks d c }
    ensures whole { (d : DesignTree) (op : Operator) (g : Game) (c : DriverSets) → IsGameOf d op g → RanksFit g c
        → (C1 d c ↔ MeetsMoveForm d c) }
{}

/// Over the exact operator levels meet all conditions of an environment's certificate but the one on initial states,
/// and that one too exactly where the region leaves one out.
pub fn levels_are_certified()
    ensures conditions { (d : DesignTree) (op : Operator) (g : Game) (region : StateSet) (levels : List Level)
        → IsGameOf d op g → LevelsFit g region levels → MeetsLevels d levels }
    ensures whole { (d : DesignTree) (op : Operator) (g : Game) (region : StateSet) (levels : List Level)
        → IsGameOf d op g → LevelsFit g region levels → (LeavesOut d region ↔ MeetsEnvironment d levels) }
{}

/// A step operator that is told by tests has the laws of step operators, where the states from which the driver stays
/// in a set grow with the set.
pub fn told_operators_are_lawful()
    ensures monotone { (n : List StateData) (goals fairs : ℕ) (op : Operator) → Rises n op
        → IsMonotone (game_of n goals fairs op) }
    ensures absorbing { (n : List StateData) (goals fairs : ℕ) (op : Operator) → Rises n op
        → IsAbsorbing (game_of n goals fairs op) }
{}

/// Ranked sets of a lower step operator are ranked sets of a higher one, and levels of a higher one are levels of a
/// lower one. So those of the lower and of the upper part of the exact operator are certificates as well (de Alfaro and
/// Roy 2007).
pub fn sides_are_certified()
    ensures ranks { (g : Game) (part : StateSet → StateSet → StateSet → ℕ → ℕ → StateSet) (c : DriverSets)
        → IsBelow g.states g.part part → RanksFit g c → RanksFit (with_part g part) c }
    ensures levels { (g : Game) (part : StateSet → StateSet → StateSet → ℕ → ℕ → StateSet) (region : StateSet)
        (levels : List Level) → IsBelow g.states part g.part → LevelsFit g region levels
        → LevelsFit (with_part g part) region levels }
{}

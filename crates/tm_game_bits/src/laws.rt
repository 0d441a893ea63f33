//! Laws over the definitions alone.
ghost use Rattle.std.specs.Prelude.{◌≡◌, ◌⊎◌, ℕ, true};
ghost use Rattle.tm_game_bits.specs.Forcing.{Forced, IsCalm, IsLegalMove, Stays};
ghost use Rattle.tm_game_bits.specs.Functions.{Assignment, Function, GameFunctions, StepFunctions, outside};
ghost use Rattle.tm_game_bits.specs.States.{AgreeOn, AreOneState, IsGameOver, IsStepOver, ReadsState};

/// At a valid state the environment forces the state into a set, or the driver stays in all that the set leaves out,
/// and at no state both.
pub fn states_are_forced_in_or_stay_out()
    ensures either { (g : GameFunctions) (into : Function) (v : Assignment) → g.valid v ≡ true
        → Forced g into v ⊎ Stays g (outside into) v }
    ensures not_both { (g : GameFunctions) (into : Function) (v : Assignment) → Forced g into v
        → ¬ Stays g (outside into) v }
{}

/// Where the driver stays in a set, it stays in every greater one.
pub fn stays_rise_with_their_sets()
    ensures stays { (g : GameFunctions) (a b : Function) → ((w : Assignment) → a w ≡ true → b w ≡ true)
        → (v : Assignment) → Stays g a v → Stays g b v }
    ensures calm { (g : GameFunctions) (a b : Function) → ((w : Assignment) → a w ≡ true → b w ≡ true)
        → (v : Assignment) → IsCalm g a v → IsCalm g b v }
{}

/// What a game over states makes of a set of states is told by the state alone, and a step's moves by the state and the
/// step's arguments.
pub fn predecessors_are_sets_of_states()
    ensures moves { (count : ℕ) (g : GameFunctions) → IsGameOver count g → (a : Function) → ReadsState count a
        → (step : StepFunctions) → IsStepOver count step → (v w : Assignment) → AreOneState count v w
        → AgreeOn step.arguments v w → IsLegalMove g a step v → IsLegalMove g a step w }
    ensures calm { (count : ℕ) (g : GameFunctions) → IsGameOver count g → (a : Function) → ReadsState count a
        → (v w : Assignment) → AreOneState count v w → IsCalm g a v → IsCalm g a w }
    ensures stays { (count : ℕ) (g : GameFunctions) → IsGameOver count g → (a : Function) → ReadsState count a
        → (v w : Assignment) → AreOneState count v w → Stays g a v → Stays g a w }
    ensures forced { (count : ℕ) (g : GameFunctions) → IsGameOver count g → (a : Function) → ReadsState count a
        → (v w : Assignment) → AreOneState count v w → Forced g a v → Forced g a w }
{}

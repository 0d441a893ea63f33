//! Games over bits that are games of a design: what is forced in one of them is what is forced in the other.
ghost use Rattle.std.specs.Prelude.{◌≡◌, ◌↔◌, true};
ghost use Rattle.tm_game_bits.specs.Coding.{Coding, IsCoding, IsIn};
ghost use Rattle.tm_game_bits.specs.GameOf.{IsGameOf, IsMoveAt};
ghost use Rattle.tm_game_bits.specs.Forcing as bits;
ghost use Rattle.tm_game_bits.specs.Functions.{Assignment, Function, GameFunctions, StepFunctions};
ghost use Rattle.tm_game_bits.specs.States.{ReadsState};
ghost use Rattle.tm_sem.specs.Forcing.{Forced, IsCalm, Keeps, Stays};
ghost use Rattle.tm_sem.specs.Step.{IsAllowed, IsState, is_driver_move};
ghost use Rattle.tm_sem.specs.declared.state.Move.{Move};
ghost use Rattle.tm_syntax.specs.Design.{DesignTree};

/// Of a set of states the predecessors in a game over bits that is a design's are those of the design.
pub fn predecessors_are_those_of_the_design()
    ensures calm { (d : DesignTree) (c : Coding) (g : GameFunctions) → IsCoding d c → IsGameOf d c g
        → (set : Function) → ReadsState c.count set → (v : Assignment)
        → bits.IsCalm g set v ↔ (IsState d (c.state_of v) × IsCalm d (IsIn c set) (c.state_of v)) }
    ensures stays { (d : DesignTree) (c : Coding) (g : GameFunctions) → IsCoding d c → IsGameOf d c g
        → (set : Function) → ReadsState c.count set → (v : Assignment)
        → bits.Stays g set v ↔ Stays d (IsIn c set) (c.state_of v) }
    ensures forced { (d : DesignTree) (c : Coding) (g : GameFunctions) → IsCoding d c → IsGameOf d c g
        → (set : Function) → ReadsState c.count set → (v : Assignment)
        → bits.Forced g set v ↔ (IsState d (c.state_of v) × Forced d (IsIn c set) (c.state_of v)) }
    ensures moves { (d : DesignTree) (c : Coding) (g : GameFunctions) → IsCoding d c → IsGameOf d c g
        → (set : Function) → ReadsState c.count set → (v : Assignment) (step : StepFunctions) (move : Move)
        → is_driver_move move ≡ true → IsMoveAt d c step move v → bits.IsLegalMove g set step v
        ↔ (IsState d (c.state_of v) × IsAllowed d (c.state_of v) move × Keeps d (IsIn c set) (c.state_of v) move) }
{}

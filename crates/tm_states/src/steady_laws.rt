//! A law: a step from a valid state leads to a valid one.
ghost use Rattle.std.specs.Prelude.{List, ℕ};
ghost use Rattle.tm_syntax.specs.Design.{DesignTree};
ghost use Rattle.tm_syntax.specs.Faults.{IsOfText, IsSound};
ghost use Rattle.tm_sem.specs.State.{StateData};
ghost use Rattle.tm_sem.specs.Step.{IsState, LeadsToState, Step};
ghost use Rattle.tm_sem.specs.declared.state.Move.{Move};
ghost use Rattle.tm_sem.specs.declared.state.Outcome.{Outcome};

/// In a design of a text that keeps its facts a move from a valid state, with whatever choices, leads to a valid state,
/// if it leads to a state.
pub fn valid_states_lead_to_valid_ones()
    ensures { (d : DesignTree) → IsSound d → IsOfText d.spec → (s : StateData) (move : Move) (choices : List ℕ)
        (o : Outcome) → IsState d s → Step d s move choices o → LeadsToState d o }
{}

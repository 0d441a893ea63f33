//! Laws: where a move can lead is decided, since its choices are read from so many bits.
ghost use Rattle.std.specs.Prelude.{◌≡◌, ◌⊎◌, Bool, true, false};
ghost use Rattle.tm_flat.specs.BitStep.{HasRoom};
ghost use Rattle.tm_sem.specs.declared.state.Move.{Move};
ghost use Rattle.tm_sem.specs.Forcing.{IsCalm, Keeps, Leads};
ghost use Rattle.tm_sem.specs.State.{StateData};
ghost use Rattle.tm_sem.specs.Step.{IsAllowed, is_driver_move};
ghost use Rattle.tm_syntax.specs.Design.{DesignTree};

/// In a design whose steps fit into the bits that there are for choices, a move keeps to a set, or some choices err or
/// lead out of it. So it is with all moves of the environment together.
pub fn moves_keep_or_lead_out()
    ensures one { (d : DesignTree) → HasRoom d → (s : StateData) (move : Move) (set : StateData → Bool)
        → Keeps d (λ t. set t ≡ true) s move ⊎ Leads d (λ t. set t ≡ false) s move }
    ensures environment { (d : DesignTree) → HasRoom d → (s : StateData) (set : StateData → Bool)
        → IsCalm d (λ t. set t ≡ true) s
        ⊎ ((move : Move) × (is_driver_move move ≡ false) × Leads d (λ t. set t ≡ false) s move) }
{}

/// In such a design a move is allowed or not.
pub fn moves_are_allowed_or_not()
    ensures { (d : DesignTree) → HasRoom d → (s : StateData) (move : Move)
        → IsAllowed d s move ⊎ (¬ IsAllowed d s move) }
{}

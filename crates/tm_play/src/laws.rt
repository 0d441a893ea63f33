//! What the definitions of a play determine.
ghost use Rattle.std.specs.Prelude.{◌≡◌, ℕ, List};
ghost use Rattle.tm_syntax.specs.Design.{DesignTree};
ghost use Rattle.tm_cir.specs.Tree.{BlockTree};
ghost use Rattle.tm_play.specs.declared.ending.PlayEnd.{PlayEnd};
ghost use Rattle.tm_play.specs.Script.{ScriptData};
ghost use Rattle.tm_play.specs.Played.{Ends};

/// A text of choices has one end, so a play stops exactly at its first step that has no next state.
#[tactic(auto, using(crate::proofs::OneEnd::one_end))]
pub fn ends_are_determined()
    ensures { (d : DesignTree) (bs : List BlockTree) (c : ScriptData) (text other_text : List ℕ) (end other : PlayEnd)
        → Ends d bs c text end → Ends d bs c other_text other → (text ≡ other_text) × (end ≡ other) }
{}

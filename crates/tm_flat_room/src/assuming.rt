//! Which answers of a driver are allowed in designs without `assume`.
ghost use Rattle.std.specs.Prelude.{◌≡◌, true, false, List, ℕ, is_some};
ghost use Rattle.tm_syntax.specs.declared.token.Token.{Token};
ghost use Rattle.tm_syntax.specs.Design.{DesignTree};
ghost use Rattle.tm_syntax.specs.Faults.{IsOfText, IsSound};
ghost use Rattle.tm_syntax.specs.Grammar.Faults.{IsTree};
ghost use Rattle.tm_syntax.specs.Tree.{SpecTree};
ghost use Rattle.tm_sem.specs.State.{StateData};
ghost use Rattle.tm_sem.specs.Step.{is_driver_move, work, IsAllowed, IsState};
ghost use Rattle.tm_sem.specs.declared.state.Move.{Move};
ghost use Rattle.tm_flat_room.specs.Assuming.{has_assume, AssumesNothing};

use tm_syntax::token::{Token, TokenKind, Word};

/// Whether the word `assume` stands among tokens. It takes no memory.
pub fn has_assume(tokens: &[Token]) -> bool
    ensures { result ≡ has_assume tokens.now }
{
    tokens
        .iter()
        .any(|t| t.kind == TokenKind::Word(Word::Assume))
}

/// A text without the word `assume` assumes nothing.
#[tactic(auto, using(crate::proofs::Plain::plain_tree))]
pub fn texts_without_the_word_assume_nothing()
    ensures { (text : List ℕ) (tokens : List Token) (spec : SpecTree) → IsTree text tokens spec
        → has_assume tokens ≡ false → AssumesNothing spec }
{}

/// In a design that assumes nothing a driver's move is allowed where the turn rule permits it: the driver can be
/// picked, the arguments are in range, and a leave is of a process at a magic block. Each run ends then for some
/// choices.
pub fn permitted_moves_are_allowed()
    ensures { (d : DesignTree) (s : StateData) (move : Move) → IsSound d → IsOfText d.spec → AssumesNothing d.spec
        → IsState d s → is_driver_move move ≡ true → is_some (work d s move) ≡ true
        → IsAllowed d s move }
{}

//! What structured drivers, their texts and the shapes of blocks come to.
ghost use Rattle.std.specs.Prelude.{◌≡◌, ◌↔◌, ℕ, List};
ghost use Rattle.tm_syntax.specs.Design.{DesignTree};
ghost use Rattle.tm_sem.specs.State.{StateData};
ghost use Rattle.tm_sem.specs.declared.state.Move.{Move};
ghost use Rattle.tm_cir.specs.Tree.{BlockTree};
ghost use Rattle.tm_cir.specs.Fit.{FitBlocks};
ghost use Rattle.tm_cir.specs.Answer.{Answers};
ghost use Rattle.tm_struct.specs.Tree.{ProgramTree};
ghost use Rattle.tm_struct.specs.Fit.{FitsProgram};
ghost use Rattle.tm_struct.specs.Answer.{AnswersSo};
ghost use Rattle.tm_struct.specs.Shape.{IsShape, move_count, HasMoves};
ghost use Rattle.tm_struct.specs.Text.{IsStructuredText};

/// A structured driver has one answer at a state, so what `answer_structured` answers is all that the definitions
/// allow.
pub fn structured_answers_are_determined()
    ensures { (p : ProgramTree) (s : StateData) (goal : ℕ) (one other : Move)
        → AnswersSo p s goal one → AnswersSo p s goal other → one ≡ other }
{}

/// A structured driver that is well made over a design has an answer at each state.
pub fn structured_drivers_always_answer()
    ensures { (d : DesignTree) (p : ProgramTree) (s : StateData) (goal : ℕ) → FitsProgram d p
        → (move : Move) × AnswersSo p s goal move }
{}

/// A text is one structured driver over a design.
pub fn structured_texts_are_determined()
    ensures { (d : DesignTree) (text : List ℕ) (one other : ProgramTree)
        → IsStructuredText d text one → IsStructuredText d text other → one ≡ other }
{}

/// The shape of blocks that fit a design is well made over it, answers as the blocks do, and has as many calls and
/// leaves as blocks that are reached are such.
pub fn shapes_answer_as_their_blocks()
    ensures fits { (d : DesignTree) (bs : List BlockTree) (p : ProgramTree) → FitBlocks d bs → IsShape bs p
        → FitsProgram d p }
    ensures count { (d : DesignTree) (bs : List BlockTree) (p : ProgramTree) → FitBlocks d bs → IsShape bs p
        → HasMoves bs (move_count p) }
    ensures same { (d : DesignTree) (bs : List BlockTree) (p : ProgramTree) → FitBlocks d bs → IsShape bs p
        → (s : StateData) (goal : ℕ) (m : Move) → AnswersSo p s goal m ↔ Answers bs s goal m }
{}

/// Blocks that fit a design have one shape.
pub fn blocks_have_one_shape()
    ensures { (d : DesignTree) (bs : List BlockTree) (one other : ProgramTree) → FitBlocks d bs
        → IsShape bs one → IsShape bs other → one ≡ other }
{}

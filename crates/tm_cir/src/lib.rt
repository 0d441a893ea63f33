//! A driver as blocks of C, and the driver's answer at a state.
#![tactic(auto)]

ghost use Rattle.std.specs.Prelude.{◌≡◌, ℕ, List, length, map};
ghost use Rattle.tm_syntax.specs.Design.{DesignTree, IsDesign};
ghost use Rattle.tm_sem.specs.State.{StateData};
ghost use Rattle.tm_sem.specs.declared.state.Move.{Move};
ghost use Rattle.tm_sem.specs.Strategy.{Good};
ghost use Rattle.tm_sem.specs.Certificates.{DriverSets, MeetsDriver};
ghost use Rattle.tm_cir.specs.Tree.{BlockTree};
ghost use Rattle.tm_cir.specs.Fit.{FitBlocks};
ghost use Rattle.tm_cir.specs.Answer.{Answers};
ghost use Rattle.tm_cir.specs.Text.{IsDriverText};

mod answering;
pub mod block;
mod blocks;
pub mod evaluation;
mod fit;

pub use answering::{answer, arguments};
pub use block::{Block, Num64, Truth};
pub use blocks::Blocks;
pub use fit::parameter_count;

/// Blocks have one answer at a state, so what `answer` answers is all that the definitions allow.
#[tactic(auto, using(crate::proofs::Determined::one_answer))]
pub fn answers_are_determined()
    ensures { (bs : List BlockTree) (s : StateData) (goal : ℕ) (one other : Move)
        → Answers bs s goal one → Answers bs s goal other → one ≡ other }
{}

/// Blocks that fit a design have an answer at each state.
pub fn blocks_always_answer()
    ensures { (d : DesignTree) (bs : List BlockTree) (s : StateData) (goal : ℕ) → FitBlocks d bs
        → (move : Move) × Answers bs s goal move }
{}

/// Blocks with a certificate are a good driver: no play that they drive meets an error or a forbidden move, and any
/// stretch in which a goal is pending and holds nowhere has fewer rounds than the goal has ranked regions.
pub fn certified_blocks_are_good()
    ensures { (d : DesignTree) (bs : List BlockTree) (c : DriverSets) → IsDesign d → FitBlocks d bs
        → MeetsDriver d (Answers bs) c → Good d (Answers bs) (map length c.goals) }
{}

/// A text is one list of blocks over a design.
pub fn driver_texts_are_determined()
    ensures { (d : DesignTree) (text : List ℕ) (one other : List BlockTree)
        → IsDriverText d text one → IsDriverText d text other → one ≡ other }
{}

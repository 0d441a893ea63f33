//! What the two verdicts mean for one another.
ghost use Rattle.std.specs.Prelude.{ℕ, List};
ghost use Rattle.tm_cir.specs.Answer.{Answers};
ghost use Rattle.tm_cir.specs.Tree.{BlockTree};
ghost use Rattle.tm_sem.specs.Loss.{Lost};
ghost use Rattle.tm_sem.specs.Strategy.{Good};
ghost use Rattle.tm_syntax.specs.Design.{DesignTree, IsDesign};

/// No blocks are a good driver, with any ranks, of a design that is lost.
pub fn good_blocks_are_not_of_lost_designs()
    ensures { (d : DesignTree) (bs : List BlockTree) (ranks : List ℕ) → IsDesign d
        → Good d (Answers bs) ranks → Lost d → ⊥ }
{}

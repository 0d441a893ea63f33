//! Terms of a game, and their bits.
ghost use Rattle.std.specs.Prelude.{◌≡◌, ℕ, IfOk, List, Some};
ghost use Rattle.tm_game_bits.specs.Inputs.{input_levels};
ghost use Rattle.tm_blast.specs.Bits.{AreBits};
ghost use Rattle.tm_game.specs.Game.{Grows, IsOf};
ghost use Rattle.tm_sem.specs.StateBits.{state_widths};
ghost use Rattle.tm_syntax.specs.Design.{DesignTree};
ghost use Rattle.tm_term.specs.Table.{Fits, IsKnown, term_of, term_width, width_of};
ghost use Rattle.tm_term.specs.Value.{term_value, value_of};

use crate::game::Game;
use std::alloc::AllocError;
use tm_dd::NodeId;
use tm_term::{Term, TermId};

impl Game {
    /// The id of a term, which is a new one where the game does not have the term. `AllocError` is want of memory.
    pub fn mk(&mut self, term: Term) -> Result<TermId, AllocError>
        requires { Fits self.old.terms term }
        ensures grows { Grows self.old self.new }
        ensures known { IfOk result (λ id. IsKnown self.new.terms id) }
        ensures term { IfOk result (λ id. term_of self.new.terms id ≡ Some term) }
        ensures width { IfOk result (λ id. width_of self.new.terms id ≡ term_width self.old.terms term) }
        ensures value { IfOk result (λ id. (values : List ℕ)
            → value_of self.new.terms values id ≡ term_value self.old.terms values term) }
        ensures of { (d : DesignTree) → IsOf d self.old → IsOf d self.new }
    {
        let id = self.encoding.terms.mk(term)?;
        Ok(id)
    }

    /// The bits of a term, the most significant first, over the levels of the inputs. They are made once.
    ///
    /// Every id keeps its meaning, also where memory runs out.
    pub fn bits(&mut self, id: TermId) -> Result<Vec<NodeId>, AllocError>
        requires { IsKnown self.old.terms id }
        ensures grows { Grows self.old self.new }
        ensures bits { IfOk result (λ ids. (d : DesignTree) → IsOf d self.old → AreBits self.old.terms
            (input_levels self.old.order (state_widths d)) self.new.diagrams.table id ids.items) }
    {
        let ids = self.bits.bits(
            self.encoding.alloc,
            &self.encoding.terms,
            id,
            &self.encoding.levels,
            &mut self.dd,
        )?;
        Ok(ids)
    }
}

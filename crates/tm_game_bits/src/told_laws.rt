//! A game over bits that is made of the terms of a design is the design's game.
ghost use Rattle.std.specs.Prelude.{ℕ, List, sum};
ghost use Rattle.tm_game_bits.specs.GameOf.{IsGameOf};
ghost use Rattle.tm_flat.specs.BitStep.{HasRoom};
ghost use Rattle.tm_flat.specs.Flat.{FlatTerms};
ghost use Rattle.tm_flat.specs.IsFlat.{IsFlat};
ghost use Rattle.tm_game_bits.specs.Functions.{GameFunctions};
ghost use Rattle.tm_game_bits.specs.Order.{IsOrder};
ghost use Rattle.tm_sem.specs.StateBits.{state_widths};
ghost use Rattle.tm_game_bits.specs.AssignedStates.{coding_of};
ghost use Rattle.tm_syntax.specs.Design.{DesignTree, IsDesign};
ghost use Rattle.tm_term.specs.Table.{Table};
ghost use Rattle.tm_game_bits.specs.Told.{IsTold};

/// A game over bits that has the steps that the terms of a design tell, each at least once, and no others, is the
/// design's game.
pub fn told_games_are_those_of_their_designs()
    ensures { (t : Table) (d : DesignTree) (order : List ℕ) (f : FlatTerms) (g : GameFunctions) → IsFlat t d f
        → HasRoom d → IsDesign d → IsOrder (sum (state_widths d)) order → IsTold t d order f g
        → IsGameOf d (coding_of d order) g }
{}

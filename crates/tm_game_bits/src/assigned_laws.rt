//! The states of a design as values of levels, in every order of their bits, and the levels of the inputs of terms.
ghost use Rattle.std.specs.Prelude.{◌≡◌, ◌+◌, ◌≤◌, ℕ, Bool, List, length, sum};
ghost use Rattle.tm_blast.specs.Bits as blasted;
ghost use Rattle.tm_game_bits.specs.Coding.{IsCoding};
ghost use Rattle.tm_flat.specs.Inputs.{room, AreBits, AreSmall, input_values, input_widths, state_from};
ghost use Rattle.tm_game_bits.specs.Order.{IsOrder};
ghost use Rattle.tm_sem.specs.StateBits.{state_widths};
ghost use Rattle.tm_game_bits.specs.Inputs as levels;
ghost use Rattle.tm_game_bits.specs.AssignedStates.{coding_of, state_of};
ghost use Rattle.tm_syntax.specs.Design.{DesignTree};
ghost use Rattle.tm_term.specs.Table.{Table};
ghost use Rattle.tm_term.specs.Value.{AreInputs};

/// In every order of the bits of a state each valid state is told by its values of levels, and values of levels are of
/// one state exactly where they agree on the levels of the state.
pub fn states_are_told_by_their_levels()
    ensures { (d : DesignTree) (order : List ℕ) → AreSmall d → IsOrder (sum (state_widths d)) order
        → IsCoding d (coding_of d order) }
{}

/// Values of levels are values of the inputs of terms: those of the state that they tell, and of the bits of choices
/// and of arguments that they give. And each input has a level for each of its bits.
pub fn levels_tell_all_inputs()
    ensures values { (d : DesignTree) (order : List ℕ) → IsOrder (sum (state_widths d)) order → (v : ℕ → Bool)
        → blasted.input_values (levels.input_levels order (state_widths d)) v
        ≡ input_values (state_of d order v) (levels.choices_at order v) (levels.arguments_at order v) }
    ensures state { (d : DesignTree) (order : List ℕ) → IsOrder (sum (state_widths d)) order → (v : ℕ → Bool)
        (choices arguments : List ℕ)
        → state_from d (input_values (state_of d order v) choices arguments) ≡ state_of d order v }
    ensures in_range { (d : DesignTree) (order : List ℕ) → IsOrder (sum (state_widths d)) order → (t : Table)
        → t.inputs ≡ input_widths d → (v : ℕ → Bool)
        → AreInputs t (input_values (state_of d order v) (levels.choices_at order v) (levels.arguments_at order v)) }
    ensures choices { (order : List ℕ) (v : ℕ → Bool) → AreBits (levels.choices_at order v) }
    ensures arguments { (order : List ℕ) (v : ℕ → Bool) → AreBits (levels.arguments_at order v) }
    ensures levels { (d : DesignTree) (order : List ℕ) → IsOrder (sum (state_widths d)) order → (t : Table)
        → t.inputs ≡ input_widths d → (count : ℕ) → length order + (room + room) ≤ count
        → blasted.AreLevels t count (levels.input_levels order (state_widths d)) }
{}

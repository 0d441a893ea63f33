//! The first predicate of a pool that tells two states apart.
ghost use Rattle.std.specs.Prelude.{◌≡◌, IfOk, MatchOption, length};
ghost use Rattle.tm_flat.specs.Inputs.{input_values};
ghost use Rattle.tm_flat_pool.specs.Cells.{SameCell};
ghost use Rattle.tm_flat_pool.specs.Predicates.{pool};
ghost use Rattle.tm_refine.specs.Pooled.{CanDecide, no_bits};
ghost use Rattle.tm_refine.specs.Reasons.{TellsFirst};
ghost use Rattle.tm_refine.specs.Telling.{AgreeBelow, AreKnown, DiffersAt};
ghost use Rattle.tm_sem.specs.Step.{IsState};
ghost use Rattle.tm_syntax.specs.Design.{DesignTree};
ghost use Rattle.tm_term.specs.Value.{AreInputs};

use std::alloc::{AllocError, Global};
use tm_game::{Game, numbers_of};
use tm_sem::state::State;
use tm_term::{TermId, Terms};

// The inputs that are bits of choices and of arguments.
const BITS: usize = 128;

// The number of the first predicate that tells two states apart.
pub(crate) fn first_apart(
    alloc: Global,
    game: &Game,
    left: &State,
    right: &State,
) -> Result<u32, AllocError>
    requires apart { (d : DesignTree) × CanDecide d game.now × IsState d left.now × IsState d right.now
        × (¬ SameCell d (pool d) left.now right.now) }
    ensures first { IfOk result (λ k. (d : DesignTree) → CanDecide d game.now
        → TellsFirst d (pool d) left.now right.now k) }
{
    let _order = game.order();
    let _levels = game.manager().store().levels();
    let one = inputs_of(alloc, left)?;
    let other = inputs_of(alloc, right)?;
    let Some(number) = first_different(game.terms(), &game.flat().pool, &one, &other) else {
        unreachable!()
    };
    Ok(number as u32)
}

// The values of the inputs at a state, where no bit of choices or arguments is set.
fn inputs_of(alloc: Global, state: &State) -> Result<Vec<u64>, AllocError>
    ensures { IfOk result (λ v. v.items ≡ input_values state.now no_bits no_bits) }
{
    let mut inputs = numbers_of(alloc, state)?;
    inputs.resize(inputs.len() + BITS, 0)?;
    Ok(inputs)
}

// The place of the first of some terms that has two values.
fn first_different(terms: &Terms, ids: &[TermId], one: &[u64], other: &[u64]) -> Option<usize>
    requires known { AreKnown terms.now ids.now }
    requires one { AreInputs terms.now one.now }
    requires other { AreInputs terms.now other.now }
    ensures { MatchOption result (AgreeBelow terms.now one.now other.now ids.now (length ids.now))
        (DiffersAt terms.now one.now other.now ids.now) }
{
    for (place, id) in ids.iter().enumerate() {
        if terms.eval(*id, one) != terms.eval(*id, other) {
            return Some(place);
        }
    }
    None
}

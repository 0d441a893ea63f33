//! The game of a design.
ghost use Rattle.std.specs.List.{range_with_len};
ghost use Rattle.std.specs.Prelude.{◌≡◌, IfOk, sum};
ghost use Rattle.tm_judge.specs.Inner.Updates.{AreUpdates};
ghost use Rattle.tm_judge.specs.Ordered.{IsOrderedGame};
ghost use Rattle.tm_flat.specs.Flat.{flat_terms};
ghost use Rattle.tm_game.specs.Game.{IsOf};
ghost use Rattle.tm_game_pool.specs.Pooled.{HasPool};
ghost use Rattle.tm_game_bits.specs.Order.{IsOrder};
ghost use Rattle.tm_sem.specs.StateBits.{state_widths};
ghost use Rattle.tm_syntax.specs.Design.View.{design_tree};
ghost use Rattle.tm_syntax.specs.Faults.{IsOfText, IsSound};

use std::alloc::{AllocError, Global};
use tm_flat::Flat;
use tm_flat_design::{empty_terms, flatten, sound_designs_of_texts_are_markable};
use tm_game::Game;
use tm_syntax::design::Design;
use tm_term::Terms;

// The guarded updates of a design, with the terms that they are made of.
#[derive(Drop)]
struct Updates {
    flat: Flat,
    terms: Terms,
}

// The guarded updates of a design of a text.
fn make_updates(alloc: Global, design: &Design) -> Result<Updates, AllocError>
    requires sound { IsSound (design_tree design.now) }
    requires of_text { IsOfText (design_tree design.now).spec }
    ensures { IfOk result (λ u. AreUpdates (design_tree design.now) u.terms (flat_terms u.flat)) }
{
    sound_designs_of_texts_are_markable();
    let mut terms = empty_terms(alloc, design)?;
    let flat = flatten(alloc, design, &mut terms)?;
    Ok(Updates { flat, terms })
}

/// The symbolic game of a design of a text, from its guarded updates: the levels of a state are its places in order,
/// and the pool is that of the design.
///
/// `AllocError` is want of memory.
pub fn game_of(alloc: Global, design: &Design) -> Result<Game, AllocError>
    requires sound { IsSound (design_tree design.now) }
    requires of_text { IsOfText (design_tree design.now).spec }
    ensures of { IfOk result (IsOf (design_tree design.now)) }
    ensures order { IfOk result (λ g. g.order ≡ range_with_len 0 (sum (state_widths (design_tree design.now)))) }
    ensures pool { IfOk result (HasPool (design_tree design.now)) }
{
    let made = make_updates(alloc, design)?;
    let game = Game::new(alloc, made.flat, made.terms)?;
    Ok(game)
}

/// The symbolic game of a design of a text whose levels of a state follow an order of its places.
///
/// `AllocError` is want of memory.
pub fn ordered_game(alloc: Global, design: &Design, order: &[u32]) -> Result<Game, AllocError>
    requires sound { IsSound (design_tree design.now) }
    requires of_text { IsOfText (design_tree design.now).spec }
    requires order { IsOrder (sum (state_widths (design_tree design.now))) order.now }
    ensures { IfOk result (IsOrderedGame (design_tree design.now) order.now) }
{
    let places = Vec::from_slice(alloc, order)?;
    let made = make_updates(alloc, design)?;
    let game = Game::with_order(alloc, made.flat, made.terms, places)?;
    let _levels = game.order();
    Ok(game)
}

//! Two states of one cell that are not one.
ghost use Rattle.std.specs.Prelude.{◌<◌, IfOk, MatchOption, length};
ghost use Rattle.tm_abs.specs.Cells.{AreCells};
ghost use Rattle.tm_flat_pool.specs.Predicates.{pool};
ghost use Rattle.tm_game.specs.Game.{Grows};
ghost use Rattle.tm_game_pool.specs.Separating.{Separates, predicates_at};
ghost use Rattle.tm_refine.specs.Apart.{HasOneBit};
ghost use Rattle.tm_refine.specs.Pooled.{CanBeDecided, CanDecide, Keeps};
ghost use Rattle.tm_refine.specs.Searching.{IsParted};
ghost use Rattle.tm_syntax.specs.Design.{DesignTree};

use crate::parts::cells_of;
use crate::sets::tell;
use std::alloc::{AllocError, Global};
use tm_abs::Cells;
use tm_dd::{FALSE, TRUE};
use tm_game::Game;
use tm_sem::state::State;

// Two states of one cell that are not one: the bit of some level is cut.
pub(crate) fn apart(
    alloc: Global,
    game: &mut Game,
    tracked: &[u32],
) -> Result<Option<(State, State)>, AllocError>
    requires can { CanBeDecided game.old }
    ensures apart { IfOk result (λ o. (d : DesignTree) → CanDecide d game.old → MatchOption o
        (Separates d (predicates_at (pool d) tracked.now))
        (λ p. IsParted d (predicates_at (pool d) tracked.now) p.0 p.1)) }
    ensures kept { Keeps game.old game.new }
{
    let cells = cells_of(alloc, game, tracked)?;
    let found = first_cut(alloc, game, &cells);
    tell(game);
    found
}

// Two states of a cell that the bit of the first such level cuts.
fn first_cut(
    alloc: Global,
    game: &mut Game,
    cells: &Cells,
) -> Result<Option<(State, State)>, AllocError>
    requires can { CanBeDecided game.old }
    requires cells { AreCells game.old cells.now }
    ensures apart { IfOk result (λ o. (d : DesignTree) → CanDecide d game.old → MatchOption o
        (Separates d (predicates_at (pool d) cells.now.tracked.items))
        (λ p. IsParted d (predicates_at (pool d) cells.now.tracked.items) p.0 p.1)) }
    ensures grows { Grows game.old game.new }
{
    let _levels = game.manager().store().levels();
    let count = game.order().len() as u32;
    for level in 0..count {
        if let Some(pair) = cut_by_bit(alloc, game, cells, level)? {
            return Ok(Some(pair));
        }
    }
    Ok(None)
}

// Two states of a cell that the bit of a level cuts.
fn cut_by_bit(
    alloc: Global,
    game: &mut Game,
    cells: &Cells,
    level: u32,
) -> Result<Option<(State, State)>, AllocError>
    requires can { CanBeDecided game.old }
    requires cells { AreCells game.old cells.now }
    requires level { level < length game.old.order }
    ensures cut { IfOk result (λ o. (d : DesignTree) → CanDecide d game.old → MatchOption o
        (HasOneBit d game.old.order (predicates_at (pool d) cells.now.tracked.items) level)
        (λ p. IsParted d (predicates_at (pool d) cells.now.tracked.items) p.0 p.1)) }
    ensures can { CanBeDecided game.new }
    ensures grows { Grows game.old game.new }
{
    let _order = game.order();
    let bit = game.make(level, FALSE, TRUE)?;
    cells.split(alloc, game, bit)
}

//! The parts of sets over the cells of tracked predicates, and states of one cell.
ghost use Rattle.std.specs.List.{filter};
ghost use Rattle.std.specs.Prelude.{◌≡◌, ◌++◌, ◌∷◌, [], IfOk, MatchOption, OnOk, length, nat_lt};
ghost use Rattle.tm_abs.specs.Cells.{AreCells};
ghost use Rattle.tm_abs.specs.Split.{IsCut, PartsAreOne};
ghost use Rattle.tm_flat_pool.specs.Predicates.{pool};
ghost use Rattle.tm_game.specs.Game.{Grows};
ghost use Rattle.tm_game_pool.specs.Separating.{predicates_at};
ghost use Rattle.tm_refine.specs.Pooled.{CanBeDecided, CanDecide, Keeps, pool_ids, tests_of};
ghost use Rattle.tm_refine.specs.Sided.{side_part};
ghost use Rattle.tm_refine.specs.Solved.{IsOut};
ghost use Rattle.tm_solve.specs.Ids.{Is};
ghost use Rattle.tm_solve_exact.specs.Exact.{IsStateSet, exact_game, set_of};
ghost use Rattle.tm_syntax.specs.Design.{DesignTree};

use crate::sets::tell;
use std::alloc::{AllocError, Global};
use tm_abs::Cells;
use tm_dd::NodeId;
use tm_game::Game;
use tm_sem::state::State;

// The cells of predicates of these numbers; other numbers name none.
pub(crate) fn cells_of(alloc: Global, game: &mut Game, numbers: &[u32]) -> Result<Cells, AllocError>
    requires can { CanBeDecided game.old }
    ensures tracked { IfOk result (λ c.
        c.tracked.items ≡ filter (λ k. nat_lt k (length game.old.flat.pool)) numbers.now) }
    ensures cells { IfOk result (AreCells game.new) }
    ensures kept { Keeps game.old game.new }
{
    tell(game);
    let count = game.flat().pool.len();
    let tracked = numbers_below(alloc, numbers, count)?;
    let cells = Cells::new(alloc, game, tracked);
    tell(game);
    cells
}

// Those of some numbers that are below a bound.
fn numbers_below(alloc: Global, numbers: &[u32], bound: usize) -> Result<Vec<u32>, AllocError>
    ensures { IfOk result (λ ks. ks.items ≡ filter (λ k. nat_lt k bound) numbers.now) }
{
    let mut below = Vec::new(alloc);
    for number in numbers {
        push_below(&mut below, *number, bound)?;
    }
    Ok(below)
}

// Puts a number behind others, if it is below a bound.
fn push_below(numbers: &mut Vec<u32>, number: u32, bound: usize) -> Result<(), AllocError>
    ensures { OnOk result (numbers.new.items
        ≡ numbers.old.items ++ filter (λ k. nat_lt k bound) (number ∷ [])) }
{
    if (number as usize) < bound {
        numbers.push(number)?;
    }
    Ok(())
}

// The cells that meet a set, or those that lie in it.
pub(crate) fn part_over(
    alloc: Global,
    game: &mut Game,
    cells: &Cells,
    upper: bool,
    set: NodeId,
) -> Result<NodeId, AllocError>
    requires can { CanBeDecided game.old }
    requires cells { AreCells game.old cells.now }
    requires set { IsStateSet game.old set }
    ensures value { IfOk result (λ id. Is (exact_game game.old).states (pool_ids game.new) id
        (side_part upper (exact_game game.old).states (tests_of game.old cells.now.tracked.items)
        (set_of game.old set))) }
    ensures kept { Keeps game.old game.new }
{
    if upper {
        let part = cells.upper(alloc, game, set);
        tell(game);
        return part;
    }
    let part = cells.lower(alloc, game, set);
    tell(game);
    part
}

// Whether a set leaves out an initial state.
pub(crate) fn leaves_out(game: &mut Game, set: NodeId) -> Result<bool, AllocError>
    requires can { CanBeDecided game.old }
    requires set { IsStateSet game.old set }
    ensures out { IfOk result (λ b. (d : DesignTree) → CanDecide d game.old → IsOut d (set_of game.old set) b) }
    ensures kept { Keeps game.old game.new }
{
    let out = has_initial_outside(game, set);
    tell(game);
    out
}

// Whether an initial state is outside of a set.
fn has_initial_outside(game: &mut Game, set: NodeId) -> Result<bool, AllocError>
    requires can { CanBeDecided game.old }
    requires set { IsStateSet game.old set }
    ensures out { IfOk result (λ b. (d : DesignTree) → CanDecide d game.old → IsOut d (set_of game.old set) b) }
    ensures grows { Grows game.old game.new }
{
    let initial = game.initial();
    let out = game.and(initial, set.complement())?;
    let found = game.least(out)?;
    Ok(found.is_some())
}

// Two states of one cell, the first in a set and the second not.
pub(crate) fn split(
    alloc: Global,
    game: &mut Game,
    tracked: &[u32],
    set: NodeId,
) -> Result<Option<(State, State)>, AllocError>
    requires can { CanBeDecided game.old }
    requires set { IsStateSet game.old set }
    ensures split { IfOk result (λ o. (d : DesignTree) → CanDecide d game.old → MatchOption o
        (PartsAreOne d (predicates_at (pool d) tracked.now) (set_of game.old set))
        (λ p. IsCut d (predicates_at (pool d) tracked.now) (set_of game.old set) p.0 p.1)) }
    ensures kept { Keeps game.old game.new }
{
    let cells = cells_of(alloc, game, tracked)?;
    let found = cells.split(alloc, game, set);
    tell(game);
    found
}

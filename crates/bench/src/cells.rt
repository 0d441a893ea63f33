//! Parts of drawn sets over the cells of predicates.
ghost use Rattle.std.specs.Prelude.{◌<◌, All, IfOk};
ghost use Rattle.tm_abs.specs.Cells.{AreCells};
ghost use Rattle.tm_abs.specs.Tracked.{HasPooled};
ghost use Rattle.tm_dd.specs.Table.{Knows};
ghost use Rattle.tm_game.specs.Game.{Grows, IsSet};
ghost use Rattle.tm_syntax.specs.Design.View.{design_tree};
ghost use Rattle.tm_syntax.specs.Faults.{IsOfText, IsSound};

use crate::drawing::drawn;
use crate::games::order_of;
use std::alloc::{AllocError, Global};
use tm_abs::Cells;
use tm_dd::NodeId;
use tm_game::Game;
use tm_judge::ordered_game;
use tm_syntax::design::Design;

/// The most predicates whose cells sets are parted by.
const MOST_TRACKED: usize = 20;

/// What is made of a set.
#[derive(Clone, Copy)]
pub enum Side {
    /// The set.
    Itself,
    /// The cells that lie in it.
    Lower,
    /// The cells that meet it.
    Upper,
}

// How many nodes sets have, and what is made of them.
#[derive(Clone, Copy)]
struct Counts {
    sets: u64,
    made: u64,
}

/// How many nodes so many drawn sets have, and what is made of them over the cells of the first predicates of a design.
pub fn parted(alloc: Global, design: &Design, side: Side, sets: u32) -> Result<String, AllocError>
    requires sound { IsSound (design_tree design.now) }
    requires of_text { IsOfText (design_tree design.now).spec }
{
    let order = order_of(alloc, design, "control")?;
    let mut game = ordered_game(alloc, design, &order)?;
    let pool = game.flat().pool.len();
    let numbers = first_numbers(alloc, pool)?;
    let cells = Cells::new(alloc, &mut game, numbers)?;
    let counts = count(alloc, &mut game, &cells, side, sets)?;
    format!(in alloc;
        "{} bits, {} of {pool} predicates, {} nodes, {} made",
        order.len(),
        cells.tracked.len(),
        counts.sets,
        counts.made
    )
}

// The numbers of the first predicates of a pool of so many.
fn first_numbers(alloc: Global, pool: usize) -> Result<Vec<u32>, AllocError>
    ensures { IfOk result (λ numbers. All (λ k. k < pool) numbers.items) }
{
    let mut numbers = Vec::new(alloc);
    for number in 0..pool.min(MOST_TRACKED) {
        numbers.push(number as u32)?;
    }
    Ok(numbers)
}

// Draws so many sets, and counts nodes.
fn count(
    alloc: Global,
    game: &mut Game,
    cells: &Cells,
    side: Side,
    sets: u32,
) -> Result<Counts, AllocError>
    requires pool { HasPooled game.old }
    requires cells { AreCells game.old cells.now }
{
    let mut counts = Counts { sets: 0, made: 0 };
    for seed in 0..sets {
        let set = drawn(game, seed)?;
        let part = part_of(alloc, game, cells, side, set)?;
        counts.sets = counts.sets.saturating_add(game.manager().size(set)?);
        counts.made = counts.made.saturating_add(game.manager().size(part)?);
    }
    Ok(counts)
}

// What is made of a set.
fn part_of(
    alloc: Global,
    game: &mut Game,
    cells: &Cells,
    side: Side,
    set: NodeId,
) -> Result<NodeId, AllocError>
    requires pool { HasPooled game.old }
    requires cells { AreCells game.old cells.now }
    requires set { IsSet game.old set }
    ensures grows { Grows game.old game.new }
    ensures known { IfOk result (λ part. Knows game.new.diagrams.table part) }
{
    match side {
        Side::Itself => Ok(set),
        Side::Lower => cells.lower(alloc, game, set),
        Side::Upper => cells.upper(alloc, game, set),
    }
}

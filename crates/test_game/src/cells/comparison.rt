//! Comparisons of the parts of sets with the definition, over sets and predicates that are drawn.
ghost use Rattle.tm_abs.specs.Tracked.{HasPooled, IsPooled};
ghost use Rattle.tm_syntax.specs.Design.{DesignTree};

use super::grid::Grid;
use super::parts::{Parts, parts_of};
use super::wanted::Wanted;
use crate::states::{Formula, is_true};
use crate::steps::{Draw, number_at, word};
use case_rows::numbers;
use std::alloc::{AllocError, Global};
use tm_game::{Game, numbers_of};
use tm_plain::Machine;
use tm_sem::state::State;

/// How many lists are drawn, and a bound below which the number of predicates of each is.
#[derive(Clone, Copy)]
struct Plan {
    lists: u64,
    bound: usize,
}

/// At how many states lower and upper parts were true, and how many sets cut a cell.
#[derive(Clone, Copy)]
struct Counts {
    lower: u64,
    upper: u64,
    cut: u64,
}

/// Whether both parts of a set are at each word as they are wanted, which counts.
fn are_parts(
    game: &Game,
    grid: &Grid,
    wanted: &Wanted,
    parts: &Parts,
    counts: &mut Counts,
) -> bool {
    for (word, spot) in grid.spots.iter().enumerate() {
        let is_lower = is_true(game, parts.lower, &spot.levels);
        let is_upper = is_true(game, parts.upper, &spot.levels);
        if is_lower != wanted.is_lower(word) || is_upper != wanted.is_upper(word) {
            return false;
        }
        counts.lower = counts.lower.saturating_add(u64::from(is_lower));
        counts.upper = counts.upper.saturating_add(u64::from(is_upper));
    }
    true
}

/// The place of the word of a state.
fn place_of(alloc: Global, grid: &Grid, state: &State) -> Result<usize, AllocError> {
    let numbers = numbers_of(alloc, state)?;
    Ok(grid.fields.join(&numbers) as usize)
}

/// Whether both parts of a set and the states that show how it cuts a cell are as they are wanted, which counts.
fn are_wanted(
    alloc: Global,
    game: &Game,
    grid: &Grid,
    wanted: &Wanted,
    parts: &Parts,
    counts: &mut Counts,
) -> Result<bool, AllocError> {
    if !are_parts(game, grid, wanted, parts, counts) {
        return Ok(false);
    }
    match &parts.split {
        Some((inside, outside)) => {
            let first = place_of(alloc, grid, inside)?;
            let second = place_of(alloc, grid, outside)?;
            counts.cut = counts.cut.saturating_add(1);
            Ok(wanted.is_cut_by(first, second))
        }
        None => Ok(!wanted.is_cut()),
    }
}

/// Whether what is answered of the set of a formula is as it is wanted, which counts.
fn agrees(
    alloc: Global,
    game: &mut Game,
    grid: &Grid,
    tracked: Vec<u32>,
    formula: &Formula,
    counts: &mut Counts,
) -> Result<bool, AllocError>
    requires pool { HasPooled game.old }
    ensures { HasPooled game.new }
{
    let wanted = Wanted::of(alloc, grid, &tracked, formula)?;
    match parts_of(alloc, game, tracked, formula)? {
        Some(parts) => are_wanted(alloc, game, grid, &wanted, &parts, counts),
        None => Ok(false),
    }
}

/// The numbers of fewer predicates than a bound, of so many.
fn drawn_numbers(
    alloc: Global,
    draw: &mut Draw,
    pool: usize,
    bound: usize,
) -> Result<Vec<u32>, AllocError> {
    let count = draw.below(bound);
    let mut tracked = Vec::new(alloc);
    for _ in 0..count {
        tracked.push(word(draw.below(pool) as u64))?;
    }
    Ok(tracked)
}

/// Compares what is answered of a set over the cells of a list, both of which are drawn.
fn drawn_agrees(
    alloc: Global,
    game: &mut Game,
    grid: &Grid,
    bound: usize,
    draw: &mut Draw,
    counts: &mut Counts,
) -> Result<bool, AllocError>
    requires pool { HasPooled game.old }
    ensures { HasPooled game.new }
{
    let tracked = drawn_numbers(alloc, draw, game.flat().pool.len(), bound)?;
    let formula = Formula::drawn(alloc, draw, grid.fields.bits as usize)?;
    agrees(alloc, game, grid, tracked, &formula, counts)
}

/// Compares what is answered over so many lists: the number of the first that is not as it is wanted.
fn compare_lists(
    alloc: Global,
    game: &mut Game,
    grid: &Grid,
    plan: Plan,
    counts: &mut Counts,
) -> Result<Option<u64>, AllocError>
    requires pool { HasPooled game.old }
{
    let mut draw = Draw::new(1);
    for list in 0..plan.lists {
        if !drawn_agrees(alloc, game, grid, plan.bound, &mut draw, counts)? {
            return Ok(Some(list));
        }
    }
    Ok(None)
}

/// Compares what is answered over so many lists: what all counts come to, or the first list that is not as it is
/// wanted.
fn compare(alloc: Global, game: &mut Game, grid: &Grid, plan: Plan) -> Result<String, AllocError>
    requires pool { HasPooled game.old }
{
    let mut counts = Counts {
        lower: 0,
        upper: 0,
        cut: 0,
    };
    match compare_lists(alloc, game, grid, plan, &mut counts)? {
        Some(list) => format!(in alloc; "list {list} differs"),
        None => format!(in alloc;
            "{} states: lower {}, upper {}, cut {}",
            grid.count(),
            counts.lower,
            counts.upper,
            counts.cut
        ),
    }
}

/// The answer to a question that asks for a comparison.
pub fn compare_answer(
    alloc: Global,
    machine: &Machine,
    game: &mut Game,
    words: &str,
) -> Result<String, AllocError>
    requires pooled { (d : DesignTree) × IsPooled d game.old }
{
    let numbers = numbers(alloc, words)?;
    let plan = Plan {
        lists: number_at(&numbers, 0),
        bound: word(number_at(&numbers, 1)) as usize,
    };
    let grid = Grid::of(alloc, machine, game)?;
    compare(alloc, game, &grid, plan)
}

//! Solving: a game of four states that is worked out by hand, solved.
//!
//! The row `iterates` is answered by the sum of the region, by the condition and the sum of each rank, goal by goal,
//! and by the goal and the sum of each level, with the sums of the sets of its chains. The sum of a set is that of the
//! powers of two of its states, and 99 ends a list.

mod example;

use example::Example;
use std::alloc::{AllocError, Global};
use tm_solve::{Chain, Iterates, LevelSet, Ranking, solve};

/// What ends a list.
const END: u32 = 99;

/// Tells the ranks of a goal.
fn tell_ranks(example: &Example, ranking: &Ranking, told: &mut Vec<u32>) -> Result<(), AllocError> {
    for rank in &ranking.sets {
        told.push(rank.fair)?;
        told.push(example.sum(rank.set))?;
    }
    Ok(told.push(END)?)
}

/// Tells the sets of a chain.
fn tell_chain(example: &Example, chain: &Chain, told: &mut Vec<u32>) -> Result<(), AllocError> {
    for set in &chain.sets {
        told.push(example.sum(*set))?;
    }
    Ok(told.push(END)?)
}

/// Tells a level.
fn tell_level(example: &Example, level: &LevelSet, told: &mut Vec<u32>) -> Result<(), AllocError> {
    told.push(level.goal)?;
    told.push(example.sum(level.set))?;
    for chain in &level.chains {
        tell_chain(example, chain, told)?;
    }
    Ok(())
}

/// Tells the ranks of all goals.
fn tell_rankings(
    example: &Example,
    rankings: &[Ranking],
    told: &mut Vec<u32>,
) -> Result<(), AllocError> {
    for ranking in rankings {
        tell_ranks(example, ranking, told)?;
    }
    Ok(())
}

/// Tells all levels.
fn tell_levels(
    example: &Example,
    levels: &[LevelSet],
    told: &mut Vec<u32>,
) -> Result<(), AllocError> {
    for level in levels {
        tell_level(example, level, told)?;
    }
    Ok(())
}

/// What is told of a solution.
fn told(alloc: Global, example: &Example, iterates: &Iterates) -> Result<Vec<u32>, AllocError> {
    let mut told = vec![in alloc; example.sum(iterates.region)]?;
    tell_rankings(example, &iterates.ranks, &mut told)?;
    tell_levels(example, &iterates.levels, &mut told)?;
    Ok(told)
}

/// What is told of the solution of the example.
fn solution(alloc: Global) -> Result<Vec<u32>, AllocError> {
    let mut example = Example::new(alloc)?;
    let iterates = solve(alloc, &mut example)?;
    told(alloc, &example, &iterates)
}

/// The answer to the question of a row.
pub fn answer_to(alloc: Global, question: &str) -> Result<String, AllocError> {
    if question != "iterates" {
        return String::from_str(alloc, "no question");
    }
    let told = solution(alloc)?;
    format!(in alloc; "{told:?}")
}

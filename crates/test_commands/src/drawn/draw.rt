//! Drivers and states that are drawn, over a design of three variables, two tasks and one process.
ghost use Rattle.std.specs.Prelude.{◌≡◌, ◌<◌, length};

use rand::RngExt;
use rand_pcg::Pcg32;
use std::alloc::{AllocError, Global};
use tm_base::ShiftOperator;
use tm_cir::block::{Comparison, Junction, NumOperator};
use tm_cir::{Block, Num64, Truth};
use tm_sem::state::State;

/// The variables of the design.
const VARS: usize = 3;
/// The tests of a driver, behind which stand four blocks that end its turn.
const TESTS: u32 = 8;
/// The greatest number of operators that are drawn one inside another.
const DEPTH: u8 = 5;

/// A constant: a small one, one with a single bit, the greatest, or any.
fn constant(rng: &mut Pcg32) -> u64 {
    match rng.random_range(0u32..4) {
        0 => u64::from(rng.random_range(0u32..4)),
        1 => 1 << rng.random_range(0u32..64),
        2 => u64::MAX,
        _ => rng.random_range(0u64..u64::MAX),
    }
}

/// A number that has a name.
fn named(rng: &mut Pcg32) -> Num64 {
    match rng.random_range(0u32..4) {
        0 => Num64::Var(rng.random_range(0u32..VARS as u32)),
        1 => Num64::Location(0),
        2 => Num64::Goal,
        _ => Num64::Last,
    }
}

/// A number without operators.
fn leaf(rng: &mut Pcg32) -> Num64 {
    if rng.random_range(0u32..5) == 0 {
        Num64::Const(constant(rng))
    } else {
        named(rng)
    }
}

fn num_operator(rng: &mut Pcg32) -> NumOperator {
    match rng.random_range(0u32..5) {
        0 => NumOperator::Add,
        1 => NumOperator::Subtract,
        2 => NumOperator::And,
        3 => NumOperator::Or,
        _ => NumOperator::Xor,
    }
}

fn comparison(rng: &mut Pcg32) -> Comparison {
    match rng.random_range(0u32..6) {
        0 => Comparison::Equal,
        1 => Comparison::NotEqual,
        2 => Comparison::Less,
        3 => Comparison::LessEqual,
        4 => Comparison::Greater,
        _ => Comparison::GreaterEqual,
    }
}

/// A number with at most so many operators one inside another.
#[cycle(draw)]
fn num(alloc: Global, rng: &mut Pcg32, depth: u8) -> Result<Num64, AllocError> {
    if depth == 0 {
        return Ok(leaf(rng));
    }
    let drawn = match rng.random_range(0u32..6) {
        0 => leaf(rng),
        1 => Num64::Not(Box::new(alloc, num(alloc, rng, depth - 1)?)?),
        2 => shift(alloc, rng, depth)?,
        3 => conditional(alloc, rng, depth)?,
        _ => binary(alloc, rng, depth)?,
    };
    Ok(drawn)
}

#[cycle(draw)]
fn shift(alloc: Global, rng: &mut Pcg32, depth: u8) -> Result<Num64, AllocError>
    requires { 0 < depth }
{
    let operator = if rng.random_range(0u32..2) == 0 {
        ShiftOperator::Left
    } else {
        ShiftOperator::Right
    };
    let shifted = Box::new(alloc, num(alloc, rng, depth - 1)?)?;
    Ok(Num64::Shift(operator, shifted, rng.random_range(0u8..64)))
}

#[cycle(draw)]
fn conditional(alloc: Global, rng: &mut Pcg32, depth: u8) -> Result<Num64, AllocError>
    requires { 0 < depth }
{
    let test = Box::new(alloc, truth(alloc, rng, depth - 1)?)?;
    let first = Box::new(alloc, num(alloc, rng, depth - 1)?)?;
    let second = Box::new(alloc, num(alloc, rng, depth - 1)?)?;
    Ok(Num64::Cond(test, first, second))
}

#[cycle(draw)]
fn binary(alloc: Global, rng: &mut Pcg32, depth: u8) -> Result<Num64, AllocError>
    requires { 0 < depth }
{
    let operator = num_operator(rng);
    let left = Box::new(alloc, num(alloc, rng, depth - 1)?)?;
    let right = Box::new(alloc, num(alloc, rng, depth - 1)?)?;
    Ok(Num64::Binary(operator, left, right))
}

/// A truth with at most so many operators one inside another. A number that is tested is no constant, no shift and no
/// conditional one, of which compilers warn.
#[cycle(draw)]
fn truth(alloc: Global, rng: &mut Pcg32, depth: u8) -> Result<Truth, AllocError> {
    if depth == 0 {
        return Ok(Truth::Num(named(rng)));
    }
    let drawn = match rng.random_range(0u32..5) {
        0 => Truth::Num(binary(alloc, rng, depth)?),
        1 => Truth::Not(Box::new(alloc, truth(alloc, rng, depth - 1)?)?),
        2 => junction(alloc, rng, depth)?,
        _ => {
            let operator = comparison(rng);
            let left = num(alloc, rng, depth - 1)?;
            Truth::Compare(operator, left, num(alloc, rng, depth - 1)?)
        }
    };
    Ok(drawn)
}

#[cycle(draw)]
fn junction(alloc: Global, rng: &mut Pcg32, depth: u8) -> Result<Truth, AllocError>
    requires { 0 < depth }
{
    let operator = if rng.random_range(0u32..2) == 0 {
        Junction::And
    } else {
        Junction::Or
    };
    let left = Box::new(alloc, truth(alloc, rng, depth - 1)?)?;
    let right = Box::new(alloc, truth(alloc, rng, depth - 1)?)?;
    Ok(Truth::Join(operator, left, right))
}

/// The blocks of a driver: tests that lead to one of the next four blocks, and then one block of each other kind.
pub fn blocks(alloc: Global, rng: &mut Pcg32) -> Result<Vec<Block>, AllocError> {
    let mut blocks = Vec::new(alloc);
    for number in 0..TESTS {
        let test = truth(alloc, rng, DEPTH)?;
        let first = rng.random_range(number + 1..number + 5);
        let second = rng.random_range(number + 1..number + 5);
        blocks.push(Block::Test(test, first, second))?;
    }
    blocks.push(Block::Idle)?;
    blocks.push(Block::Leave(0))?;
    blocks.push(Block::Call(0, Vec::new(alloc)))?;
    blocks.push(Block::Call(1, Vec::new(alloc)))?;
    Ok(blocks)
}

/// A state, which may be no valid one.
pub fn state(alloc: Global, rng: &mut Pcg32) -> Result<State, AllocError> {
    let mut values = Vec::new(alloc);
    for _ in 0..VARS {
        values.push(constant(rng))?;
    }
    let mut places = Vec::new(alloc);
    places.push(rng.random_range(0u32..4))?;
    Ok(State {
        values,
        places,
        last: rng.random_range(0u32..3),
    })
}

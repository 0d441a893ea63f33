//! Sets of states that are drawn: where some cubes of bits of states are.
ghost use Rattle.std.specs.Prelude.{◌<◌, IfOk, length};
ghost use Rattle.tm_game.specs.Game.{Grows, IsSet};

use std::alloc::AllocError;
use tm_dd::{FALSE, NodeId, TRUE};
use tm_game::Game;

/// How many cubes a set has, and how many bits a cube asks for: over 100 bits such sets have some 2,000 nodes.
const CUBES: u32 = 10;

const BITS: u32 = 10;
/// The factor and the step of the draws (Knuth's MMIX).
const FACTOR: u64 = 6_364_136_223_846_793_005;

const STEP: u64 = 1_442_695_040_888_963_407;

// Numbers that look random, one after the other.
#[derive(Clone, Copy, Drop)]
struct Draw {
    last: u64,
}

impl Draw {
    // The next one, of 31 bits.
    fn next(&mut self) -> u32 {
        self.last = self.last.wrapping_mul(FACTOR).wrapping_add(STEP);
        (self.last >> 33) as u32
    }
}

/// A set of states that is drawn by a seed.
///
/// Every id keeps its meaning, also where memory runs out.
pub fn drawn(game: &mut Game, seed: u32) -> Result<NodeId, AllocError>
    ensures grows { Grows game.old game.new }
    ensures set { IfOk result (IsSet game.new) }
{
    let mut draw = Draw {
        last: u64::from(seed),
    };
    let mut set = FALSE;
    for _cube in 0..CUBES {
        let cube = cube(game, &mut draw)?;
        set = game.or(set, cube)?;
    }
    Ok(set)
}

// The states at which drawn bits have drawn values.
fn cube(game: &mut Game, draw: &mut Draw) -> Result<NodeId, AllocError>
    ensures grows { Grows game.old game.new }
    ensures set { IfOk result (IsSet game.new) }
{
    let mut cube = TRUE;
    for _bit in 0..BITS {
        let bit = bit(game, draw)?;
        cube = game.and(cube, bit)?;
    }
    Ok(cube)
}

// The states at which a drawn bit has a drawn value.
fn bit(game: &mut Game, draw: &mut Draw) -> Result<NodeId, AllocError>
    ensures grows { Grows game.old game.new }
    ensures set { IfOk result (IsSet game.new) }
{
    let _levels = game.manager().store().levels();
    let count = game.order().len() as u32;
    let value = draw.next() % 2 == 1;
    match draw.next().checked_rem(count) {
        Some(level) => literal(game, level, value),
        None => Ok(TRUE),
    }
}

// The states at which the bit of a level has a value.
fn literal(game: &mut Game, level: u32, value: bool) -> Result<NodeId, AllocError>
    requires { level < length game.old.order }
    ensures grows { Grows game.old game.new }
    ensures set { IfOk result (IsSet game.new) }
{
    let _order = game.order();
    if value {
        game.make(level, FALSE, TRUE)
    } else {
        game.make(level, TRUE, FALSE)
    }
}

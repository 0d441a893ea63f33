//! Which blocks become functions, and how these are numbered.
ghost use Rattle.std.specs.Prelude.{◌≡◌, ◌+◌, ◌<◌, None, length, replicate, IfOk, OnOk};
ghost use Rattle.tm_cir.specs.View.{block_trees};
ghost use Rattle.tm_struct.specs.Inner.Reaching.{AreReaches};
ghost use Rattle.tm_struct.specs.Inner.Naming.{is_function, AreNamed, AreNamedFrom};

use crate::reaching::{Reach, becomes_function, reach_of};
use std::alloc::{AllocError, Global};
use tm_cir::Block;

/// The blocks of the functions, in the order of the functions, and for each block the number of its function, if it
/// has one.
#[derive(Drop)]
pub struct Naming {
    pub order: Vec<usize>,
    pub numbers: Vec<Option<u32>>,
}

/// Which blocks that are reached so become functions, numbered from the last block to the first.
pub fn named(alloc: Global, blocks: &[Block], reaches: &[Reach]) -> Result<Naming, AllocError>
    requires { AreReaches (block_trees blocks.now) reaches.now }
    ensures { IfOk result (λ naming.
        AreNamed (block_trees blocks.now) reaches.now naming.order.items naming.numbers.items) }
{
    let mut naming = Naming {
        order: Vec::new(alloc),
        numbers: no_numbers(alloc, blocks.len())?,
    };
    let mut at = blocks.len();
    while at > 0 {
        at -= 1;
        name(&mut naming, blocks, reaches, at)?;
    }
    Ok(naming)
}

/// No number for so many blocks.
fn no_numbers(alloc: Global, count: usize) -> Result<Vec<Option<u32>>, AllocError>
    ensures { IfOk result (λ numbers. numbers.items ≡ replicate count None) }
{
    let mut numbers = Vec::new(alloc);
    for _at in 0..count {
        numbers.push(None)?;
    }
    Ok(numbers)
}

/// Numbers the function that a block becomes, if it becomes one, behind those of later blocks.
fn name(
    naming: &mut Naming,
    blocks: &[Block],
    reaches: &[Reach],
    at: usize,
) -> Result<(), AllocError>
    requires within { at < length blocks.now }
    requires table { AreReaches (block_trees blocks.now) reaches.now }
    requires later { AreNamedFrom (block_trees blocks.now) reaches.now (at + 1) naming.old.order.items
        naming.old.numbers.items }
    ensures { OnOk result (AreNamedFrom (block_trees blocks.now) reaches.now at naming.new.order.items
        naming.new.numbers.items) }
{
    if is_function(blocks, reaches, at) {
        naming.numbers[at] = Some(naming.order.len() as u32);
        naming.order.push(at)?;
    }
    Ok(())
}

/// Whether a block becomes a function.
fn is_function(blocks: &[Block], reaches: &[Reach], at: usize) -> bool
    requires block { at < length blocks.now }
    requires reach { at < length reaches.now }
    ensures { result ≡ is_function (block_trees blocks.now) reaches.now at }
{
    becomes_function(&blocks[at], reach_of(reaches, at))
}

//! How the blocks are reached from the first one, and which of them become functions.
ghost use Rattle.std.specs.Prelude.{◌≡◌, ◌+◌, ◌*◌, ◌-◌, ◌^◌, ◌<◌, ◌∷◌, length, replicate, IfOk, IfSome};
ghost use Rattle.tm_cir.specs.View.{block_tree, block_trees};
ghost use Rattle.tm_struct.specs.declared.reaching.Reach.TheVariants.{Never, Once};
ghost use Rattle.tm_struct.specs.Inner.Reaching.{LeadOn, branches_of, reach_at, ifs_inside, once_more, marked, both_marked, is_often, is_too_deep, becomes_function, IsTable, AreReaches};

use crate::program::MOST_IFS;
use std::alloc::{AllocError, Global};
use tm_cir::Block;

/// How the tests that are reached lead to a block.
#[derive(Clone, Copy)]
pub enum Reach {
    Never,
    /// By one branch, inside so many open `if`.
    Once(u32),
    Often,
}

/// How each block is reached; the first one is where a turn begins.
///
/// A test leads to later blocks alone, so all that lead to a block stand before it.
pub fn reaches(alloc: Global, blocks: &[Block]) -> Result<Vec<Reach>, AllocError>
    requires { LeadOn (block_trees blocks.now) }
    ensures { IfOk result (λ reaches. AreReaches (block_trees blocks.now) reaches.items) }
{
    let mut reaches = unreached(alloc, blocks.len())?;
    for at in 0..blocks.len() {
        follow(&mut reaches, blocks, at);
    }
    Ok(reaches)
}

/// The first block, and none that is reached behind it.
fn unreached(alloc: Global, count: usize) -> Result<Vec<Reach>, AllocError>
    requires { 0 < count }
    ensures { IfOk result (λ reaches. reaches.items ≡ Once 0 ∷ replicate (count - 1) Never) }
{
    let mut reaches = Vec::new(alloc);
    reaches.push(Reach::Once(0))?;
    for _at in 1..count {
        reaches.push(Reach::Never)?;
    }
    Ok(reaches)
}

/// Follows the branches of a block, behind those of all blocks before it.
fn follow(reaches: &mut Vec<Reach>, blocks: &[Block], at: usize)
    requires leads { LeadOn (block_trees blocks.now) }
    requires within { at < length blocks.now }
    requires before { IsTable (block_trees blocks.now) reaches.old.items (2 * at) }
    ensures { IsTable (block_trees blocks.now) reaches.new.items (2 * (at + 1)) }
{
    match branches(&blocks[at]) {
        Some((first, second)) => mark_both(reaches, at, first, second),
        None => {}
    }
}

/// The blocks to which a block leads, if it is a test.
fn branches(block: &Block) -> Option<(usize, usize)>
    ensures are { result ≡ branches_of (block_tree block.now) }
    ensures small { IfSome result (λ r. (r.0 < 2 ^ 32) × (r.1 < 2 ^ 32)) }
{
    match block {
        Block::Test(_, first, second) => Some((*first as usize, *second as usize)),
        Block::Call(_, _) | Block::Leave(_) | Block::Idle => None,
    }
}

/// How a block is reached.
pub fn reach_of(reaches: &[Reach], at: usize) -> Reach
    requires { at < length reaches.now }
    ensures { result ≡ reach_at reaches.now at }
{
    reaches[at]
}

/// Follows both branches of a test, where it is reached.
fn mark_both(reaches: &mut Vec<Reach>, at: usize, first: usize, second: usize)
    requires here { at < length reaches.old.items }
    requires one { first < length reaches.old.items }
    requires other { second < length reaches.old.items }
    ensures { reaches.new.items
        ≡ both_marked (ifs_inside (reach_at reaches.old.items at)) reaches.old.items first second }
{
    if let Some(inside) = ifs_inside(reach_of(reaches, at)) {
        mark(reaches, first, inside);
        mark(reaches, second, inside);
    }
}

/// Follows one branch, inside so many `if`.
fn mark(reaches: &mut Vec<Reach>, at: usize, inside: u32)
    requires { at < length reaches.old.items }
    ensures { reaches.new.items ≡ marked reaches.old.items at inside }
{
    let reach = once_more(reach_of(reaches, at), inside);
    reaches[at] = reach;
}

/// How many `if` are open inside a test that is reached so: its own, and those around it where it is written in place.
fn ifs_inside(reach: Reach) -> Option<u32>
    ensures { result ≡ ifs_inside reach }
{
    match reach {
        Reach::Never => None,
        Reach::Once(around) => Some(if around < MOST_IFS { around + 1 } else { 1 }),
        Reach::Often => Some(1),
    }
}

/// A block that was reached so, with one branch more.
fn once_more(reach: Reach, inside: u32) -> Reach
    ensures { result ≡ once_more reach inside }
{
    match reach {
        Reach::Never => Reach::Once(inside),
        _ => Reach::Often,
    }
}

/// Whether a block that is reached so becomes a function.
pub fn becomes_function(block: &Block, reach: Reach) -> bool
    ensures { result ≡ becomes_function (block_tree block.now) reach }
{
    match block {
        Block::Test(_, _, _) => is_often(reach) || is_too_deep(reach),
        Block::Call(_, _) | Block::Leave(_) => is_often(reach),
        Block::Idle => false,
    }
}

/// Whether two branches or more lead to a block.
fn is_often(reach: Reach) -> bool
    ensures { result ≡ is_often reach }
{
    match reach {
        Reach::Often => true,
        _ => false,
    }
}

/// Whether a test would stand inside as many `if` as may be open.
fn is_too_deep(reach: Reach) -> bool
    ensures { result ≡ is_too_deep reach }
{
    match reach {
        Reach::Once(around) => around >= MOST_IFS,
        _ => false,
    }
}

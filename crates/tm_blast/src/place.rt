//! Bits that take no operation on diagrams: those of constants and inputs, complements, and bits that are moved or cut.
ghost use Rattle.std.specs.Prelude.{◌≡◌, ◌-◌, ◌<◌, ◌≤◌, All, IfOk, map, reverse, slice_index_or};
ghost use Rattle.tm_dd.specs.Reduced.{Extends};
ghost use Rattle.tm_dd.specs.Table.{Table, Knows};
ghost use Rattle.tm_dd.specs.NodeId.{complement};
ghost use Rattle.tm_blast.specs.Bits.{values_in};
ghost use Rattle.tm_blast.specs.Cell.{bits_of, constant_of, placed, MeanBits};

use std::alloc::{AllocError, Global};
use tm_base::Steps;
use tm_dd::{FALSE, NodeId, TRUE};
use tm_ddops::Manager;

// The constant function of that value.
fn constant_bit(value: bool) -> NodeId
    ensures { result ≡ constant_of value }
{
    if value { TRUE } else { FALSE }
}

/// The bits of a constant, the least significant first.
pub(crate) fn constant(alloc: Global, width: u8, number: u64) -> Result<Vec<NodeId>, AllocError>
    ensures { IfOk result (λ ids. (s : Table) → MeanBits s ids.items (λ v. bits_of width number)) }
{
    let mut bits = Vec::new(alloc);
    let mut left = number;
    for _bit in 0..width {
        bits.push(constant_bit(left % 2 == 1))?;
        left /= 2;
    }
    Ok(bits)
}

/// The bits of an input, the least significant first, where its levels list the most significant bit first.
pub(crate) fn input(
    alloc: Global,
    levels: &[u32],
    dd: &mut Manager,
) -> Result<Vec<NodeId>, AllocError>
    requires { All (λ level. level < dd.old.table.levels) levels.now }

    ensures extends { Extends dd.old.table dd.new.table }
    ensures answer { IfOk result (λ ids. MeanBits dd.new.table ids.items (λ v. map v (reverse levels.now))) }
{
    let mut bits = Vec::new(alloc);
    let mut steps = Steps::new(());
    let count = levels.len();
    for i in 0..count {
        let bit = dd.make(levels[count - 1 - i], FALSE, TRUE, &mut steps)?;
        bits.push(bit)?;
    }
    Ok(bits)
}

/// Each bit turned over.
pub(crate) fn complements(alloc: Global, a: &[NodeId]) -> Result<Vec<NodeId>, AllocError>
    ensures { IfOk result (λ ids. ids.items ≡ map complement a.now) }
{
    a.iter().map(|id| id.complement()).collect(alloc)
}

// The bit of that weight, where `low` zeros stand below the bits of a number and zeros above.
fn placed_bit(low: usize, a: &[NodeId], weight: usize) -> NodeId
    ensures below { weight < low → result ≡ FALSE }
    ensures there { low ≤ weight → result ≡ slice_index_or a.now (weight - low) FALSE }
{
    if weight >= low && weight - low < a.len() {
        a[weight - low]
    } else {
        FALSE
    }
}

/// As many bits as the width: zeros, as many as `low`, then the bits of a number, then zeros.
pub(crate) fn placed(
    alloc: Global,
    low: usize,
    width: u8,
    a: &[NodeId],
) -> Result<Vec<NodeId>, AllocError>
    ensures { IfOk result (λ ids. (s : Table) → All (Knows s) a.now →
        MeanBits s ids.items (λ v. placed low width (values_in s a.now v))) }
{
    let mut bits = Vec::new(alloc);
    for weight in 0..width as usize {
        bits.push(placed_bit(low, a, weight))?;
    }
    Ok(bits)
}

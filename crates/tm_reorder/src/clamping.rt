//! The bits of a state as diagrams. Where a number is greater than at any valid state, they are those of one that is
//! not.
ghost use Rattle.std.specs.Prelude.{◌≡◌, ◌+◌, ◌/◌, ◌%◌, ◌^◌, ◌<◌, ◌≤◌, ◌==◌, ⊤, All, IfOk, OnOk, false, length, if◌then◌else◌};
ghost use Rattle.tm_dd.specs.Reduced.{Extends};
ghost use Rattle.tm_dd.specs.Table.{Knows, means};
ghost use Rattle.tm_ddops.specs.Manager.{IsFunction};
ghost use Rattle.tm_reorder.specs.Fields.{IsField};
ghost use Rattle.tm_reorder.specs.Inner.Clamped.{AreBits, AreClamped, ArePushed, HavePlaces, IsOneMore, IsWithin, by_place};

use crate::fields::Field;
use std::alloc::{AllocError, Global};
use tm_base::Steps;
use tm_dd::{FALSE, NodeId, TRUE};
use tm_ddops::Manager;

// The diagram of a level's value.
fn bit_of(dd: &mut Manager, level: u32) -> Result<NodeId, AllocError>
    requires { level < dd.old.table.levels }
    ensures extends { Extends dd.old.table dd.new.table }
    ensures answer { IfOk result (λ id. IsFunction dd.new.table id (λ v. v level)) }
{
    dd.make(level, FALSE, TRUE, &mut Steps::new(()))
}

// Whether a number has the bit that stands for 2 to the power of a weight.
fn has_bit(number: u64, weight: u8) -> bool
    requires { weight < 64 }
    ensures { result ≡ (number / 2 ^ weight % 2 == 1) }
{
    (number >> weight) % 2 == 1
}

// Whether a number may have each value of its width: all bits of the last one are 1.
fn is_whole(field: Field) -> bool {
    field.last.count_ones() == u32::from(field.width)
}

// The bit of a number, where the last value has `one` at its place, and `tight` tells whether all bits before it are 1
// that the last value has. If they are, and the last value has a 0 here, the bit of a valid state is 0.
fn clamped(dd: &mut Manager, one: bool, tight: NodeId, bit: NodeId) -> Result<NodeId, AllocError>
    requires tight { Knows dd.old.table tight }
    requires bit { Knows dd.old.table bit }
    ensures extends { Extends dd.old.table dd.new.table }
    ensures answer { IfOk result (λ id. IsFunction dd.new.table id (λ v. if one then means dd.old.table bit v
        else (if means dd.old.table tight v then false else means dd.old.table bit v))) }
{
    if one {
        Ok(bit)
    } else {
        dd.ite(tight, FALSE, bit)
    }
}

// Whether all bits up to this one are 1 that the last value has.
fn tightened(dd: &mut Manager, one: bool, tight: NodeId, bit: NodeId) -> Result<NodeId, AllocError>
    requires tight { Knows dd.old.table tight }
    requires bit { Knows dd.old.table bit }
    ensures extends { Extends dd.old.table dd.new.table }
    ensures answer { IfOk result (λ id. IsFunction dd.new.table id (λ v. if one
        then (if means dd.old.table tight v then means dd.old.table bit v else false)
        else means dd.old.table tight v)) }
{
    if one {
        dd.ite(tight, bit, FALSE)
    } else {
        Ok(tight)
    }
}

// Puts the bit of a level behind those before it. The answer tells whether all bits up to it are 1 that the last value
// has.
fn push_clamped(
    dd: &mut Manager,
    level: u32,
    one: bool,
    tight: NodeId,
    bits: &mut Vec<NodeId>,
) -> Result<NodeId, AllocError>
    requires level { level < dd.old.table.levels }
    requires tight { Knows dd.old.table tight }
    ensures extends { Extends dd.old.table dd.new.table }
    ensures pushed { IfOk result
        (IsOneMore dd.old.table dd.new.table level one tight bits.old.items bits.new.items) }
{
    let bit = bit_of(dd, level)?;
    let next = tightened(dd, one, tight, bit)?;
    let here = clamped(dd, one, tight, bit)?;
    bits.push(here)?;
    Ok(next)
}

// Puts the bits of a number that has a last value behind those before it.
fn push_number(
    dd: &mut Manager,
    levels: &[u32],
    field: Field,
    bits: &mut Vec<NodeId>,
) -> Result<(), AllocError>
    requires levels { All (λ level. level < dd.old.table.levels) levels.now }
    requires field { IsField field }
    requires room { length bits.old.items + field.width ≤ length levels.now }
    requires known { AreBits dd.old.table bits.old.items }
    ensures extends { Extends dd.old.table dd.new.table }
    ensures pushed { OnOk result (ArePushed dd.old.table dd.new.table levels.now field.width
        (λ v. IsWithin field (by_place levels.now v) (length bits.old.items)) bits.old.items bits.new.items) }
{
    let mut tight = TRUE;
    for passed in 0..field.width {
        let one = has_bit(field.last, field.width - 1 - passed);
        let level = levels[bits.len()];
        tight = push_clamped(dd, level, one, tight, bits)?;
    }
    Ok(())
}

// Puts so many bits, each the value of its level, behind those before them.
fn push_levels(
    dd: &mut Manager,
    levels: &[u32],
    count: usize,
    bits: &mut Vec<NodeId>,
) -> Result<(), AllocError>
    requires levels { All (λ level. level < dd.old.table.levels) levels.now }
    requires room { length bits.old.items + count ≤ length levels.now }
    requires known { AreBits dd.old.table bits.old.items }
    ensures extends { Extends dd.old.table dd.new.table }
    ensures pushed { OnOk result (ArePushed dd.old.table dd.new.table levels.now count (λ v. ⊤)
        bits.old.items bits.new.items) }
{
    for _place in 0..count {
        let level = levels[bits.len()];
        let bit = bit_of(dd, level)?;
        bits.push(bit)?;
    }
    Ok(())
}

// Puts the bits of a number behind those before it.
fn push_field(
    dd: &mut Manager,
    levels: &[u32],
    field: Field,
    bits: &mut Vec<NodeId>,
) -> Result<(), AllocError>
    requires levels { All (λ level. level < dd.old.table.levels) levels.now }
    requires field { IsField field }
    requires room { length bits.old.items + field.width ≤ length levels.now }
    requires known { AreBits dd.old.table bits.old.items }
    ensures extends { Extends dd.old.table dd.new.table }
    ensures pushed { OnOk result (ArePushed dd.old.table dd.new.table levels.now field.width
        (λ v. IsWithin field (by_place levels.now v) (length bits.old.items)) bits.old.items bits.new.items) }
{
    let whole = is_whole(field);
    if whole {
        push_levels(dd, levels, field.width as usize, bits)
    } else {
        push_number(dd, levels, field, bits)
    }
}

/// The bits of all places of a state whose first numbers are these, where `levels` has the level of each place. At a
/// valid state each has the value of its level. Where a number is above its last value they are bits of one that is
/// not, so that no diagram over them has to tell that a state is valid.
pub(crate) fn clamped_bits(
    alloc: Global,
    dd: &mut Manager,
    levels: &[u32],
    fields: &[Field],
) -> Result<Vec<NodeId>, AllocError>
    requires levels { All (λ level. level < dd.old.table.levels) levels.now }
    requires places { HavePlaces (length levels.now) fields.now }
    ensures extends { Extends dd.old.table dd.new.table }
    ensures clamped { IfOk result (λ bits. AreClamped dd.new.table levels.now fields.now bits.items) }
{
    let mut bits = Vec::new(alloc);
    for field in fields {
        push_field(dd, levels, *field, &mut bits)?;
    }
    let rest = levels.len() - bits.len();
    push_levels(dd, levels, rest, &mut bits)?;
    Ok(bits)
}

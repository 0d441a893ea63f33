//! Rows of tokens that are given but for the numbers of labels and constants.
ghost use Rattle.std.specs.Prelude.{◌<◌, ◌≤◌, length, IfOk, IfErr};
ghost use Rattle.tm_cparse.specs.View.{tokens_of};
ghost use Rattle.tm_cparse.specs.Inner.Reading.{IsRefused};
ghost use Rattle.tm_cparse.specs.Inner.Rows.{IsRow, IsSlot, IsNoSlot};

use crate::spot::{Read, Spot, Stop, constant, label, need};
use crate::token::Token;
use std::alloc::Global;

/// A token of a row: a given one, a label or a constant.
#[derive(Clone, Copy, Debug)]
pub enum Slot {
    Given(Token),
    Label,
    Constant,
}

/// The numbers of the labels and constants of a row.
pub fn row<'a>(alloc: Global, slots: &[Slot], spots: &'a [Spot]) -> Read<'a, Vec<u64>>
    ensures taken { IfOk result (λ r. IsRow slots.now r.0.items (tokens_of spots.now) (tokens_of r.1.now)) }
    ensures shorter { IfOk result (λ r. length r.1.now ≤ length spots.now) }
    ensures refused { IfErr result (IsRefused (IsRow slots.now) (tokens_of spots.now)) }
{
    let mut numbers = Vec::new(alloc);
    let mut rest = spots;
    for slot in slots {
        rest = token_of(*slot, &mut numbers, rest)?;
    }
    Ok((numbers, rest))
}

/// Reads a token of a row, and puts its number behind the others, if it has one.
fn token_of<'a>(
    slot: Slot,
    numbers: &mut Vec<u64>,
    spots: &'a [Spot],
) -> Result<&'a [Spot], Stop<'a>>
    ensures taken { IfOk result (λ rest. IsSlot slot numbers.old.items numbers.new.items
        (tokens_of spots.now) (tokens_of rest.now)) }
    ensures shorter { IfOk result (λ rest. length rest.now < length spots.now) }
    ensures refused { IfErr result (IsNoSlot slot spots.now) }
{
    match slot {
        Slot::Given(token) => need(spots, token),
        Slot::Label => {
            let (number, rest) = label(spots)?;
            numbers.push(u64::from(number))?;
            Ok(rest)
        }
        Slot::Constant => {
            let (number, rest) = constant(spots)?;
            numbers.push(number)?;
            Ok(rest)
        }
    }
}

//! The values of levels at a state and at arguments.
ghost use Rattle.std.specs.List.{range_with_len};
ghost use Rattle.std.specs.Prelude.{◌≡◌, ◌+◌, ◌≤◌, ◌++◌, IfOk, OnOk, length, map};
ghost use Rattle.tm_dd.specs.Table.{assignment};
ghost use Rattle.tm_game.specs.Inner.Valued.{level_values};
ghost use Rattle.tm_sem.specs.StateBits.{bits_of_numbers, state_numbers};

use crate::numbers::push_numbers;
use std::alloc::{AllocError, Global};
use tm_game_bits::ROOM;
use tm_sem::state::State;

/// The values of so many levels, where bits by place give those of a state, whose levels follow an order, and bits in
/// order those of arguments. The levels behind these are false.
pub(crate) fn values_at(
    alloc: Global,
    order: &[u32],
    state: &[bool],
    arguments: &[bool],
    count: u32,
) -> Result<Vec<bool>, AllocError>
    requires { length order.now + 128 ≤ count }
    ensures { IfOk result (λ values. values.items ≡ level_values order.now state.now arguments.now count) }
{
    let mut values = Vec::new(alloc);
    push_places(&mut values, state, order)?;
    push_first(&mut values, arguments, ROOM)?;
    push_first(&mut values, &[], count - order.len() as u32 - ROOM)?;
    Ok(values)
}

/// The bits of a state by place, where its numbers have these widths.
pub(crate) fn bits_of_state(
    alloc: Global,
    widths: &[u8],
    state: &State,
) -> Result<Vec<bool>, AllocError>
    ensures { IfOk result (λ bits. bits.items ≡ bits_of_numbers widths.now (state_numbers state.now)) }
{
    let numbers = numbers_of(alloc, state)?;
    let mut bits = Vec::new(alloc);
    push_numbers(&mut bits, widths, &numbers)?;
    Ok(bits)
}

/// The numbers of a state: the values of its variables, the locations of its processes, and who moved last. The error
/// is want of memory.
pub fn numbers_of(alloc: Global, state: &State) -> Result<Vec<u64>, AllocError>
    ensures { IfOk result (λ numbers. numbers.items ≡ state_numbers state.now) }
{
    let mut numbers = Vec::from_slice(alloc, state.values.as_slice())?;
    push_longer(&mut numbers, state.places.as_slice())?;
    numbers.push(u64::from(state.last))?;
    Ok(numbers)
}

// Puts numbers behind others of more bits.
fn push_longer(numbers: &mut Vec<u64>, short: &[u32]) -> Result<(), AllocError>
    ensures { OnOk result (numbers.new.items ≡ numbers.old.items ++ short.now) }
{
    for number in short {
        numbers.push(u64::from(*number))?;
    }
    Ok(())
}

// Puts the bits at some places behind others; those that are not there are false.
fn push_places(values: &mut Vec<bool>, bits: &[bool], places: &[u32]) -> Result<(), AllocError>
    ensures { OnOk result (values.new.items ≡ values.old.items ++ map (assignment bits.now) places.now) }
{
    for place in places {
        values.push(bit_at(bits, *place as usize))?;
    }
    Ok(())
}

// Puts the first bits of some behind others; those that are not there are false.
fn push_first(values: &mut Vec<bool>, bits: &[bool], count: u32) -> Result<(), AllocError>
    ensures { OnOk result (values.new.items
        ≡ values.old.items ++ map (assignment bits.now) (range_with_len 0 count)) }
{
    for place in 0..count {
        values.push(bit_at(bits, place as usize))?;
    }
    Ok(())
}

// A bit of some, where one that is not there is false.
fn bit_at(bits: &[bool], place: usize) -> bool
    ensures { result ≡ assignment bits.now place }
{
    place < bits.len() && bits[place]
}

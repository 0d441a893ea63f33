//! Which weights bits of inputs have in the numbers that terms read from them, and how deep their levels stand then.
ghost use Rattle.std.specs.Prelude.{◌<◌, ◌^◌, length};

use std::alloc::{AllocError, Global};
use tm_flat::Flat;
use tm_term::{Term, TermId, Terms};

/// How many inputs are bits of choices, and how many are bits of arguments.
const ROOM: usize = 64;

/// How many weights there are.
const WEIGHTS: usize = 64;

/// How wide the widest number is that reads a bit, and the bit's weight in it. The width is 0 where none does.
#[derive(Clone, Copy)]
struct Reading {
    width: u8,
    weight: u8,
}

/// Of a bit that no number reads.
const UNREAD: Reading = Reading {
    width: 0,
    weight: 0,
};

/// A bit that a term reads as the next one of a number: which of the inputs it is, how wide the number is, and how many
/// of its bits were read before.
#[derive(Clone, Copy)]
struct NextBit {
    bit: u32,
    width: u8,
    before: u8,
}

/// How many levels of a state are to stand above that of each bit of arguments, and then of each bit of choices: those
/// down to the last one whose bit has the same weight in a value, for a choice in a value of the same width where there
/// is one. Of a bit that no number reads it is all of them.
///
/// `order` has the place of the bit of each level of a state. Bits that are copied or compared stand side by side so;
/// else diagrams of a value double with each of its bits.
pub fn levels_above(
    alloc: Global,
    flat: &Flat,
    terms: &Terms,
    order: &[u32],
) -> Result<Vec<u32>, AllocError>
    requires { length order.now < 2 ^ 32 }
{
    let states = order.len() as u32;
    let numbers = flat.widths.len().saturating_sub(2 * ROOM);
    let values = numbers
        .saturating_sub(flat.processes.len())
        .saturating_sub(1);
    let choices = readings(alloc, terms, numbers)?;
    let arguments = readings(alloc, terms, numbers.saturating_add(ROOM))?;
    let places = readings_by_place(alloc, &flat.widths, values)?;
    let depths = depths(alloc, &places, order)?;
    let mut above = Vec::new(alloc);
    push_depths(&mut above, &arguments, &depths, states)?;
    for choice in &choices {
        let depth = match depth_in_width(&places, order, *choice) {
            Some(depth) => depth,
            None => depth_of(*choice, &depths, states),
        };
        above.push(depth)?;
    }
    Ok(above)
}

// Puts behind other numbers how deep the levels of bits stand that are read so.
fn push_depths(
    above: &mut Vec<u32>,
    readings: &[Reading],
    depths: &[u32],
    states: u32,
) -> Result<(), AllocError> {
    for reading in readings {
        above.push(depth_of(*reading, depths, states))?;
    }
    Ok(())
}

// How deep the level of a bit stands that is read so, where `depths` tells it of each weight.
fn depth_of(reading: Reading, depths: &[u32], states: u32) -> u32 {
    match depths.get(reading.weight as usize) {
        Some(depth) if reading.width > 0 && *depth > 0 => *depth,
        _ => states,
    }
}

// How the bits are read whose inputs begin at this number.
fn readings(alloc: Global, terms: &Terms, first: usize) -> Result<Vec<Reading>, AllocError> {
    let mut readings = vec![in alloc; UNREAD; ROOM]?;
    let mut passed = Vec::new(alloc);
    for id in 0..terms.count() {
        let next = next_bit(terms, TermId(id), first, &passed);
        if let Some(next) = next {
            note(&mut readings, next);
        }
        passed.push(passed_with(next))?;
    }
    Ok(readings)
}

// How many bits of a number a term has read with its next one.
fn passed_with(next: Option<NextBit>) -> u8 {
    match next {
        Some(next) => next.before.saturating_add(1),
        None => 0,
    }
}

// Notes a bit that is not the first of its number, and the bit before it, where no wider number reads them.
fn note(readings: &mut [Reading], next: NextBit) {
    if next.before == 0 || next.width <= next.before {
        return;
    }
    let weight = next.width - 1 - next.before;
    let width = next.width;
    note_reading(readings, next.bit, Reading { width, weight });
    if next.bit > 0 {
        let weight = weight + 1;
        note_reading(readings, next.bit - 1, Reading { width, weight });
    }
}

// Notes how a bit is read, where no wider number reads it.
fn note_reading(readings: &mut [Reading], bit: u32, reading: Reading) {
    if let Some(old) = readings.get_mut(bit as usize) {
        if old.width < reading.width {
            *old = reading;
        }
    }
}

// The next bit that a term reads of a number: its only one, or the one behind those of a number that is shifted up.
// `passed` has how many bits each earlier term has read.
fn next_bit(terms: &Terms, id: TermId, first: usize, passed: &[u8]) -> Option<NextBit> {
    if let Some((bit, width)) = extended_bit(terms, id, first) {
        return Some(NextBit {
            bit,
            width,
            before: 0,
        });
    }
    let (number, low) = shifted_with(terms, id)?;
    let (bit, width) = extended_bit(terms, low, first)?;
    match passed.get(number.0 as usize) {
        Some(before) if *before > 0 => Some(NextBit {
            bit,
            width,
            before: *before,
        }),
        _ => None,
    }
}

// The number that a term shifts up, and what it puts into the free place.
fn shifted_with(terms: &Terms, id: TermId) -> Option<(TermId, TermId)> {
    let Some(Term::Or(high, low)) = known_term(terms, id) else {
        return None;
    };
    let Some(Term::Shl(number, _)) = known_term(terms, high) else {
        return None;
    };
    Some((number, low))
}

// The bit of an input that a term extends, counted from the input of a number, and to which width.
fn extended_bit(terms: &Terms, id: TermId, first: usize) -> Option<(u32, u8)> {
    let Some(Term::Resize(width, part)) = known_term(terms, id) else {
        return None;
    };
    let Some(Term::Input(input)) = known_term(terms, part) else {
        return None;
    };
    let bit = (input as usize).checked_sub(first)?;
    Some((bit as u32, width))
}

// The term of an id, where it is known.
fn known_term(terms: &Terms, id: TermId) -> Option<Term> {
    if terms.is_known(id) {
        Some(terms.term(id))
    } else {
        None
    }
}

// How deep the last level stands whose bit has each weight in a value, 0 where there is none.
fn depths(alloc: Global, places: &[Reading], order: &[u32]) -> Result<Vec<u32>, AllocError>
    requires { length order.now < 2 ^ 32 }
{
    let mut depths = vec![in alloc; 0; WEIGHTS]?;
    for (level, place) in order.iter().enumerate() {
        if let Some(value) = places.get(*place as usize) {
            if let Some(depth) = depths.get_mut(value.weight as usize) {
                *depth = level as u32 + 1;
            }
        }
    }
    Ok(depths)
}

// How deep the last level stands whose bit is read of a value as a bit is.
fn depth_in_width(places: &[Reading], order: &[u32], bit: Reading) -> Option<u32>
    requires { length order.now < 2 ^ 32 }
{
    let mut found = None;
    for (level, place) in order.iter().enumerate() {
        if let Some(value) = places.get(*place as usize) {
            if value.width == bit.width && value.weight == bit.weight {
                found = Some(level as u32 + 1);
            }
        }
    }
    found
}

// How the bit of each place is read of its value, for the first numbers, as many as are values.
fn readings_by_place(
    alloc: Global,
    widths: &[u8],
    values: usize,
) -> Result<Vec<Reading>, AllocError> {
    let mut places = Vec::new(alloc);
    for width in widths.iter().take(values) {
        for passed in 0..*width {
            places.push(Reading {
                width: *width,
                weight: *width - 1 - passed,
            })?;
        }
    }
    Ok(places)
}

//! The tests that are tried.
ghost use Rattle.std.specs.Prelude.{◌≡◌, ◌<◌, ◌^◌, IfOk, length, sum};
ghost use Rattle.tm_strat.specs.Tested.{AreAllBits, HasBitsOf};

use crate::atoms::predicate_of;
use crate::expressions::Expression;
use crate::numbers::{Counts, Number, greatest, narrow, number_at};
use crate::parameters::are_same;
use crate::predicates::Predicate;
use std::alloc::{AllocError, Global};
use tm_base::Name;
use tm_cir::block::Comparison;
use tm_game::Game;
use tm_syntax::design::{Design, Ty};
use tm_syntax::tree::EnumDef;

/// The most values of a number that is compared with each of them.
const MOST_VALUES: u64 = 16;

/// The most locations of a process that is compared with each of them.
const MOST_LOCATIONS: usize = 64;

/// The most low bits of a number that are compared with each of their values.
const MOST_LOW: u8 = 3;

/// The most tests of a sort: comparisons of two numbers, low bits, and values of numbers.
const MOST_OF_SORT: usize = 256;

/// The tests that are tried first: the atoms of the specification, bool variables, locations, values of narrow numbers,
/// and comparisons of two numbers of a width.
pub(crate) fn predicates(
    alloc: Global,
    game: &Game,
    design: &Design,
    counts: Counts,
) -> Result<Vec<Predicate>, AllocError> {
    let mut found = Vec::new(alloc);
    push_atoms(&mut found, game, counts)?;
    push_bools(&mut found, design)?;
    push_locations(&mut found, game)?;
    push_all(&mut found, &values(alloc, design)?)?;
    push_all(&mut found, &pairs(alloc, design)?)?;
    Ok(found)
}

/// The tests that are tried where none of the first ones splits a set: low bits of numbers.
pub(crate) fn low_predicates(alloc: Global, design: &Design) -> Result<Vec<Predicate>, AllocError> {
    let mut found = Vec::new(alloc);
    push_all(&mut found, &lows(alloc, design)?)?;
    Ok(found)
}

// Puts the first of some tests behind others.
fn push_all(found: &mut Vec<Predicate>, more: &[Predicate]) -> Result<(), AllocError> {
    for index in 0..MOST_OF_SORT {
        if index < more.len() {
            found.push(more[index])?;
        }
    }
    Ok(())
}

// Puts the atoms of the pool behind other tests.
fn push_atoms(found: &mut Vec<Predicate>, game: &Game, counts: Counts) -> Result<(), AllocError> {
    for atom in &game.flat().pool {
        if let Some(predicate) = predicate_of(game.terms(), counts, *atom) {
            found.push(predicate)?;
        }
    }
    Ok(())
}

// Puts the bool variables behind other tests.
fn push_bools(found: &mut Vec<Predicate>, design: &Design) -> Result<(), AllocError> {
    for index in 0..design.vars.len() {
        match &design.vars[index].ty {
            Ty::Bool => found.push(Predicate::Holds(Number::Variable(narrow(index))))?,
            Ty::Uint(_) => {}
            Ty::Enum(_) => {}
        }
    }
    Ok(())
}

// Puts the locations of processes behind other tests.
fn push_locations(found: &mut Vec<Predicate>, game: &Game) -> Result<(), AllocError> {
    let rows = game.flat().magic.as_slice();
    for process in 0..rows.len() {
        let row = rows[process].as_slice();
        push_process(found, Number::Location(narrow(process)), row)?;
    }
    Ok(())
}

// Puts the locations of a process behind other tests: all where these are few, and else its magic blocks.
fn push_process(
    found: &mut Vec<Predicate>,
    process: Number,
    row: &[bool],
) -> Result<(), AllocError> {
    for location in 0..row.len() {
        if row[location] || row.len() <= MOST_LOCATIONS {
            found.push(value_test(Comparison::Equal, process, location as u64))?;
        }
    }
    Ok(())
}

// The comparison of a number with a constant.
fn value_test(comparison: Comparison, number: Number, value: u64) -> Predicate {
    let one = Expression::Number(number);
    Predicate::Compare(comparison, one, Expression::Constant(value))
}

// How many values a type has, or none for a bool.
fn count_of(design: &Design, ty: &Ty) -> Option<u64> {
    match ty {
        Ty::Bool => None,
        Ty::Uint(width) => Some(greatest(*width).saturating_add(1)),
        Ty::Enum(name) => Some(constants_of(&design.spec.enums, name)),
    }
}

// How many constants the enum of a name has.
fn constants_of(enums: &[EnumDef], name: &Name) -> u64 {
    for declared in enums {
        if are_same(&declared.name.text, name) {
            return declared.constants.len() as u64;
        }
    }
    0
}

// The values of narrow numbers as tests.
fn values(alloc: Global, design: &Design) -> Result<Vec<Predicate>, AllocError> {
    let mut found = Vec::new(alloc);
    for index in 0..design.vars.len() {
        if let Some(count) = count_of(design, &design.vars[index].ty) {
            if count <= MOST_VALUES && found.len() < MOST_OF_SORT {
                push_each(&mut found, Number::Variable(narrow(index)), count)?;
            }
        }
    }
    Ok(found)
}

// Puts the values of a number behind other tests.
fn push_each(found: &mut Vec<Predicate>, number: Number, count: u64) -> Result<(), AllocError> {
    for value in 0..count {
        found.push(value_test(Comparison::Equal, number, value))?;
        if value > 1 {
            found.push(value_test(Comparison::Less, number, value))?;
        }
    }
    Ok(())
}

// The width of a number, or none of a bool or an enum.
fn width_of(ty: &Ty) -> Option<u8> {
    match ty {
        Ty::Bool => None,
        Ty::Uint(width) => Some(*width),
        Ty::Enum(_) => None,
    }
}

// The comparisons of two numbers of a width as tests.
fn pairs(alloc: Global, design: &Design) -> Result<Vec<Predicate>, AllocError> {
    let mut found = Vec::new(alloc);
    for index in 0..design.vars.len() {
        if let Some(width) = width_of(&design.vars[index].ty) {
            push_pairs(&mut found, design, index, width)?;
        }
    }
    Ok(found)
}

// Puts the comparisons of a number with later ones of its width behind other tests, while these are few.
fn push_pairs(
    found: &mut Vec<Predicate>,
    design: &Design,
    first: usize,
    width: u8,
) -> Result<(), AllocError> {
    let one = Expression::Number(Number::Variable(narrow(first)));
    for second in 0..design.vars.len() {
        if found.len() >= MOST_OF_SORT {
            return Ok(());
        }
        if second > first && is_uint(&design.vars[second].ty, width) {
            let other = Expression::Number(Number::Variable(narrow(second)));
            found.push(Predicate::Compare(Comparison::Equal, one, other))?;
            found.push(Predicate::Compare(Comparison::Less, one, other))?;
            found.push(Predicate::Compare(Comparison::Less, other, one))?;
        }
    }
    Ok(())
}

// Whether a type is that of numbers of a width.
fn is_uint(ty: &Ty, width: u8) -> bool {
    match width_of(ty) {
        Some(own) => own == width,
        None => false,
    }
}

// The low bits of numbers as tests.
fn lows(alloc: Global, design: &Design) -> Result<Vec<Predicate>, AllocError> {
    let mut found = Vec::new(alloc);
    for index in 0..design.vars.len() {
        if let Some(width) = width_of(&design.vars[index].ty) {
            if found.len() < MOST_OF_SORT {
                push_lows(&mut found, Number::Variable(narrow(index)), width)?;
            }
        }
    }
    Ok(found)
}

// Puts the low bits of a number of a width behind other tests.
fn push_lows(found: &mut Vec<Predicate>, number: Number, width: u8) -> Result<(), AllocError> {
    for bits in 1..MOST_LOW + 1 {
        if bits < width {
            push_low(found, number, greatest(bits))?;
        }
    }
    Ok(())
}

// Puts the values of the low bits that a mask has behind other tests.
fn push_low(found: &mut Vec<Predicate>, number: Number, mask: u64) -> Result<(), AllocError> {
    let bits = Expression::Part(number, 0, mask);
    for value in 0..mask {
        let constant = Expression::Constant(value);
        found.push(Predicate::Compare(Comparison::Equal, bits, constant))?;
    }
    found.push(Predicate::Compare(Comparison::Equal, bits, Expression::Constant(mask)))?;
    Ok(())
}

/// The bits of all numbers of a state by place, where these are the widths of the numbers.
pub(crate) fn bits(
    alloc: Global,
    widths: &[u8],
    counts: Counts,
) -> Result<Vec<Predicate>, AllocError>
    ensures bits { IfOk result (λ found. length widths.now < 2 ^ 32 → AreAllBits counts widths.now found.items) }
    ensures count { IfOk result (λ found. length found.items ≡ sum widths.now) }
{
    let mut found = Vec::new(alloc);
    for index in 0..widths.len() {
        let number = number_at(counts, narrow(index));
        push_bits(&mut found, number, widths[index])?;
    }
    Ok(found)
}

// Puts the bits of a number of a width behind other tests, the most significant first.
fn push_bits(found: &mut Vec<Predicate>, number: Number, width: u8) -> Result<(), AllocError>
    ensures { IfOk result (λ done. HasBitsOf number width found.old.items found.new.items) }
{
    for passed in 0..width {
        found.push(Predicate::Bit(number, width - 1 - passed))?;
    }
    Ok(())
}

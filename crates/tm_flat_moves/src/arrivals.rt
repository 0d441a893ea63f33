//! Where runs have arrived, as terms.
ghost use Rattle.std.specs.Prelude.{◌<◌, ◌≡◌, ◌≤◌, ◌^◌, IfOk, IfSome, length, slice_get, Some};
ghost use Rattle.tm_base.specs.Arithmetic.{IsWidth};
ghost use Rattle.tm_scope.specs.Cells.{CellTables};
ghost use Rattle.tm_term.specs.Table.{IsSound};
ghost use Rattle.tm_flat.specs.Steps.{IsTerm};
ghost use Rattle.tm_flat_stmts.specs.Flows.{AreEnds, IsFlow};
ghost use Rattle.tm_flat_moves.specs.Arrived.{Arrives, ArrivesFirst, ArrivesMore, ArrivesOn};

use std::alloc::{AllocError, Global};
use tm_flat_exprs::make;
use tm_flat_stmts::{Ends, Flow};
use tm_term::{Term, TermId, Terms};

/// Runs that have arrived at some location, with the term of its number.
#[derive(Drop)]
pub(crate) struct Arrived {
    pub flow: Flow,
    pub place: TermId,
}

// The runs that stand at the location of a number.
fn arrived_first(
    alloc: Global,
    terms: &mut Terms,
    stop: &Flow,
    number: u64,
    width: u8,
) -> Result<Arrived, AllocError>
    requires width { IsWidth width }
    requires within { number < 2 ^ width }
    ensures { IfOk result (ArrivesFirst terms.old terms.new width number stop.now) }
{
    let place = make(terms, Term::Const(width, number))?;
    let flow = stop.copied(alloc)?;
    Ok(Arrived { flow, place })
}

// They and those that have arrived before, as one.
fn arrived_more(
    alloc: Global,
    terms: &mut Terms,
    before: &Arrived,
    stop: &Flow,
    number: u64,
    width: u8,
) -> Result<Arrived, AllocError>
    requires width { IsWidth width }
    requires within { number < 2 ^ width }
    requires sound { IsSound terms.old }
    requires place { IsTerm terms.old width before.now.place }
    requires flows { (x : CellTables) × IsFlow x terms.old before.now.flow × IsFlow x terms.old stop.now }
    ensures { IfOk result (ArrivesMore terms.old terms.new width number before.now stop.now) }
{
    let arrived = before.flow.copied(alloc)?;
    let flow = arrived.joined(alloc, terms, stop)?;
    let here = make(terms, Term::Const(width, number))?;
    let place = make(terms, Term::Ite(before.flow.guard(), before.place, here))?;
    Ok(Arrived { flow, place })
}

// They and those that have arrived before, if some have.
fn arrived_beside(
    alloc: Global,
    terms: &mut Terms,
    before: &Option<Arrived>,
    stop: &Flow,
    number: u64,
    width: u8,
) -> Result<Arrived, AllocError>
    requires width { IsWidth width }
    requires within { number < 2 ^ width }
    requires sound { IsSound terms.old }
    requires place { IfSome before.now (λ a. IsTerm terms.old width a.place) }
    requires flows { (x : CellTables) × IfSome before.now (λ a. IsFlow x terms.old a.flow)
        × IsFlow x terms.old stop.now }
    ensures { IfOk result (λ a. ArrivesOn terms.old terms.new width number before.now (Some stop.now) (Some a)) }
{
    match before {
        None => {
            let first = arrived_first(alloc, terms, stop, number, width)?;
            Ok(first)
        }
        Some(others) => {
            let more = arrived_more(alloc, terms, others, stop, number, width)?;
            Ok(more)
        }
    }
}

// Those of one more location, if some have stopped there.
fn arrived_on(
    alloc: Global,
    terms: &mut Terms,
    before: Option<Arrived>,
    stop: &Option<Flow>,
    number: u64,
    width: u8,
) -> Result<Option<Arrived>, AllocError>
    requires width { IsWidth width }
    requires within { number < 2 ^ width }
    requires sound { IsSound terms.old }
    requires place { IfSome before (λ a. IsTerm terms.old width a.place) }
    requires flows { (x : CellTables) × IfSome before (λ a. IsFlow x terms.old a.flow)
        × IfSome stop.now (IsFlow x terms.old) }
    ensures { IfOk result (ArrivesOn terms.old terms.new width number before stop.now) }
{
    match stop {
        None => Ok(before),
        Some(flow) => {
            let arrived = arrived_beside(alloc, terms, &before, flow, number, width)?;
            Ok(Some(arrived))
        }
    }
}

/// The runs that have stopped, as one flow, with the number of the location as a term of a width. Linear in the
/// locations and in the cells of those flows. `AllocError` is want of memory.
pub(crate) fn arrivals(
    alloc: Global,
    terms: &mut Terms,
    ends: &Ends,
    width: u8,
) -> Result<Option<Arrived>, AllocError>
    requires width { IsWidth width }
    requires within { length ends.now.stops ≤ 2 ^ width }
    requires sound { IsSound terms.old }
    requires ends { (x : CellTables) × AreEnds x terms.old ends.now }
    ensures { IfOk result (λ a. (x : CellTables) → AreEnds x terms.old ends.now
        → Arrives x terms.old terms.new width ends.now (length ends.now.stops) a) }
{
    let stops = ends.stops();
    let mut before = None;
    for number in 0..stops.len() {
        before = arrived_on(alloc, terms, before, &stops[number], number as u64, width)?;
    }
    Ok(before)
}

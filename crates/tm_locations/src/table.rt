//! The table of the locations of a process, whose rows share what is left to be done after them.
ghost use Rattle.std.specs.Prelude.{◌≡◌, position};
ghost use Rattle.tm_locations.specs.declared.numbers.Arrival as reached;
ghost use Rattle.tm_locations.specs.Inner.Numbers.{first_at, is_row_at};

use crate::numbers::LocationNumbers;
use indexmap::IndexSet;
use tm_base::Place;
use tm_scope::SiteBody;
use tm_syntax::tree::{Expr, LocalDef, Stmt};

/// What is to be done first: the locals of a body, statements in a row, or to assume the condition of a `wait` at its
/// place.
#[derive(Clone, Copy)]
pub enum Work<'t> {
    Locals(&'t [LocalDef]),
    Stmts(&'t [Stmt]),
    Assume(Place, &'t Expr),
}

/// What is left to be done: work of a body that a trail of calls has reached, and behind it what the node of a number
/// says. Number 0 is nothing, and number k + 1 is node k.
#[derive(Clone, Copy)]
pub struct RestNode<'t> {
    pub scope: SiteBody,
    pub trail: usize,
    pub work: Work<'t>,
    pub then: usize,
}

/// A trail of calls, the newest first: the place of a call, and behind it the trail of a number. Number 0 is no call,
/// and number k + 1 is node k.
#[derive(Clone, Copy, PartialEq, Eq, Hash, Debug)]
pub struct TrailNode {
    pub at: Place,
    pub then: usize,
}

/// A location: its place, the number of its trail, whether it is a magic block, and the number of what is left after
/// it.
#[derive(Clone, Copy)]
pub struct LocationRow {
    pub at: Place,
    pub trail: usize,
    pub is_magic: bool,
    pub rest: usize,
}

/// The locations of a process between its start and its end, in order, with what is left to be done at its start and
/// after each of them.
#[derive(Drop)]
pub struct Locations<'t> {
    pub(crate) rows: Vec<LocationRow>,
    pub(crate) rests: Vec<RestNode<'t>>,
    pub(crate) trails: IndexSet<TrailNode>,
    pub(crate) start: usize,
    pub(crate) numbers: LocationNumbers,
    pub(crate) ghost numbered: { (a : reached.Arrival) →
        first_at numbers a ≡ position (is_row_at a.at a.trail) rows.items },
}

//! The first row of each place and trail, found by hashing.
ghost use Rattle.std.specs.Prelude.{◌≡◌, IfOk, None, OnOk, Some, if◌then◌else◌, position};
ghost use Rattle.std.specs.Map.{lookup};
ghost use Rattle.std.specs.Option.{option_or};
ghost use Rattle.tm_locations.specs.declared.numbers.Arrival as reached;
ghost use Rattle.tm_locations.specs.Inner.Numbers.{first_at, is_row_at, same_arrival};

use crate::table::LocationRow;
use indexmap::IndexMap;
use std::alloc::{AllocError, Global};
use tm_base::Place;

// A place that is reached by the trail of a number.
#[derive(Clone, Copy, PartialEq, Eq, Hash, Debug)]
pub(crate) struct Arrival {
    pub at: Place,
    pub trail: usize,
}

// The index of the first row of each place and trail.
#[derive(Drop)]
pub(crate) struct LocationNumbers {
    pub first: IndexMap<Arrival, usize>,
}

impl LocationNumbers {
    // The first indices of some rows.
    pub(crate) fn of(alloc: Global, rows: &[LocationRow]) -> Result<LocationNumbers, AllocError>
        ensures { IfOk result (λ n. (a : reached.Arrival) →
            first_at n a ≡ position (is_row_at a.at a.trail) rows.now) }
    {
        let mut numbers = LocationNumbers {
            first: IndexMap::new(alloc),
        };
        for (index, row) in rows.iter().enumerate() {
            let arrival = Arrival {
                at: row.at,
                trail: row.trail,
            };
            numbers.note(arrival, index)?;
        }
        Ok(numbers)
    }

    // Notes an index. A place and trail that has one keeps it.
    fn note(&mut self, arrival: Arrival, index: usize) -> Result<(), AllocError>
        ensures { OnOk result ((a : reached.Arrival) → first_at self.new a
            ≡ option_or (first_at self.old a) (if same_arrival a arrival then Some index else None)) }
    {
        if self.first.get(&arrival).is_none() {
            self.first.insert(arrival, index)?;
        }
        Ok(())
    }

    // The first index of a place and trail.
    pub(crate) fn find(&self, arrival: Arrival) -> Option<usize>
        ensures { result ≡ first_at self.now arrival }
    {
        self.first.get(&arrival).copied()
    }
}

//! A design with the tables by which the terms of what it says of states are made.
ghost use Rattle.std.specs.Prelude.{◌≡◌};
ghost use Rattle.tm_flat_exprs.specs.Tables.{cells_of};

use tm_locations::Locations;
use tm_scope::{Cells, Scopes};
use tm_syntax::design::Design;

/// A design with the tables by which the terms of what it says of states are made: of its names, of its cells, and of
/// the locations of its processes.
#[derive(Drop)]
pub struct Marker<'s> {
    pub(crate) design: &'s Design,
    pub(crate) scopes: &'s Scopes<'s>,
    pub(crate) cells: &'s Cells<'s>,
    pub(crate) locations: &'s [Locations<'s>],
    pub(crate) ghost same_text: { scopes.now ≡ design.now.spec },
    pub(crate) ghost same_cells: { cells.now ≡ cells_of design.now },
}

impl<'s> Marker<'s> {
    /// A design with these tables.
    pub fn new(
        design: &'s Design,
        scopes: &'s Scopes<'s>,
        cells: &'s Cells<'s>,
        locations: &'s [Locations<'s>],
    ) -> Marker<'s>
        requires text { scopes.now ≡ design.now.spec }
        requires cells { cells.now ≡ cells_of design.now }
        ensures design { result.design.now ≡ design.now }
        ensures locations { result.locations.now ≡ locations.now }
    {
        Marker {
            design,
            scopes,
            cells,
            locations,
        }
    }
}

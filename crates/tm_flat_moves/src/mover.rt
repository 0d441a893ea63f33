//! A design with the tables by which its steps are made.
ghost use Rattle.std.specs.Prelude.{◌≡◌};
ghost use Rattle.tm_syntax.specs.Tree.View.{spec_tree};
ghost use Rattle.tm_syntax.specs.Scopes.Pauses.{call_depth};
ghost use Rattle.tm_flat_exprs.specs.Tables.{cells_of};

use tm_locations::Locations;
use tm_scope::{Cells, Scopes};
use tm_syntax::design::Design;

/// A design with the tables by which its steps are made: of its names, of its cells, and of the locations of a process.
#[derive(Drop)]
pub struct Mover<'s> {
    pub(crate) design: &'s Design,
    pub(crate) scopes: &'s Scopes<'s>,
    pub(crate) cells: &'s Cells<'s>,
    pub(crate) locations: &'s Locations<'s>,
    pub(crate) process: u32,
    pub(crate) depth: usize,
    pub(crate) ghost same_text: { scopes.now ≡ design.now.spec },
    pub(crate) ghost same_cells: { cells.now ≡ cells_of design.now },
    pub(crate) ghost deep: { depth ≡ call_depth (spec_tree design.now.spec) },
}

impl<'s> Mover<'s> {
    /// A design with these tables, and with the locations of a process. `depth` is how deep the calls of its text may
    /// nest.
    pub fn new(
        design: &'s Design,
        scopes: &'s Scopes<'s>,
        cells: &'s Cells<'s>,
        locations: &'s Locations<'s>,
        process: u32,
        depth: usize,
    ) -> Mover<'s>
        requires text { scopes.now ≡ design.now.spec }
        requires cells { cells.now ≡ cells_of design.now }
        requires depth { depth ≡ call_depth (spec_tree design.now.spec) }
        ensures design { result.design.now ≡ design.now }
        ensures locations { result.locations.now ≡ locations.now }
        ensures process { result.process ≡ process }
    {
        Mover {
            design,
            scopes,
            cells,
            locations,
            process,
            depth,
        }
    }
}

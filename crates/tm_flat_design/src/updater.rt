//! A design with the tables by which it is made guarded updates.
ghost use Rattle.std.specs.Prelude.{◌≡◌, IfOk};
ghost use Rattle.tm_syntax.specs.Tree.View.{spec_tree};
ghost use Rattle.tm_syntax.specs.Scopes.Pauses.{call_depth};
ghost use Rattle.tm_flat_exprs.specs.Tables.{cells_of};

use std::alloc::{AllocError, Global};
use tm_flat_states::Marker;
use tm_locations::Locations;
use tm_plain::Tables;
use tm_scope::{Cells, Scopes};
use tm_syntax::design::Design;

/// A design with the tables by which it is made guarded updates: of its names, of its cells, and of the locations of
/// its processes. `depth` is how deep the calls of its text may nest.
#[derive(Drop)]
pub struct Updater<'s> {
    pub(crate) design: &'s Design,
    pub(crate) scopes: &'s Scopes<'s>,
    pub(crate) cells: &'s Cells<'s>,
    pub(crate) locations: &'s [Locations<'s>],
    pub(crate) depth: usize,
    pub(crate) ghost same_text: { scopes.now ≡ design.now.spec },
    pub(crate) ghost same_cells: { cells.now ≡ cells_of design.now },
    pub(crate) ghost deep: { depth ≡ call_depth (spec_tree design.now.spec) },
}

/// The cells of a design, by the tables of its text, in time linear in the paths of its variables. `AllocError` is want
/// of memory.
pub(crate) fn find_cells<'s>(alloc: Global, tables: &'s Tables<'s>) -> Result<Cells<'s>, AllocError>
    ensures { IfOk result (λ cells. cells ≡ cells_of tables.now) }
{
    let design = tables.design();
    let instances = design.instances.as_slice();
    let vars = design.vars.as_slice();
    let cells = Cells::new(
        alloc,
        &design.spec,
        tables.scopes(),
        instances,
        vars,
        tables.pausing(),
    )?;
    Ok(cells)
}

impl<'s> Updater<'s> {
    /// The design of these tables, with its cells and the locations of its processes.
    pub(crate) fn new(
        tables: &'s Tables<'s>,
        cells: &'s Cells<'s>,
        locations: &'s [Locations<'s>],
    ) -> Updater<'s>
        requires { cells.now ≡ cells_of tables.now }
        ensures design { result.design.now ≡ tables.now }
        ensures locations { result.locations.now ≡ locations.now }
    {
        Updater {
            design: tables.design(),
            scopes: tables.scopes(),
            cells,
            locations,
            depth: tables.depth(),
        }
    }

    /// The tables by which the terms are made of what the design says of states.
    pub(crate) fn marker(&self) -> Marker<'s>
        ensures design { result.design.now ≡ self.now.design.now }
        ensures locations { result.locations.now ≡ self.now.locations.now }
    {
        Marker::new(self.design, self.scopes, self.cells, self.locations)
    }
}

//! A design with the tables by which the steps of its controllable tasks are made.
ghost use Rattle.std.specs.Prelude.{◌+◌, ◌<◌, ◌≡◌, ◌^◌, length};
ghost use Rattle.tm_syntax.specs.Scopes.Pauses.{call_depth};
ghost use Rattle.tm_syntax.specs.Tree.View.{spec_tree};
ghost use Rattle.tm_syntax.specs.Design.View.{design_tree};
ghost use Rattle.tm_flat.specs.Inputs.{first_choice};
ghost use Rattle.tm_flat_exprs.specs.Tables.{cells_of};

use tm_locations::Locations;
use tm_scope::{Cells, Scopes};
use tm_syntax::design::Design;

/// A design with the tables by which the steps of its controllable tasks are made: of its names, of its cells, and of
/// the locations of each process.
#[derive(Drop)]
pub struct Tasks<'s> {
    pub(crate) design: &'s Design,
    pub(crate) scopes: &'s Scopes<'s>,
    pub(crate) cells: &'s Cells<'s>,
    pub(crate) all: &'s [Locations<'s>],
    pub(crate) depth: usize,
    pub(crate) ghost same_text: { scopes.now ≡ design.now.spec },
    pub(crate) ghost same_cells: { cells.now ≡ cells_of design.now },
    pub(crate) ghost deep: { depth ≡ call_depth (spec_tree design.now.spec) },
}

impl<'s> Tasks<'s> {
    /// A design with these tables, and with the locations of each process. `depth` is how deep the calls of its text
    /// may nest.
    pub fn new(
        design: &'s Design,
        scopes: &'s Scopes<'s>,
        cells: &'s Cells<'s>,
        all: &'s [Locations<'s>],
        depth: usize,
    ) -> Tasks<'s>
        requires text { scopes.now ≡ design.now.spec }
        requires cells { cells.now ≡ cells_of design.now }
        requires depth { depth ≡ call_depth (spec_tree design.now.spec) }
        ensures design { result.design.now ≡ design.now }
        ensures locations { result.all.now ≡ all.now }
    {
        Tasks {
            design,
            scopes,
            cells,
            all,
            depth,
        }
    }

    // How many state variables there are.
    fn vars(&self) -> u32
        requires { length self.now.design.now.vars.items < 2 ^ 32 }
        ensures { result ≡ length self.now.design.now.vars.items }
    {
        self.design.vars.len() as u32
    }

    // How many processes there are.
    fn processes(&self) -> u32
        requires { length self.now.design.now.processes.items < 2 ^ 32 }
        ensures { result ≡ length self.now.design.now.processes.items }
    {
        self.design.processes.len() as u32
    }

    // The number of the first input that is a bit of choices.
    pub(crate) fn first(&self) -> u32
        requires { first_choice (design_tree self.now.design.now) < 2 ^ 32 }
        ensures { result ≡ first_choice (design_tree self.now.design.now) }
    {
        self.vars() + (self.processes() + 1)
    }
}

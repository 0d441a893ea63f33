//! A design with the tables by which the terms of its predicates are made.
ghost use Rattle.std.specs.Prelude.{◌≡◌};
ghost use Rattle.tm_flat_exprs.specs.Tables.{cells_of};

use tm_scope::{Cells, Scopes};
use tm_syntax::design::Design;

/// A design with the tables by which the terms of its predicates are made: of its names, and of its cells.
#[derive(Drop)]
pub struct Pooler<'s> {
    pub(crate) design: &'s Design,
    pub(crate) scopes: &'s Scopes<'s>,
    pub(crate) cells: &'s Cells<'s>,
    pub(crate) ghost same_text: { scopes.now ≡ design.now.spec },
    pub(crate) ghost same_cells: { cells.now ≡ cells_of design.now },
}

impl<'s> Pooler<'s> {
    /// A design with these tables.
    pub fn new(design: &'s Design, scopes: &'s Scopes<'s>, cells: &'s Cells<'s>) -> Pooler<'s>
        requires text { scopes.now ≡ design.now.spec }
        requires cells { cells.now ≡ cells_of design.now }
        ensures { result.design.now ≡ design.now }
    {
        Pooler {
            design,
            scopes,
            cells,
        }
    }
}

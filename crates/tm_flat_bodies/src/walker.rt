//! The tables by which the bodies of a design are walked.
ghost use Rattle.std.specs.Prelude.{◌≡◌};

use tm_locations::Locations;
use tm_scope::{Cells, Scopes, Sites};
use tm_syntax::design::Instance;

/// The tables by which the bodies of a design are walked: of its cells, and of the locations of a process. `first` is
/// the number of the first input that is a bit of choices.
#[derive(Drop)]
pub struct Walker<'s> {
    pub(crate) scopes: &'s Scopes<'s>,
    pub(crate) cells: &'s Cells<'s>,
    pub(crate) sites: Sites<'s>,
    pub(crate) locations: &'s Locations<'s>,
    pub(crate) first: u32,
    pub(crate) ghost same_text: { scopes.now ≡ cells.now.spec },
    pub(crate) ghost same_sites: { sites ≡ record { spec = cells.now.spec; instances = cells.now.instances } },
}

impl<'s> Walker<'s> {
    /// A walker by these tables. `first` is the number of the first input that is a bit of choices.
    pub fn new(
        scopes: &'s Scopes<'s>,
        cells: &'s Cells<'s>,
        instances: &'s [Instance],
        locations: &'s Locations<'s>,
        first: u32,
    ) -> Walker<'s>
        requires text { scopes.now ≡ cells.now.spec }
        requires instances { instances.now ≡ cells.now.instances }
        ensures cells { result.cells.now ≡ cells.now }
        ensures locations { result.locations.now ≡ locations.now }
        ensures first { result.first ≡ first }
    {
        Walker {
            scopes,
            cells,
            sites: Sites::new(scopes, instances),
            locations,
            first,
        }
    }
}

//! Which locations are magic blocks.
ghost use Rattle.std.specs.Prelude.{◌≡◌, ℕ, IfOk, map};
ghost use Rattle.tm_syntax.specs.Design.{DesignTree};
ghost use Rattle.tm_syntax.specs.Design.Locations.{is_magic_at};
ghost use Rattle.tm_syntax.specs.Design.View.{design_tree};
ghost use Rattle.tm_states.specs.States.{HaveLocations};
ghost use Rattle.tm_locations.specs.Locations.{AreLocations, table_of};
ghost use Rattle.tm_flat.specs.IsFlat.{location_numbers, process_numbers};

use crate::marker::Marker;
use std::alloc::{AllocError, Global};
use tm_locations::Locations;

/// Whether a location is a magic block.
pub(crate) fn is_magic(locations: &Locations<'_>, place: usize) -> bool
    ensures { (d : DesignTree) (p : ℕ) → AreLocations (table_of locations.now) d p → result ≡ is_magic_at d p place }
{
    if place == 0 {
        return false;
    }
    match locations.rows().get(place - 1) {
        Some(row) => row.is_magic,
        None => false,
    }
}

// Which locations of a process are magic blocks, its start and its end included.
fn magic_places(alloc: Global, locations: &Locations<'_>) -> Result<Vec<bool>, AllocError>
    ensures { IfOk result (λ places. (d : DesignTree) (p : ℕ) → AreLocations (table_of locations.now) d p
        → places.items ≡ map (is_magic_at d p) (location_numbers d p)) }
{
    let mut places = Vec::new(alloc);
    for place in 0..locations.rows().len() + 2 {
        places.push(is_magic(locations, place))?;
    }
    Ok(places)
}

impl<'s> Marker<'s> {
    /// Which locations of each process are magic blocks, its start and its end included. Linear in the locations.
    /// `AllocError` is want of memory.
    pub fn magic(&self, alloc: Global) -> Result<Vec<Vec<bool>>, AllocError>
        requires { HaveLocations (design_tree self.now.design.now) self.now.locations.now }
        ensures { IfOk result (λ all. map (λ places. places.items) all.items
            ≡ map (λ p. map (is_magic_at (design_tree self.now.design.now) p)
            (location_numbers (design_tree self.now.design.now) p))
            (process_numbers (design_tree self.now.design.now))) }
    {
        let mut all = Vec::new(alloc);
        for locations in self.locations {
            let places = magic_places(alloc, locations)?;
            all.push(places)?;
        }
        Ok(all)
    }
}

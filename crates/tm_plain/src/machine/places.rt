//! Where processes stand.
ghost use Rattle.std.specs.Prelude.{◌≡◌, ℕ, slice_index};
ghost use Rattle.tm_syntax.specs.Design.{DesignTree};
ghost use Rattle.tm_syntax.specs.Design.Locations.{is_magic_at, rest};
ghost use Rattle.tm_syntax.specs.Design.View.{design_tree};
ghost use Rattle.tm_locations.specs.Locations.{AreLocations, IsRest, table_of};
ghost use Rattle.tm_sem.specs.Step.{is_driver_turn as is_turn, stands_at_magic as stands_so};

use crate::machine::Machine;
use tm_locations::Locations;
use tm_sem::state::State;

// The number of what is left to be done at a location.
pub(crate) fn rest_number(locations: &Locations<'_>, place: u32) -> usize
    ensures { (d : DesignTree) (p : ℕ) → AreLocations (table_of locations.now) d p
        → IsRest (table_of locations.now).trails (table_of locations.now).rests result (rest d p place) }
{
    if place == 0 {
        return locations.start();
    }
    match locations.rows().get(place as usize - 1) {
        Some(row) => row.rest,
        None => 0,
    }
}

// Whether a location is a magic block.
fn is_magic(locations: &Locations<'_>, place: u32) -> bool
    ensures { (d : DesignTree) (p : ℕ) → AreLocations (table_of locations.now) d p → result ≡ is_magic_at d p place }
{
    if place == 0 {
        return false;
    }
    match locations.rows().get(place as usize - 1) {
        Some(row) => row.is_magic,
        None => false,
    }
}

// The location of a process, 0 where there is none.
pub(crate) fn place_of(state: &State, number: usize) -> u32
    ensures { result ≡ slice_index state.now.places number }
{
    state.places.get(number).copied().unwrap_or(0)
}

impl<'s> Machine<'s> {
    // Whether a process stands at a magic block.
    pub(crate) fn stands_at_magic(&self, state: &State, number: usize) -> bool
        ensures { result ≡ stands_so (design_tree self.now) state.now number }
    {
        match self.locations.get(number) {
            Some(locations) => is_magic(locations, place_of(state, number)),
            None => false,
        }
    }

    /// Whether some process stands at a magic block, so that the driver can be picked. Linear in the processes, and
    /// takes no memory.
    pub fn magic(&self, state: &State) -> bool
        ensures { result ≡ is_turn (design_tree self.now) state.now }
    {
        for number in 0..self.locations.len() {
            if self.stands_at_magic(state, number) {
                return true;
            }
        }
        false
    }
}

//! The numbers of the ends of processes.
ghost use Rattle.std.specs.Prelude.{◌≡◌, ℕ};
ghost use Rattle.tm_syntax.specs.Design.{DesignTree};
ghost use Rattle.tm_syntax.specs.Design.Locations.{end_number};
ghost use Rattle.tm_locations.specs.Locations.{AreLocations, table_of};
ghost use Rattle.tm_states.specs.States.{end_of};

use tm_locations::Locations;

/// The number of the end of the process whose locations these are. In constant time, and takes no memory.
pub fn end_number(locations: &Locations<'_>) -> usize
    ensures count { result ≡ end_of locations.now }
    ensures end { (d : DesignTree) (p : ℕ) → AreLocations (table_of locations.now) d p → result ≡ end_number d p }
{
    locations.rows().len() + 1
}

//! The numbers of trails and locations.
ghost use Rattle.std.specs.Prelude.{◌≡◌, ◌++◌, ◌∷◌, ℕ, List};
ghost use Rattle.tm_base.specs.declared.place.Place as placed;
ghost use Rattle.tm_syntax.specs.Design.{DesignTree};
ghost use Rattle.tm_syntax.specs.Design.Locations.{location_number};
ghost use Rattle.tm_syntax.specs.Design.Work.{call_place};
ghost use Rattle.tm_locations.specs.Locations.{AreLocations, table_of};
ghost use Rattle.tm_flat_bodies.specs.Walks.{IsTrailOf};

use tm_base::Place;
use tm_locations::Locations;
use tm_syntax::tree::Ident;

/// The number of a trail with the call of a path in front of it, if a location lies behind it.
pub(crate) fn trail_behind(
    locations: &Locations<'_>,
    trail: Option<usize>,
    path: &[Ident],
) -> Option<usize>
    ensures { (calls : List placed.Place) → IsTrailOf (table_of locations.now) trail calls
        → IsTrailOf (table_of locations.now) result (call_place path.now ++ calls) }
{
    match path.first() {
        None => trail,
        Some(name) => trail_behind_place(locations, trail, name.place),
    }
}

// The number of a trail with a call at a place in front of it.
fn trail_behind_place(locations: &Locations<'_>, trail: Option<usize>, at: Place) -> Option<usize>
    ensures { (calls : List placed.Place) → IsTrailOf (table_of locations.now) trail calls
        → IsTrailOf (table_of locations.now) result (at ∷ calls) }
{
    match trail {
        None => None,
        Some(number) => locations.trail_behind(at, number),
    }
}

/// The number of the location at a place that a trail has reached.
pub(crate) fn location(locations: &Locations<'_>, trail: Option<usize>, at: Place) -> usize
    ensures { (d : DesignTree) (p : ℕ) → AreLocations (table_of locations.now) d p → (calls : List placed.Place)
        → IsTrailOf (table_of locations.now) trail calls → result ≡ location_number d p at calls }
{
    match trail {
        None => locations.rows().len() + 1,
        Some(number) => locations.number(at, number),
    }
}

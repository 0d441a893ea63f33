//! What a table of locations tells.
ghost use Rattle.std.specs.Prelude.{◌≡◌, ◌∷◌, ℕ, IfNone, IfSome, List};
ghost use Rattle.tm_base.specs.declared.place.Place as placed;
ghost use Rattle.tm_syntax.specs.Design.{DesignTree};
ghost use Rattle.tm_syntax.specs.Design.Locations.{location_number};
ghost use Rattle.tm_locations.specs.Locations.{AreLocations, IsTrail, numbered_node, table_of};

use crate::numbers::Arrival;
use crate::table::{LocationRow, Locations, RestNode, TrailNode};
use tm_base::Place;

impl<'t> Locations<'t> {
    /// The locations in order: row k is that of location k + 1. Location 0 is the start, and the last one is the end.
    pub fn rows(&self) -> &[LocationRow]
        ensures { result.now ≡ (table_of self.now).rows }
    {
        self.rows.as_slice()
    }

    /// The number of what is left to be done at the start.
    pub fn start(&self) -> usize
        ensures { result ≡ (table_of self.now).start }
    {
        self.start
    }

    /// What is left to be done by a number: work, and the number of what is behind it. Nothing is left by number 0.
    pub fn rest(&self, number: usize) -> Option<RestNode<'t>>
        ensures { result ≡ numbered_node (table_of self.now).rests number }
    {
        if number == 0 {
            return None;
        }
        self.rests.get(number - 1).copied()
    }

    /// The number of a trail with one more call in front of it, by the place of the call. There is none where no
    /// location lies in the called body, nor below it.
    pub fn trail_behind(&self, at: Place, trail: usize) -> Option<usize>
        ensures found { IfSome result (λ n. (before : List placed.Place)
            → IsTrail (table_of self.now).trails trail before
            → IsTrail (table_of self.now).trails n (at ∷ before)) }
        ensures none { IfNone result ((before : List placed.Place) → IsTrail (table_of self.now).trails trail before
            → (n : ℕ) → ¬ IsTrail (table_of self.now).trails n (at ∷ before)) }
    {
        let index = self.trails.get_index_of(&TrailNode { at, then: trail })?;
        prove!(index < self.trails.len());
        Some(index + 1)
    }

    /// The number of the location at a place, reached by the trail of a number, in constant time; that of the end where
    /// there is none.
    pub fn number(&self, at: Place, trail: usize) -> usize
        ensures { (d : DesignTree) (p : ℕ) → AreLocations (table_of self.now) d p → (before : List placed.Place)
            → IsTrail (table_of self.now).trails trail before → result ≡ location_number d p at before }
    {
        let last = self.rows.len();
        self.numbers.find(Arrival { at, trail }).unwrap_or(last) + 1
    }
}

//! The order of the places of a text.
ghost use Rattle.std.specs.Prelude.{◌≡◌};
ghost use Rattle.tm_syntax.specs.Places.{is_before};

use tm_base::Place;

/// Whether a place stands before another one.
pub fn is_before(a: Place, b: Place) -> bool
    ensures { result ≡ is_before a b }
{
    a.line < b.line || (a.line == b.line && a.column < b.column)
}

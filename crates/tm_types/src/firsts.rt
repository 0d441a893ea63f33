//! The first of several faults by their places: the parts of a text may be judged in any order.
ghost use Rattle.std.specs.Prelude.{◌≡◌, ◌++◌, List};
ghost use Rattle.tm_base.specs.declared.place.Place as stands;
ghost use Rattle.tm_syntax.specs.Places.{earliest_of};
ghost use Rattle.tm_syntax.specs.Faults.Marks.{place_unless};
ghost use Rattle.tm_types.specs.Firsts.{first_of};

use tm_base::Place;
use tm_names::is_before;

// The earlier of two places that may be there: the first place of what both are the first of.
pub(crate) fn earlier_place(first: Option<Place>, second: Option<Place>) -> Option<Place>
    ensures earlier { result ≡ earliest_of (λ (at : stands.Place). at) first second }
    ensures joined { (xs ys : List stands.Place) → first ≡ first_of xs → second ≡ first_of ys
        → result ≡ first_of (xs ++ ys) }
{
    choose_earlier(first, second)
}

// The earlier of two places that may be there.
fn choose_earlier(first: Option<Place>, second: Option<Place>) -> Option<Place>
    ensures { result ≡ earliest_of (λ (at : stands.Place). at) first second }
{
    let Some(x) = first else {
        return second;
    };
    let Some(y) = second else {
        return first;
    };
    if is_before(y, x) { second } else { first }
}

// The first of the faults at a place: the place, unless all is well there.
pub(crate) fn place_unless(fits: bool, at: Place) -> Option<Place>
    ensures { result ≡ first_of (place_unless fits at) }
{
    if fits { None } else { Some(at) }
}

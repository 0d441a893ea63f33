//! Where statements are walked.
ghost use Rattle.std.specs.Prelude.{◌≡◌, unwrap_or};

use tm_flat_exprs::TermReader;

/// A body of an instance whose statements are walked, how deep calls may nest below it, and the number of the trail of
/// calls that has led to it: there is none where no location lies in the body, nor below it.
#[derive(Drop)]
pub struct Stand<'s> {
    pub reader: TermReader<'s>,
    pub depth: usize,
    pub trail: Option<usize>,
}

/// What was found, or else where the walk began.
pub(crate) fn stand_or<'a, 's>(found: &'a Option<Stand<'s>>, start: &'a Stand<'s>) -> &'a Stand<'s>
    ensures { result.now ≡ unwrap_or found.now start.now }
{
    match found {
        Some(stand) => stand,
        None => start,
    }
}

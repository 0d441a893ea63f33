//! The first of several faults at names by their places: the parts of a text may be judged in any order.
ghost use Rattle.std.specs.Prelude.{◌≡◌, ◌++◌, List};
ghost use Rattle.std.specs.Option.{option_map};
ghost use Rattle.tm_syntax.specs.Faults.Marks.{Mark, first_mark};
ghost use Rattle.tm_names.specs.ScopeNames.{mark_of};

use tm_names::{NameMark, earlier_mark};

// The earlier of two faults at names: the first of what both are the first of.
pub(crate) fn earlier_name<'n>(
    first: Option<NameMark<'n>>,
    second: Option<NameMark<'n>>,
) -> Option<NameMark<'n>>
    ensures { (xs ys : List Mark) → option_map mark_of first.entry ≡ first_mark xs
        → option_map mark_of second.entry ≡ first_mark ys
        → option_map mark_of result ≡ first_mark (xs ++ ys) }
{
    earlier_mark(first, second)
}

// The earliest of four faults at names: the first of what all are the first of.
pub(crate) fn earliest_of_four<'n>(
    one: Option<NameMark<'n>>,
    two: Option<NameMark<'n>>,
    three: Option<NameMark<'n>>,
    four: Option<NameMark<'n>>,
) -> Option<NameMark<'n>>
    ensures { (ws xs ys zs : List Mark) → option_map mark_of one.entry ≡ first_mark ws
        → option_map mark_of two.entry ≡ first_mark xs → option_map mark_of three.entry ≡ first_mark ys
        → option_map mark_of four.entry ≡ first_mark zs
        → option_map mark_of result ≡ first_mark (ws ++ xs ++ ys ++ zs) }
{
    earlier_name(earlier_name(earlier_name(one, two), three), four)
}

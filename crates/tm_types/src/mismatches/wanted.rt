//! Names of the wrong sort.
ghost use Rattle.std.specs.Prelude.{◌≡◌};
ghost use Rattle.std.specs.Option.{option_map};
ghost use Rattle.tm_syntax.specs.Faults.Mismatches as text;
ghost use Rattle.tm_syntax.specs.Faults.Operands as operands;
ghost use Rattle.tm_types.specs.Firsts.{first_of};
ghost use Rattle.tm_names.specs.Meanings.{meaning_of};
ghost use Rattle.tm_names.specs.Sorts.{sort_of};
ghost use Rattle.tm_types.specs.Wanted.{suits};

use crate::firsts::place_unless;
use tm_base::Place;
use tm_names::{Meaning, Sort};
use tm_syntax::tree::Ident;

/// What a name is wanted for.
#[derive(Clone, Copy)]
pub(crate) enum Wanted {
    /// A parameter, local, variable or constant; an array stands with an index alone.
    Value,
    /// A parameter, local or variable, which is assigned.
    Target,
    /// An array, with an index.
    Element,
    /// A task or procedure, which is called.
    Call,
    /// An enum, as a type.
    Enum,
    /// A template, of an instance or port.
    Template,
}

// Whether this is a parameter, local, variable or constant.
fn is_valued(sort: Sort) -> bool
    ensures { result ≡ operands.is_valued (sort_of sort.entry) }
{
    match sort {
        Sort::Slot | Sort::Variable | Sort::Constant => true,
        _ => false,
    }
}

// Whether this is a parameter, local or variable.
fn is_assigned(sort: Sort) -> bool
    ensures { result ≡ operands.is_assigned (sort_of sort.entry) }
{
    match sort {
        Sort::Slot | Sort::Variable => true,
        _ => false,
    }
}

// Whether this is an array.
fn is_indexed(sort: Sort) -> bool
    ensures { result ≡ operands.is_indexed (sort_of sort.entry) }
{
    match sort {
        Sort::Array => true,
        _ => false,
    }
}

// Whether this is a task or procedure.
fn is_called(sort: Sort) -> bool
    ensures { result ≡ operands.is_called (sort_of sort.entry) }
{
    match sort {
        Sort::Task => true,
        _ => false,
    }
}

// Whether this is an enum.
fn is_enum(sort: Sort) -> bool
    ensures { result ≡ text.is_enum (sort_of sort.entry) }
{
    match sort {
        Sort::Enum => true,
        _ => false,
    }
}

// Whether this is a template.
fn is_template(sort: Sort) -> bool
    ensures { result ≡ text.is_template (sort_of sort.entry) }
{
    match sort {
        Sort::Template(_, _) => true,
        _ => false,
    }
}

// Whether what is declared so is what is wanted.
fn suits(wanted: Wanted, sort: Sort) -> bool
    ensures { result ≡ suits wanted (sort_of sort.entry) }
{
    match wanted {
        Wanted::Value => is_valued(sort),
        Wanted::Target => is_assigned(sort),
        Wanted::Element => is_indexed(sort),
        Wanted::Call => is_called(sort),
        Wanted::Enum => is_enum(sort),
        Wanted::Template => is_template(sort),
    }
}

/// The place of a name that is declared, as something else than is wanted.
pub(crate) fn misnamed(wanted: Wanted, sort: Option<Sort>, name: &Ident) -> Option<Place>
    ensures { result ≡ first_of (text.misnamed (suits wanted) (option_map sort_of sort.entry) name.now) }
{
    match sort {
        Some(sort) => place_unless(suits(wanted, sort), name.place),
        None => None,
    }
}

/// The place of the name at which a path is not what is wanted.
pub(crate) fn wrong_sort(wanted: Wanted, meaning: Meaning) -> Option<Place>
    ensures { result ≡ first_of (operands.wrong_sort (suits wanted) (meaning_of meaning.entry)) }
{
    match meaning {
        Meaning::Unknown(_) => None,
        Meaning::Misplaced(name) => Some(name.place),
        Meaning::Unclear => None,
        Meaning::Means(name, sort) => place_unless(suits(wanted, sort), name.place),
    }
}

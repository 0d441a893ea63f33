//! The names of a scope within another one, and the first of them that is repeated.
ghost use Rattle.std.specs.Prelude.{◌≡◌, ◌∷◌, ◌++◌, [], List, IfOk};
ghost use Rattle.std.specs.Option.{option_map};
ghost use Rattle.tm_syntax.specs.Scopes.Declared as text;
ghost use Rattle.tm_syntax.specs.Places.{earlier, earliest_of};
ghost use Rattle.tm_syntax.specs.Faults.Marks.{Mark, first_mark};
ghost use Rattle.tm_names.specs.Sorts.{all_declared, declared_of};
ghost use Rattle.tm_names.specs.ScopeNames.{FindsWithin, IsScope, IsScopeWithin, later_mark, mark_of, repeats_of};

use crate::places::is_before;
use crate::scopes::mark::NameMark;
use crate::scopes::names::Names;
use crate::sorts::Declared;
use std::alloc::{AllocError, Global};

/// The names of a scope, and the first fault of those that are declared twice in it or in it and the scope around.
#[derive(Drop)]
pub(crate) struct Scope<'a> {
    pub(crate) names: Names<'a>,
    pub(crate) repeat: Option<NameMark<'a>>,
}

impl<'a> Scope<'a> {
    /// A scope without names.
    pub(crate) fn empty(alloc: Global) -> Scope<'a>
        ensures { IsScope result [] }
    {
        Scope {
            names: Names::new(alloc),
            repeat: None,
        }
    }
}

/// The earlier of two faults at names, the first of them at one place.
pub fn earlier_mark<'a>(
    first: Option<NameMark<'a>>,
    second: Option<NameMark<'a>>,
) -> Option<NameMark<'a>>
    ensures { option_map mark_of result
        ≡ earliest_of (λ (m : Mark). m.place) (option_map mark_of first.entry) (option_map mark_of second.entry) }
{
    let Some(x) = first else {
        return second;
    };
    let Some(y) = second else {
        return first;
    };
    if is_before(y.place, x.place) {
        second
    } else {
        first
    }
}

// The one of two declarations that stands first.
fn earlier_declared<'a>(declared: Declared<'a>, other: Option<Declared<'a>>) -> Declared<'a>
    ensures { declared_of result ≡ earlier (λ (d : text.Declared). d.name.place) (declared_of declared.entry)
        (option_map declared_of other.entry) }
{
    match other {
        Some(other) => {
            if is_before(other.name.place, declared.name.place) {
                other
            } else {
                declared
            }
        }
        None => declared,
    }
}

// The fault of two declarations of one name: the later one.
fn repeat_of<'a>(declared: Declared<'a>, other: Option<Declared<'a>>) -> Option<NameMark<'a>>
    ensures { option_map mark_of result
        ≡ option_map (later_mark (declared_of declared.entry)) (option_map declared_of other.entry) }
{
    let other = other?;
    let place = if is_before(other.name.place, declared.name.place) {
        declared.name.place
    } else {
        other.name.place
    };
    Some(NameMark {
        place,
        name: declared.name.text.as_bytes(),
    })
}

// Notes a declaration before those of a scope within another one, and finds the first fault that it makes with them.
fn note<'a>(
    inner: &mut Names<'a>,
    outer: &Names<'a>,
    declared: Declared<'a>,
) -> Result<Option<NameMark<'a>>, AllocError>
    ensures { IfOk result (λ repeat. (ds : List text.Declared) → FindsWithin inner.old outer.now ds
        → FindsWithin inner.new outer.now (declared_of declared.entry ∷ ds)
        × (option_map mark_of repeat ≡ first_mark (repeats_of (declared_of declared.entry) ds))) }
{
    let name = declared.name.text.as_bytes();
    let other = inner.find_within(outer, name);
    inner.put(name, earlier_declared(declared, other))?;
    Ok(repeat_of(declared, other))
}

/// The scope of some declarations within another one. `AllocError` is want of memory.
pub(crate) fn scope_within<'a>(
    alloc: Global,
    declared: &[Declared<'a>],
    outer: &Scope<'a>,
) -> Result<Scope<'a>, AllocError>
    ensures { IfOk result (λ scope. (around : List text.Declared) → IsScope outer.now around
        → IsScopeWithin scope outer.now (all_declared declared.now ++ around)) }
{
    let mut names = Names::new(alloc);
    let mut repeat = outer.repeat;
    let mut left = declared.len();
    while left > 0 {
        left -= 1;
        repeat = earlier_mark(note(&mut names, &outer.names, declared[left])?, repeat);
    }
    Ok(Scope { names, repeat })
}

/// The scope of some declarations that stands within no other one. `AllocError` is want of memory.
pub(crate) fn scope_of<'a>(
    alloc: Global,
    declared: &[Declared<'a>],
) -> Result<Scope<'a>, AllocError>
    ensures { IfOk result (λ scope. IsScope scope (all_declared declared.now)) }
{
    scope_within(alloc, declared, &Scope::empty(alloc))
}

//! The fault of a specification among `F4` to `F10`: of the earliest kind that holds, at its first place.
ghost use Rattle.std.specs.Prelude.{◌≡◌, IfErr, IfOk, MatchResult};
ghost use Rattle.tm_syntax.specs.declared.fault.Faulty as fault;
ghost use Rattle.tm_syntax.specs.Tree.View.{spec_tree};
ghost use Rattle.tm_syntax.specs.Faults.{IsOfText};
ghost use Rattle.tm_types.specs.Answer.{HasTypeFault, IsFirstOf, IsMemoryOr, type_kinds};
ghost use Rattle.tm_names.specs.TextScopes.{AreTextScopes};

use crate::stages::type_fault;
use std::alloc::{AllocError, Global};
use tm_names::{TextNames, TextScopes};
use tm_scope::Scopes;
use tm_syntax::fault::{Faulty, FrontError};
use tm_syntax::tree::Spec;
use tm_syntax::typed::Typed;

/// Judges the names, types, calls and loops of a specification whose tree is that of a text.
///
/// `Faulty` is one of `F4` to `F10`: the earliest kind that holds anywhere in the text, at its first place, with its
/// detail; the specification is dropped then. `Memory` is want of memory. `Ok` gives the specification, of which none
/// of these faults holds. Near linear in the text.
pub fn check_types(alloc: Global, spec: Spec) -> Result<Typed, FrontError>
    requires { IsOfText (spec_tree spec) }
    ensures checked { IfOk result (λ typed. typed.spec ≡ spec) }
    ensures faulty { IfErr result (IsMemoryOr (HasTypeFault (spec_tree spec))) }

    // Where there is such a fault, nothing else is told but want of memory.
    ensures told { (f : fault.Faulty) → HasTypeFault (spec_tree spec) f
        → MatchResult result (λ _. ⊥) (IsMemoryOr (λ g. g ≡ f)) }
{
    match first_fault(alloc, &spec) {
        Ok(None) => Ok(Typed { spec }),
        Ok(Some(fault)) => Err(FrontError::Faulty(fault)),
        Err(_) => Err(FrontError::Memory),
    }
}

// The fault of a specification, if it has one of `F4` to `F10`.
fn first_fault(alloc: Global, spec: &Spec) -> Result<Option<Faulty>, AllocError>
    ensures { IfOk result (IsFirstOf type_kinds (spec_tree spec.now)) }
{
    let scopes = TextScopes::new(alloc, spec);
    let found = fault_by_scopes(alloc, spec, &scopes);
    drop(scopes);
    found
}

// The fault of a specification, given its scopes where memory sufficed for them.
fn fault_by_scopes(
    alloc: Global,
    spec: &Spec,
    scopes: &Result<TextScopes, AllocError>,
) -> Result<Option<Faulty>, AllocError>
    requires { IfOk scopes.now (AreTextScopes (spec_tree spec.now)) }
    ensures { IfOk result (IsFirstOf type_kinds (spec_tree spec.now)) }
{
    match scopes {
        Ok(scopes) => {
            let tables = Scopes::new(alloc, spec);
            let found = fault_by_tables(alloc, spec, scopes, &tables);
            drop(tables);
            found
        }
        Err(error) => Err(*error),
    }
}

// The fault of a specification, given its scopes, and its tables where memory sufficed for them.
fn fault_by_tables(
    alloc: Global,
    spec: &Spec,
    scopes: &TextScopes,
    tables: &Result<Scopes, AllocError>,
) -> Result<Option<Faulty>, AllocError>
    requires scopes { AreTextScopes (spec_tree spec.now) scopes.now }
    requires tables { IfOk tables.now (λ tables. tables ≡ spec.now) }
    ensures { IfOk result (IsFirstOf type_kinds (spec_tree spec.now)) }
{
    match tables {
        Ok(tables) => {
            let names = TextNames::new(alloc, spec, tables, scopes);
            let found = fault_by_names(alloc, spec, scopes, tables, &names);
            drop(names);
            found
        }
        Err(error) => Err(*error),
    }
}

// The fault of a specification, given its scopes and tables, and its names where memory sufficed for them.
fn fault_by_names(
    alloc: Global,
    spec: &Spec,
    scopes: &TextScopes,
    tables: &Scopes,
    names: &Result<TextNames, AllocError>,
) -> Result<Option<Faulty>, AllocError>
    requires scopes { AreTextScopes (spec_tree spec.now) scopes.now }
    requires tables { tables.now ≡ spec.now }
    requires names { IfOk names.now (λ names. names ≡ spec.now) }
    ensures { IfOk result (IsFirstOf type_kinds (spec_tree spec.now)) }
{
    match names {
        Ok(names) => type_fault(alloc, names, scopes, tables, spec),
        Err(error) => Err(*error),
    }
}

//! The faults of a specification kind by kind, each as it is told.
ghost use Rattle.std.specs.Prelude.{◌≡◌, ◌≤◌, [], ◌∷◌, IfOk, length};
ghost use Rattle.std.specs.Option.{option_map};
ghost use Rattle.tm_syntax.specs.declared.fault.FaultKind.TheVariants as kind;
ghost use Rattle.tm_syntax.specs.Tree.View.{spec_tree};
ghost use Rattle.tm_syntax.specs.Scopes.Pauses.{call_depth};
ghost use Rattle.tm_syntax.specs.Faults.{fault};
ghost use Rattle.tm_syntax.specs.Faults.Marks.{marked};
ghost use Rattle.tm_scope.specs.CallOrder.{CoversTasks, IsCallOrder};
ghost use Rattle.tm_types.specs.Answer.{IsFirstOf, type_kinds};
ghost use Rattle.tm_types.specs.Inner.TextParts.{IsDivided};
ghost use Rattle.tm_names.specs.ScopeNames.{mark_of};
ghost use Rattle.tm_names.specs.TextScopes.{AreTextScopes};

use crate::crossings::{first_atomic_location, first_endless_loop};
use crate::cycles::first_looping;
use crate::literals::first_misfit;
use crate::mismatches::first_mismatch;
use crate::parts::{DividedText, divided_text};
use crate::unknown::first_unknown;
use std::alloc::{AllocError, Global};
use tm_base::{Name, Place};
use tm_names::{NameMark, TextNames, TextScopes};
use tm_scope::{Scopes, call_order, crossing_tasks, pausing_tasks};
use tm_syntax::fault::{Detail, FaultKind, Faulty};
use tm_syntax::member::Member;
use tm_syntax::tree::Spec;

// A fault at a place that says nothing more.
fn placed(kind: FaultKind, first: Option<Place>) -> Option<Faulty>
    ensures { result ≡ option_map (λ at. fault kind (marked at)) first }
{
    match first {
        Some(place) => Some(Faulty {
            kind,
            place,
            detail: Detail::Nothing,
        }),
        None => None,
    }
}

// A fault at a name, which it tells.
fn named(
    alloc: Global,
    kind: FaultKind,
    first: Option<NameMark>,
) -> Result<Option<Faulty>, AllocError>
    ensures { IfOk result (λ found. found ≡ option_map (λ m. fault kind (mark_of m)) first.entry) }
{
    let Some(mark) = first else {
        return Ok(None);
    };
    let name = Name::from_bytes(alloc, mark.name)?;
    Ok(Some(Faulty {
        kind,
        place: mark.place,
        detail: Detail::Named(name),
    }))
}

// `F4`: a name that nothing declares.
fn unknown_fault(
    alloc: Global,
    text: &DividedText,
    spec: &Spec,
) -> Result<Option<Faulty>, AllocError>
    requires { IsDivided spec.now text.now }
    ensures { IfOk result (IsFirstOf (kind.UnknownName ∷ []) (spec_tree spec.now)) }
{
    let first = given!(first_unknown(alloc, text, spec));
    named(alloc, FaultKind::UnknownName, first)
}

// `F5`: a name that is declared twice.
fn twice_fault(
    alloc: Global,
    scopes: &TextScopes,
    spec: &Spec,
) -> Result<Option<Faulty>, AllocError>
    requires { AreTextScopes (spec_tree spec.now) scopes.now }
    ensures { IfOk result (IsFirstOf (kind.Twice ∷ []) (spec_tree spec.now)) }
{
    named(alloc, FaultKind::Twice, scopes.first_twice())
}

// `F4`, or else `F5`.
fn name_fault(
    alloc: Global,
    text: &DividedText,
    scopes: &TextScopes,
    spec: &Spec,
) -> Result<Option<Faulty>, AllocError>
    requires text { IsDivided spec.now text.now }
    requires scopes { AreTextScopes (spec_tree spec.now) scopes.now }
    ensures { IfOk result (IsFirstOf (kind.UnknownName ∷ kind.Twice ∷ []) (spec_tree spec.now)) }
{
    or_else!(
        unknown_fault(alloc, text, spec),
        twice_fault(alloc, scopes, spec)
    )
}

// `F6`: a type, a sort of name, a number of arguments or a result that does not fit.
fn mismatch_fault(
    alloc: Global,
    text: &DividedText,
    spec: &Spec,
) -> Result<Option<Faulty>, AllocError>
    requires { IsDivided spec.now text.now }
    ensures { IfOk result (IsFirstOf (kind.Mismatch ∷ []) (spec_tree spec.now)) }
{
    let first = given!(first_mismatch(alloc, text, spec));
    Ok(placed(FaultKind::Mismatch, first))
}

// `F7`: a number that does not fit its type or its place.
fn literal_fault(
    alloc: Global,
    text: &DividedText,
    spec: &Spec,
) -> Result<Option<Faulty>, AllocError>
    requires { IsDivided spec.now text.now }
    ensures { IfOk result (IsFirstOf (kind.Literal ∷ []) (spec_tree spec.now)) }
{
    let first = given!(first_misfit(alloc, text, spec));
    Ok(placed(FaultKind::Literal, first))
}

// `F6`, or else `F7`.
fn value_fault(alloc: Global, text: &DividedText, spec: &Spec) -> Result<Option<Faulty>, AllocError>
    requires { IsDivided spec.now text.now }
    ensures { IfOk result (IsFirstOf (kind.Mismatch ∷ kind.Literal ∷ []) (spec_tree spec.now)) }
{
    or_else!(
        mismatch_fault(alloc, text, spec),
        literal_fault(alloc, text, spec)
    )
}

// `F4`, or else `F5`, `F6` or `F7`, of a text that is divided.
fn part_fault(
    alloc: Global,
    text: &DividedText,
    scopes: &TextScopes,
    spec: &Spec,
) -> Result<Option<Faulty>, AllocError>
    requires text { IsDivided spec.now text.now }
    requires scopes { AreTextScopes (spec_tree spec.now) scopes.now }
    ensures { IfOk result (IsFirstOf
        (kind.UnknownName ∷ kind.Twice ∷ kind.Mismatch ∷ kind.Literal ∷ []) (spec_tree spec.now)) }
{
    or_else!(
        name_fault(alloc, text, scopes, spec),
        value_fault(alloc, text, spec)
    )
}

// `F4`, or else `F5`, `F6` or `F7`, of a text that memory sufficed to divide.
fn divided_fault(
    alloc: Global,
    text: &Result<DividedText, AllocError>,
    scopes: &TextScopes,
    spec: &Spec,
) -> Result<Option<Faulty>, AllocError>
    requires text { IfOk text.now (IsDivided spec.now) }
    requires scopes { AreTextScopes (spec_tree spec.now) scopes.now }
    ensures { IfOk result (IsFirstOf
        (kind.UnknownName ∷ kind.Twice ∷ kind.Mismatch ∷ kind.Literal ∷ []) (spec_tree spec.now)) }
{
    match text {
        Ok(text) => part_fault(alloc, text, scopes, spec),
        Err(error) => Err(*error),
    }
}

// `F4`, or else `F5`, `F6` or `F7`.
fn text_fault(
    alloc: Global,
    names: &TextNames,
    scopes: &TextScopes,
    spec: &Spec,
) -> Result<Option<Faulty>, AllocError>
    requires names { names.now ≡ spec.now }
    requires scopes { AreTextScopes (spec_tree spec.now) scopes.now }
    ensures { IfOk result (IsFirstOf
        (kind.UnknownName ∷ kind.Twice ∷ kind.Mismatch ∷ kind.Literal ∷ []) (spec_tree spec.now)) }
{
    let text = divided_text(alloc, names, spec);
    divided_fault(alloc, &text, scopes, spec)
}

// `F8`: a task or procedure that reaches itself by calls.
fn cycle_fault(alloc: Global, scopes: &Scopes, spec: &Spec) -> Result<Option<Faulty>, AllocError>
    requires { scopes.now ≡ spec.now }
    ensures { IfOk result (IsFirstOf (kind.CallCycle ∷ []) (spec_tree spec.now)) }
{
    let first = given!(first_looping(alloc, scopes, spec));
    named(alloc, FaultKind::CallCycle, first)
}

// `F9`: a loop whose body is not sure to cross a location, given an order of calls.
fn loop_fault(
    alloc: Global,
    scopes: &Scopes,
    spec: &Spec,
    order: &[Member],
) -> Result<Option<Faulty>, AllocError>
    requires same { scopes.now ≡ spec.now }
    requires ordered { IsCallOrder (spec_tree scopes.now) order.now }
    requires covers { CoversTasks (spec_tree scopes.now) order.now }
    requires short { length order.now ≤ call_depth (spec_tree scopes.now) }
    ensures { IfOk result (IsFirstOf (kind.LoopWithoutLocation ∷ []) (spec_tree spec.now)) }
{
    let crossing = given!(crossing_tasks(alloc, scopes, order));
    let found = first_endless_loop(alloc, scopes, spec, &crossing);
    drop(crossing);
    let first = given!(found);
    Ok(placed(FaultKind::LoopWithoutLocation, first))
}

// `F10`: a location in a procedure or controllable task, given an order of calls.
fn location_fault(
    alloc: Global,
    scopes: &Scopes,
    spec: &Spec,
    order: &[Member],
) -> Result<Option<Faulty>, AllocError>
    requires same { scopes.now ≡ spec.now }
    requires ordered { IsCallOrder (spec_tree scopes.now) order.now }
    requires covers { CoversTasks (spec_tree scopes.now) order.now }
    requires short { length order.now ≤ call_depth (spec_tree scopes.now) }
    ensures { IfOk result (IsFirstOf (kind.LocationInAtomic ∷ []) (spec_tree spec.now)) }
{
    let pausing = given!(pausing_tasks(alloc, scopes, order));
    let found = first_atomic_location(alloc, scopes, spec, &pausing);
    drop(pausing);
    let first = given!(found);
    Ok(placed(FaultKind::LocationInAtomic, first))
}

// `F9`, or else `F10`, given an order of calls.
fn crossing_fault(
    alloc: Global,
    scopes: &Scopes,
    spec: &Spec,
    order: &[Member],
) -> Result<Option<Faulty>, AllocError>
    requires same { scopes.now ≡ spec.now }
    requires ordered { IsCallOrder (spec_tree scopes.now) order.now }
    requires covers { CoversTasks (spec_tree scopes.now) order.now }
    requires short { length order.now ≤ call_depth (spec_tree scopes.now) }
    ensures { IfOk result (IsFirstOf (kind.LoopWithoutLocation ∷ kind.LocationInAtomic ∷ []) (spec_tree spec.now)) }
{
    or_else!(
        loop_fault(alloc, scopes, spec, order),
        location_fault(alloc, scopes, spec, order)
    )
}

// `F8`, or else `F9`, or else `F10`.
fn call_fault(alloc: Global, scopes: &Scopes, spec: &Spec) -> Result<Option<Faulty>, AllocError>
    requires { scopes.now ≡ spec.now }
    ensures { IfOk result (IsFirstOf
        (kind.CallCycle ∷ kind.LoopWithoutLocation ∷ kind.LocationInAtomic ∷ []) (spec_tree spec.now)) }
{
    match call_order(alloc, scopes) {
        Ok(Some(order)) => crossing_fault(alloc, scopes, spec, order.as_slice()),
        Ok(None) => cycle_fault(alloc, scopes, spec),
        Err(error) => Err(error),
    }
}

/// The first fault of `F4` to `F10`, given the names, the scopes and the tables of the text. `AllocError` is want of
/// memory.
pub(crate) fn type_fault(
    alloc: Global,
    names: &TextNames,
    scopes: &TextScopes,
    tables: &Scopes,
    spec: &Spec,
) -> Result<Option<Faulty>, AllocError>
    requires names { names.now ≡ spec.now }
    requires scopes { AreTextScopes (spec_tree spec.now) scopes.now }
    requires tables { tables.now ≡ spec.now }
    ensures { IfOk result (IsFirstOf type_kinds (spec_tree spec.now)) }
{
    or_else!(
        text_fault(alloc, names, scopes, spec),
        call_fault(alloc, tables, spec)
    )
}

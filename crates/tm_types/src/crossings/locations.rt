//! Locations of a body, and calls of bodies that hold one.
ghost use Rattle.std.specs.Prelude.{◌≡◌, ◌<◌, not, map, IfOk, length};
ghost use Rattle.std.specs.List.{flat_map, list_any};
ghost use Rattle.tm_syntax.specs.Tree.View.{
  body_tree,
  local_tree,
  spec_tree,
  stmt_tree,
  stmt_trees,
  task_tree,
  template_tree,
  value_tree,
};
ghost use Rattle.tm_syntax.specs.Scopes.Parts.{all_stmts, value_calls};
ghost use Rattle.tm_syntax.specs.Faults.Operands.{path_place};
ghost use Rattle.tm_syntax.specs.Faults.Crossings.{atomic_locations, call_pauses, type_place};
ghost use Rattle.tm_scope.specs.Marks.{is_marked};
ghost use Rattle.tm_types.specs.CallMarks.{TellCalls};
ghost use Rattle.tm_types.specs.Firsts.{first_of};
ghost use Rattle.tm_types.specs.Inner.Crossings.{body_locations, locations_of, pausing_local, task_locations_by};

use crate::firsts::{earlier_place, place_unless};
use std::alloc::{AllocError, Global};
use tm_base::Place;
use tm_names::all_stmts;
use tm_scope::{CallMarks, Scopes, TaskSet};
use tm_syntax::tree::{
    Body, Ident, LocalDef, Spec, Stmt, TaskDef, TaskKind, Template, TypeName, Value,
};

// The first place of a text.
const START: Place = Place { line: 1, column: 1 };

// The first place of a path.
fn path_place(path: &[Ident]) -> Place
    ensures { result ≡ path_place path.now }
{
    match path {
        [] => START,
        [name, ..] => name.place,
    }
}

// The place of a type.
fn type_place(ty: &TypeName) -> Place
    ensures { result ≡ type_place ty.now }
{
    match ty {
        TypeName::Bool(at) => *at,
        TypeName::Uint(at, _) => *at,
        TypeName::Enum(name) => name.place,
    }
}

// Whether a value calls a body that holds a location.
fn value_pauses(calls: &CallMarks, value: &Value) -> bool
    ensures { result ≡ list_any (is_marked calls.now) (value_calls (value_tree value.now)) }
{
    match value {
        Value::Star(_) => false,
        Value::Call(path, _) => calls.is_marked(path.names.as_slice()),
        Value::Plain(_) => false,
    }
}

// The declaration of a local that calls such a body.
fn local_location(calls: &CallMarks, local: &LocalDef) -> Option<Place>
    ensures { result ≡ first_of (pausing_local (is_marked calls.now) (local_tree local.now)) }
{
    place_unless(!value_pauses(calls, &local.value), type_place(&local.ty))
}

// A statement that is a location, or calls such a body.
#[tactic(auto, using(tm_syntax::proofs::Views::views))]
fn stmt_location(calls: &CallMarks, stmt: &Stmt) -> Option<Place>
    ensures { result ≡ first_of (locations_of (is_marked calls.now) (stmt_tree stmt.now)) }
{
    match stmt {
        Stmt::Assign(path, _, value) => {
            place_unless(
                !value_pauses(calls, value),
                path_place(path.names.as_slice()),
            )
        }
        Stmt::Call(path, _) => {
            let path = path.names.as_slice();
            place_unless(!calls.is_marked(path), path_place(path))
        }
        Stmt::If(_, _, _) => None,
        Stmt::While(_, _, _) => None,
        Stmt::Forever(_, _) => None,
        Stmt::Choice(_, _) => None,
        Stmt::Assert(_, _) => None,
        Stmt::Assume(_, _) => None,
        Stmt::Pause(at) => Some(*at),
        Stmt::Wait(at, _) => Some(*at),
        Stmt::Magic(at) => Some(*at),
    }
}

// The first location among the locals of a body.
fn locals_location(calls: &CallMarks, locals: &[LocalDef]) -> Option<Place>
    ensures { result ≡ first_of (flat_map (pausing_local (is_marked calls.now)) (map local_tree locals.now)) }
{
    let mut first = None;
    for local in locals {
        first = earlier_place(first, local_location(calls, local));
    }
    first
}

// The first location among the statements of a body.
fn stmts_location(
    alloc: Global,
    calls: &CallMarks,
    stmts: &[Stmt],
) -> Result<Option<Place>, AllocError>
    ensures { IfOk result (λ first. first
        ≡ first_of (flat_map (locations_of (is_marked calls.now)) (all_stmts (stmt_trees stmts.now)))) }
{
    let listed = given!(all_stmts(alloc, stmts));
    let mut first = None;
    for stmt in listed.as_slice() {
        first = earlier_place(first, stmt_location(calls, *stmt));
    }
    Ok(first)
}

// The first location of a body.
fn first_location(
    alloc: Global,
    calls: &CallMarks,
    body: &Body,
) -> Result<Option<Place>, AllocError>
    ensures { IfOk result (λ first. first
        ≡ first_of (body_locations (is_marked calls.now) (body_tree body.now))) }
{
    let in_locals = locals_location(calls, body.locals.as_slice());
    let in_stmts = given!(stmts_location(alloc, calls, body.stmts.as_slice()));
    Ok(earlier_place(in_locals, in_stmts))
}

// The first location of a procedure or controllable task.
fn task_location(
    alloc: Global,
    calls: &CallMarks,
    task: &TaskDef,
) -> Result<Option<Place>, AllocError>
    ensures { IfOk result (λ first. first
        ≡ first_of (task_locations_by (is_marked calls.now) (task_tree task.now))) }
{
    match &task.kind {
        TaskKind::Controllable => first_location(alloc, calls, &task.body),
        TaskKind::Uncontrollable => Ok(None),
        TaskKind::Procedure(_) => first_location(alloc, calls, &task.body),
    }
}

// The first location of the procedures and controllable tasks of a template.
fn template_location(
    alloc: Global,
    calls: &CallMarks,
    template: &Template,
) -> Result<Option<Place>, AllocError>
    ensures { IfOk result (λ first. first
        ≡ first_of (flat_map (task_locations_by (is_marked calls.now)) (template_tree template.now).tasks)) }
{
    let mut first = None;
    for task in template.tasks.as_slice() {
        first = earlier_place(first, given!(task_location(alloc, calls, task)));
    }
    Ok(first)
}

// The first location of the procedures and controllable tasks of the template of a number, given the tasks whose bodies
// hold one.
fn numbered_location(
    alloc: Global,
    scopes: &Scopes,
    marks: &TaskSet,
    number: usize,
    template: &Template,
) -> Result<Option<Place>, AllocError>
    requires { number < length scopes.now.templates.items }
    ensures { IfOk result (λ first. first ≡ first_of (flat_map (task_locations_by (is_marked
        (record { spec = scopes.now; from = number; tasks = marks.now }))) (template_tree template.now).tasks)) }
{
    let calls = CallMarks::new(scopes, number, marks);
    template_location(alloc, &calls, template)
}

/// The first location of a text that a procedure or controllable task holds, itself or by a call, given the
/// tasks whose bodies hold one. `AllocError` is want of memory.
pub(crate) fn first_atomic_location(
    alloc: Global,
    scopes: &Scopes,
    spec: &Spec,
    marks: &TaskSet,
) -> Result<Option<Place>, AllocError>
    requires same { scopes.now ≡ spec.now }
    requires marked { TellCalls spec.now marks.now (call_pauses (spec_tree spec.now)) }
    ensures { IfOk result (λ first. first ≡ first_of (atomic_locations (spec_tree spec.now))) }
{
    let mut first = None;
    for (number, template) in spec.templates.as_slice().iter().enumerate() {
        let here = given!(numbered_location(alloc, scopes, marks, number, template));
        first = earlier_place(first, here);
    }
    Ok(first)
}

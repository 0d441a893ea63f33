//! Loops whose bodies are not sure to cross a location.
ghost use Rattle.std.specs.Prelude.{◌≡◌, ◌<◌, IfOk, length, map};
ghost use Rattle.std.specs.List.{flat_map};
ghost use Rattle.tm_syntax.specs.Tree.View.{body_tree, process_tree, spec_tree, stmt_tree, task_tree, template_tree};
ghost use Rattle.tm_syntax.specs.Tree as tree;
ghost use Rattle.tm_syntax.specs.Scopes.Crossing.{call_crosses};
ghost use Rattle.tm_syntax.specs.Scopes.Parts.{stmts_in};
ghost use Rattle.tm_syntax.specs.Faults.Crossings.{endless_loops};
ghost use Rattle.tm_scope.specs.Marks.{is_marked};
ghost use Rattle.tm_types.specs.CallMarks.{TellCalls};
ghost use Rattle.tm_types.specs.Firsts.{first_of};
ghost use Rattle.tm_types.specs.Inner.Crossings.{body_loops, in_bodies, loops_of};

use crate::firsts::{earlier_place, place_unless};
use std::alloc::{AllocError, Global};
use tm_base::Place;
use tm_names::all_stmts;
use tm_scope::{CallMarks, Scopes, TaskSet, row_crosses};
use tm_syntax::tree::{Body, ProcessDef, Spec, Stmt, TaskDef, Template};

// A loop whose body is not sure to cross: its keyword.
#[tactic(auto, using(tm_syntax::proofs::Views::views))]
fn loop_fault(calls: &CallMarks, stmt: &Stmt) -> Option<Place>
    ensures { result ≡ first_of (loops_of (is_marked calls.now) (stmt_tree stmt.now)) }
{
    match stmt {
        Stmt::Assign(_, _, _) => None,
        Stmt::Call(_, _) => None,
        Stmt::If(_, _, _) => None,
        Stmt::While(at, _, body) => place_unless(row_crosses(calls, body.as_slice()), *at),
        Stmt::Forever(at, body) => place_unless(row_crosses(calls, body.as_slice()), *at),
        Stmt::Choice(_, _) => None,
        Stmt::Assert(_, _) => None,
        Stmt::Assume(_, _) => None,
        Stmt::Pause(_) => None,
        Stmt::Wait(_, _) => None,
        Stmt::Magic(_) => None,
    }
}

// The first such loop of a body.
pub(crate) fn first_loop(
    alloc: Global,
    calls: &CallMarks,
    body: &Body,
) -> Result<Option<Place>, AllocError>
    ensures { IfOk result (λ first. first
        ≡ first_of (flat_map (loops_of (is_marked calls.now)) (stmts_in (body_tree body.now)))) }
{
    let stmts = given!(all_stmts(alloc, body.stmts.as_slice()));
    let mut first = None;
    for stmt in stmts.as_slice() {
        first = earlier_place(first, loop_fault(calls, *stmt));
    }
    Ok(first)
}

// The first such loop of the processes of a template.
fn processes_loop(
    alloc: Global,
    calls: &CallMarks,
    processes: &[ProcessDef],
) -> Result<Option<Place>, AllocError>
    ensures { IfOk result (λ first. first ≡ first_of (flat_map
        (λ (p : tree.ProcessTree). body_loops (is_marked calls.now) p.body) (map process_tree processes.now))) }
{
    let mut first = None;
    for process in processes {
        first = earlier_place(first, given!(first_loop(alloc, calls, &process.body)));
    }
    Ok(first)
}

// The first such loop of the tasks of a template.
fn tasks_loop(
    alloc: Global,
    calls: &CallMarks,
    tasks: &[TaskDef],
) -> Result<Option<Place>, AllocError>
    ensures { IfOk result (λ first. first ≡ first_of (flat_map
        (λ (k : tree.TaskTree). body_loops (is_marked calls.now) k.body) (map task_tree tasks.now))) }
{
    let mut first = None;
    for task in tasks {
        first = earlier_place(first, given!(first_loop(alloc, calls, &task.body)));
    }
    Ok(first)
}

// The first such loop of a template.
fn template_loop(
    alloc: Global,
    calls: &CallMarks,
    template: &Template,
) -> Result<Option<Place>, AllocError>
    ensures { IfOk result (λ first. first
        ≡ first_of (in_bodies (body_loops (is_marked calls.now)) (template_tree template.now))) }
{
    let in_processes = given!(processes_loop(alloc, calls, template.processes.as_slice()));
    let in_tasks = given!(tasks_loop(alloc, calls, template.tasks.as_slice()));
    Ok(earlier_place(in_processes, in_tasks))
}

// The first such loop of the template of a number, given marks on the tasks whose bodies are sure to cross.
fn numbered_loop(
    alloc: Global,
    scopes: &Scopes,
    marks: &TaskSet,
    number: usize,
    template: &Template,
) -> Result<Option<Place>, AllocError>
    requires { number < length scopes.now.templates.items }
    ensures { IfOk result (λ first. first ≡ first_of (in_bodies (body_loops (is_marked
        (record { spec = scopes.now; from = number; tasks = marks.now }))) (template_tree template.now))) }
{
    let calls = CallMarks::new(scopes, number, marks);
    template_loop(alloc, &calls, template)
}

/// The first loop of a text whose body is not sure to cross a location, given marks on the tasks whose bodies are.
/// `AllocError` is want of memory.
pub(crate) fn first_endless_loop(
    alloc: Global,
    scopes: &Scopes,
    spec: &Spec,
    marks: &TaskSet,
) -> Result<Option<Place>, AllocError>
    requires same { scopes.now ≡ spec.now }
    requires marked { TellCalls spec.now marks.now (call_crosses (spec_tree spec.now)) }
    ensures { IfOk result (λ first. first ≡ first_of (endless_loops (spec_tree spec.now))) }
{
    let mut first = None;
    for (number, template) in spec.templates.as_slice().iter().enumerate() {
        let here = given!(numbered_loop(alloc, scopes, marks, number, template));
        first = earlier_place(first, here);
    }
    Ok(first)
}

//! Which tasks reach each other by calls.
ghost use Rattle.std.specs.Prelude.{◌≡◌, ◌+◌, ◌<◌, ◌≤◌, ◌↔◌, ◌&&◌, ◌||◌, IfNone, IfOk, IfSome, MatchOption, OnOk, length, map, nat_eq, nat_lt, true};
ghost use Rattle.std.specs.Option.{option_map_or};
ghost use Rattle.tm_syntax.specs.Tree.View.{spec_tree};
ghost use Rattle.tm_syntax.specs.Scopes.Calls.{Reaches};
ghost use Rattle.tm_syntax.specs.Scopes.Pauses.{call_depth};
ghost use Rattle.tm_syntax.specs.declared.member.Member as numbered;
ghost use Rattle.tm_scope.specs.CallOrder.{CoversTasks, IsCallOrder};
ghost use Rattle.tm_scope.specs.Graph.{graph_of};
ghost use Rattle.tm_scope.specs.Inner.CallGraphs.{
  AreAllTasks,
  AreLooping,
  AreOrdered,
  HaveTasks,
  IsCallWalk,
  SomeLoops,
  callees_at,
};
ghost use Rattle.tm_scope.specs.Marks.{is_in, with_task};

use crate::calls::callees::body_callees;
use crate::calls::marks::CallMarks;
use crate::calls::task_set::TaskSet;
use crate::graph::{Walked, walk_graph};
use crate::scopes::Scopes;
use std::alloc::{AllocError, Global};
use tm_syntax::member::Member;
use tm_syntax::tree::Spec;

/// The tasks and procedures of a text in an order in which each stands behind all that it calls, or none where one
/// reaches itself by calls. Linear in the text, and as deep as its statements nest. `AllocError` is want of memory.
pub fn call_order(alloc: Global, scopes: &Scopes) -> Result<Option<Vec<Member>>, AllocError>
    ensures ordered { IfOk result (λ o. IfSome o (λ order. IsCallOrder (spec_tree scopes.now) order.items)) }
    ensures covers { IfOk result (λ o. IfSome o (λ order. CoversTasks (spec_tree scopes.now) order.items)) }
    ensures short { IfOk result (λ o. IfSome o (λ order. length order.items ≤ call_depth (spec_tree scopes.now))) }
    ensures acyclic { IfOk result
        (λ o. IfSome o (λ _. (m : numbered.Member) → ¬ Reaches (spec_tree scopes.now) m m)) }
    ensures cyclic { IfOk result (λ o. IfNone o ((m : numbered.Member) × Reaches (spec_tree scopes.now) m m)) }
{
    let walk = walk_calls(alloc, scopes)?;
    tasks_in_order(alloc, &walk.tasks, walk.order.as_slice())
}

/// The tasks and procedures of a text that reach themselves by calls. Linear in the text, and as deep as its statements
/// nest. `AllocError` is want of memory.
pub fn looping_tasks(alloc: Global, scopes: &Scopes) -> Result<TaskSet, AllocError>
    ensures { IfOk result (λ looping. (m : numbered.Member)
        → (is_in looping m ≡ true) ↔ Reaches (spec_tree scopes.now) m m) }
{
    let walk = walk_calls(alloc, scopes)?;
    tasks_that_loop(alloc, &walk.tasks, walk.order.as_slice())
}

// The tasks of the nodes of an order, unless one of them loops.
fn tasks_in_order(
    alloc: Global,
    tasks: &TaskSet,
    nodes: &[Walked],
) -> Result<Option<Vec<Member>>, AllocError>
    requires { HaveTasks tasks.now nodes.now }
    ensures { IfOk result (λ o. MatchOption o (SomeLoops nodes.now)
        (λ found. AreOrdered tasks.now nodes.now (length nodes.now) found.items)) }
{
    let mut found = Vec::new(alloc);
    for walked in nodes {
        if walked.loops {
            return Ok(None);
        }
        if let Some(task) = tasks.task(walked.node) {
            found.push(task)?;
        }
    }
    Ok(Some(found))
}

// The tasks of those nodes of an order that loop.
fn tasks_that_loop(alloc: Global, tasks: &TaskSet, nodes: &[Walked]) -> Result<TaskSet, AllocError>
    requires { HaveTasks tasks.now nodes.now }
    ensures { IfOk result (AreLooping tasks.now nodes.now (length nodes.now)) }
{
    let mut looping = TaskSet::new(alloc);
    for walked in nodes {
        if walked.loops {
            add_task(&mut looping, tasks.task(walked.node))?;
        }
    }
    Ok(looping)
}

// Adds a task that may be there.
fn add_task(tasks: &mut TaskSet, task: Option<Member>) -> Result<(), AllocError>
    ensures { OnOk result (tasks.new ≡ option_map_or (with_task tasks.old) task tasks.old) }
{
    if let Some(task) = task {
        tasks.insert(task)?;
    }
    Ok(())
}

// A walk over the tasks of a text along their calls.
#[derive(Drop)]
struct CallWalk {
    tasks: TaskSet,
    order: Vec<Walked>,
}

// Walks over the tasks of a text along their calls.
fn walk_calls(alloc: Global, scopes: &Scopes) -> Result<CallWalk, AllocError>
    ensures { IfOk result (λ w. IsCallWalk scopes.now w.tasks w.order.items) }
{
    let tasks = all_tasks(alloc, scopes.spec())?;
    let order = walk_tasks(alloc, scopes, &tasks)?;
    Ok(CallWalk { tasks, order })
}

// Walks over these tasks, which are all of a text, along their calls.
fn walk_tasks(alloc: Global, scopes: &Scopes, tasks: &TaskSet) -> Result<Vec<Walked>, AllocError>
    requires { AreAllTasks (spec_tree scopes.now) tasks.now }
    ensures { IfOk result (λ order. IsCallWalk scopes.now tasks.now order.items) }
{
    let edges = callee_rows(alloc, scopes, tasks, tasks.as_slice())?;
    walk_graph(alloc, edges.as_slice())
}

// All tasks and procedures of a text.
fn all_tasks(alloc: Global, spec: &Spec) -> Result<TaskSet, AllocError>
    ensures { IfOk result (AreAllTasks (spec_tree spec.now)) }
{
    let mut tasks = TaskSet::new(alloc);
    for number in 0..spec.templates.len() {
        let count = spec.templates[number].tasks.len();
        add_tasks(&mut tasks, number, count)?;
    }
    Ok(tasks)
}

// Adds so many tasks of a template.
fn add_tasks(tasks: &mut TaskSet, template: usize, count: usize) -> Result<(), AllocError>
    ensures found { OnOk result ((m : numbered.Member) → is_in tasks.new m
        ≡ (is_in tasks.old m || (nat_eq m.template template && nat_lt m.index count))) }
    ensures few { OnOk result (length tasks.new ≤ length tasks.old + count) }
{
    for index in 0..count {
        tasks.insert(Member { template, index })?;
    }
    Ok(())
}

// For each of some callers the numbers of the tasks that it calls.
fn callee_rows(
    alloc: Global,
    scopes: &Scopes,
    tasks: &TaskSet,
    callers: &[Member],
) -> Result<Vec<Vec<usize>>, AllocError>
    ensures { IfOk result (λ rows. graph_of rows.items ≡ map (callees_at scopes.now tasks.now) callers.now) }
{
    let mut rows = Vec::new(alloc);
    for caller in callers {
        rows.push(task_callees(alloc, scopes, tasks, *caller)?)?;
    }
    Ok(rows)
}

// The numbers of the tasks that a task calls.
fn task_callees(
    alloc: Global,
    scopes: &Scopes,
    tasks: &TaskSet,
    task: Member,
) -> Result<Vec<usize>, AllocError>
    ensures { IfOk result (λ row. row.items ≡ callees_at scopes.now tasks.now task) }
{
    let Some(def) = scopes.task(task) else {
        return Ok(Vec::new(alloc));
    };
    body_callees(
        alloc,
        &CallMarks::new(scopes, task.template, tasks),
        &def.body,
    )
}

//! Which tasks may pause, and which are sure to cross a location.
ghost use Rattle.std.specs.Prelude.{◌≡◌, ◌≤◌, IfOk, false, length};
ghost use Rattle.std.specs.Option.{option_map_or};
ghost use Rattle.tm_syntax.specs.Tree.View.{spec_tree};
ghost use Rattle.tm_syntax.specs.Scopes.Pauses.{call_depth};
ghost use Rattle.tm_scope.specs.CallOrder.{IsCallOrder};
ghost use Rattle.tm_scope.specs.Marks.{ArePassing, crosses_at, crosses_by, is_marked, pauses_at, pauses_by};
ghost use Rattle.tm_scope.specs.Members.{task_at};

use crate::calls::bodies::{body_crosses, body_pauses};
use crate::calls::marks::CallMarks;
use crate::calls::task_set::TaskSet;
use crate::scopes::Scopes;
use std::alloc::{AllocError, Global};
use tm_syntax::member::Member;

/// The tasks of an order that may pause, where each stands behind all that it calls. Linear in the
/// text of these tasks. `AllocError` is want of memory.
pub fn pausing_tasks(
    alloc: Global,
    scopes: &Scopes,
    order: &[Member],
) -> Result<TaskSet, AllocError>
    requires ordered { IsCallOrder (spec_tree scopes.now) order.now }
    requires short { length order.now ≤ call_depth (spec_tree scopes.now) }
    ensures { IfOk result (ArePassing (pauses_at (spec_tree scopes.now)) order.now) }
{
    let mut tasks = TaskSet::new(alloc);
    for task in order {
        if task_pauses(scopes, *task, &tasks) {
            tasks.insert(*task)?;
        }
    }
    Ok(tasks)
}

// Whether a task may pause, by the tasks that do.
fn task_pauses(scopes: &Scopes, task: Member, tasks: &TaskSet) -> bool
    ensures { result ≡ option_map_or
        (λ t. pauses_by (is_marked (record { spec = scopes.now; from = task.template; tasks = tasks.now })) t.1.body)
        (task_at (spec_tree scopes.now) task) false }
{
    let Some(def) = scopes.task(task) else {
        return false;
    };
    body_pauses(&CallMarks::new(scopes, task.template, tasks), &def.body)
}

/// The tasks of an order whose bodies are sure to cross a location, where each stands behind all that it calls. Linear
/// in the text of these tasks. `AllocError` is want of memory.
pub fn crossing_tasks(
    alloc: Global,
    scopes: &Scopes,
    order: &[Member],
) -> Result<TaskSet, AllocError>
    requires ordered { IsCallOrder (spec_tree scopes.now) order.now }
    requires short { length order.now ≤ call_depth (spec_tree scopes.now) }
    ensures { IfOk result (ArePassing (crosses_at (spec_tree scopes.now)) order.now) }
{
    let mut tasks = TaskSet::new(alloc);
    for task in order {
        if task_crosses(scopes, *task, &tasks) {
            tasks.insert(*task)?;
        }
    }
    Ok(tasks)
}

// Whether the body of a task is sure to cross, by the tasks whose bodies are.
fn task_crosses(scopes: &Scopes, task: Member, tasks: &TaskSet) -> bool
    ensures { result ≡ option_map_or
        (λ t. crosses_by (is_marked (record { spec = scopes.now; from = task.template; tasks = tasks.now })) t.1.body)
        (task_at (spec_tree scopes.now) task) false }
{
    let Some(def) = scopes.task(task) else {
        return false;
    };
    body_crosses(&CallMarks::new(scopes, task.template, tasks), &def.body)
}

//! The tasks of texts that may pause.
ghost use Rattle.std.specs.Prelude.{◌≤◌, IfOk, IfSome, length};
ghost use Rattle.tm_syntax.specs.Tree.View.{spec_tree};
ghost use Rattle.tm_syntax.specs.Scopes.Pauses.{call_depth};
ghost use Rattle.tm_scope.specs.CallOrder.{CoversTasks, IsCallOrder};
ghost use Rattle.tm_scope.specs.Cells.{ArePausing};

use std::alloc::{AllocError, Global};
use tm_scope::{Scopes, TaskSet, call_order, ordered_tasks_are_pausing, pausing_tasks};
use tm_syntax::member::Member;

/// The tasks of a text that may pause, from an order of all tasks.
fn pausing_of(alloc: Global, scopes: &Scopes, calls: &[Member]) -> Result<TaskSet, AllocError>
    requires ordered { IsCallOrder (spec_tree scopes.now) calls.now }
    requires covers { CoversTasks (spec_tree scopes.now) calls.now }
    requires short { length calls.now ≤ call_depth (spec_tree scopes.now) }
    ensures { IfOk result (ArePausing (spec_tree scopes.now)) }
{
    let tasks = pausing_tasks(alloc, scopes, calls)?;
    ordered_tasks_are_pausing();
    Ok(tasks)
}

/// The tasks of a text that may pause, unless calls go in a circle.
pub fn pausing(alloc: Global, scopes: &Scopes) -> Result<Option<TaskSet>, AllocError>
    ensures { IfOk result (λ tasks. IfSome tasks (ArePausing (spec_tree scopes.now))) }
{
    match call_order(alloc, scopes)? {
        Some(order) => Ok(Some(pausing_of(alloc, scopes, order.as_slice())?)),
        None => Ok(None),
    }
}

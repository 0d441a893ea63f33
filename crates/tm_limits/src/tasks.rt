//! What is counted over the bodies of tasks, along an order in which each task stands behind all that it calls.
ghost use Rattle.std.specs.Prelude.{◌≡◌, ◌≤◌, IfOk, List, length};
ghost use Rattle.std.specs.Option.{option_map_or};
ghost use Rattle.tm_syntax.specs.declared.tree.Ident as spelled;
ghost use Rattle.tm_syntax.specs.Tree.{row_of};
ghost use Rattle.tm_syntax.specs.Tree.View.{spec_tree};
ghost use Rattle.tm_syntax.specs.Scopes.Calls.{numbered_task};
ghost use Rattle.tm_syntax.specs.Scopes.Parts.{body_stmts, stmts_in};
ghost use Rattle.tm_syntax.specs.Scopes.Pauses.{call_depth};
ghost use Rattle.tm_syntax.specs.Counts.Choices as sums;
ghost use Rattle.tm_syntax.specs.Counts.Choices.{choosing, row_paths};
ghost use Rattle.tm_scope.specs.CallOrder.{IsCallOrder};
ghost use Rattle.tm_limits.specs.Amount.{capped};
ghost use Rattle.tm_limits.specs.Inner.PathSums.{AreBest, called_paths};
ghost use Rattle.tm_limits.specs.Inner.Weights.{sum_weights, weight_of};
ghost use Rattle.tm_limits.specs.TaskBodies.{HasPaths, HasWeights, numbered_body};

use crate::choices::{CallPaths, body_paths};
use crate::paths::Paths;
use crate::weights::{CallWeights, Weight, body_weight};
use indexmap::IndexMap;
use std::alloc::{AllocError, Global};
use tm_scope::{BodyName, Scopes};
use tm_syntax::member::Member;

/// What the bodies of the tasks of an order weigh. Linear in their text. `AllocError` is want of memory.
pub(crate) fn task_weights(
    alloc: Global,
    scopes: &Scopes,
    order: &[Member],
    weight: Weight,
) -> Result<IndexMap<Member, u64>, AllocError>
    requires ordered { IsCallOrder (spec_tree scopes.now) order.now }
    requires short { length order.now ≤ call_depth (spec_tree scopes.now) }
    ensures { IfOk result (λ weights.
        HasWeights (spec_tree scopes.now) (weight_of weight) order.now (length order.now) weights.entries) }
{
    let mut weights = IndexMap::new(alloc);
    for task in order {
        let total = task_weight(scopes, *task, weight, &weights);
        weights.insert(*task, total)?;
    }
    Ok(weights)
}

// What the body of a task weighs, by the weights of those that it calls.
fn task_weight(
    scopes: &Scopes,
    task: Member,
    weight: Weight,
    weights: &IndexMap<Member, u64>,
) -> u64
    ensures { result ≡ capped (option_map_or (λ k. sum_weights (record {
      spec = scopes.now;
      from = task.template;
      weight = weight;
      weights = weights.now.entries;
    }) (stmts_in k.body)) (numbered_task (spec_tree scopes.now) task) 0) }
{
    match scopes.task(task) {
        Some(def) => body_weight(
            &CallWeights::new(scopes, task.template, weight, weights),
            &def.body,
        ),
        None => 0,
    }
}

/// The paths of the bodies of the tasks of an order. Linear in their text. `AllocError` is want of memory.
pub(crate) fn task_paths(
    alloc: Global,
    scopes: &Scopes,
    order: &[Member],
) -> Result<IndexMap<Member, Paths>, AllocError>
    requires ordered { IsCallOrder (spec_tree scopes.now) order.now }
    requires short { length order.now ≤ call_depth (spec_tree scopes.now) }
    ensures { IfOk result (λ paths. HasPaths (spec_tree scopes.now) order.now (length order.now) paths.entries) }
{
    let mut paths = IndexMap::new(alloc);
    for task in order {
        let found = paths_of_task(scopes, *task, &paths);
        paths.insert(*task, found)?;
    }
    Ok(paths)
}

// The paths of the body of a task, by those of the bodies that it calls.
fn paths_of_task(scopes: &Scopes, task: Member, paths: &IndexMap<Member, Paths>) -> Paths
    ensures { (within : List spelled.Ident → sums.Paths)
        → ((path : List spelled.Ident)
        → AreBest (called_paths (spec_tree scopes.now) task.template paths.now.entries path) (within path))
        → AreBest result (option_map_or (λ b. row_paths within b.context (row_of (body_stmts b.body)))
        (numbered_body (spec_tree scopes.now) task) (choosing 0)) }
{
    match scopes.task(task) {
        Some(def) => body_paths(
            &CallPaths::new(scopes, task.template, BodyName::Task(task.index), paths),
            &def.body,
        ),
        None => Paths::choosing(0),
    }
}

//! What an instance of a template adds to each count: by itself, by its processes and by its tasks.
ghost use Rattle.std.specs.Prelude.{◌≡◌, ◌≤◌, ℕ, IfOk, Some, length, slice_get};
ghost use Rattle.tm_syntax.specs.declared.tree.Template as declared;
ghost use Rattle.tm_syntax.specs.Tree.View.{body_tree, process_tree, spec_tree, task_tree, template_tree};
ghost use Rattle.tm_syntax.specs.Scopes.Context as text;
ghost use Rattle.tm_syntax.specs.Scopes.Pauses.{call_depth, is_controllable};
ghost use Rattle.tm_syntax.specs.Counts.Bodies as bodies;
ghost use Rattle.tm_syntax.specs.Counts.Choices.{body_paths, path_sums};
ghost use Rattle.tm_syntax.specs.Counts.Instances.{greatest};
ghost use Rattle.tm_scope.specs.CallOrder.{CoversTasks, IsCallOrder};
ghost use Rattle.tm_scope.specs.Context.{body_name};
ghost use Rattle.tm_limits.specs.Amount.{capped};
ghost use Rattle.tm_limits.specs.Inner.Weights.{weight_of};
ghost use Rattle.tm_limits.specs.Shares.{
  AreTaskCounts,
  combination_of,
  controllable_share,
  own_share,
  process_share,
  task_share,
  template_share,
};

mod bits;
mod bodies;
mod processes;
mod tasks;

use crate::paths::Paths;
use crate::tasks::{task_paths, task_weights};
use crate::totals::{Combination, combined};
use crate::weights::Weight;
use bits::vars_bits;
use indexmap::IndexMap;
use processes::processes_share;
use std::alloc::{AllocError, Global};
use tasks::tasks_share;
use tm_scope::{Scopes, TaskSet, ordered_tasks_are_pausing, pausing_tasks};
use tm_syntax::fault::Quantity;
use tm_syntax::member::Member;
use tm_syntax::tree::Template;

/// What is counted over the bodies of all tasks of a text, and which of these tasks may pause.
#[derive(Drop)]
pub(crate) struct TaskCounts {
    pub(crate) pausing: TaskSet,
    pub(crate) statements: IndexMap<Member, u64>,
    pub(crate) locations: IndexMap<Member, u64>,
    pub(crate) paths: IndexMap<Member, Paths>,
}

/// The counts over the bodies of all tasks, along an order in which each task stands behind all that it calls. Linear
/// in the text. `AllocError` is want of memory.
pub(crate) fn task_counts(
    alloc: Global,
    scopes: &Scopes,
    order: &[Member],
) -> Result<TaskCounts, AllocError>
    requires ordered { IsCallOrder (spec_tree scopes.now) order.now }
    requires covers { CoversTasks (spec_tree scopes.now) order.now }
    requires short { length order.now ≤ call_depth (spec_tree scopes.now) }
    ensures { IfOk result (AreTaskCounts (spec_tree scopes.now)) }
{
    let pausing = given!(pausing_tasks(alloc, scopes, order));
    let weights = task_weights(alloc, scopes, order, Weight::Statements);
    let statements = given!(weights, pausing);
    let weights = task_weights(alloc, scopes, order, Weight::Locations);
    let locations = given!(weights, statements, pausing);
    let paths = given!(
        task_paths(alloc, scopes, order),
        locations,
        statements,
        pausing
    );
    ordered_tasks_are_pausing();
    Ok(TaskCounts {
        pausing,
        statements,
        locations,
        paths,
    })
}

/// How the counts of instances are put together.
pub(crate) fn combination_of(quantity: Quantity) -> Combination
    ensures { result ≡ combination_of quantity }
{
    match quantity {
        Quantity::Choices | Quantity::Arguments | Quantity::Locations => Combination::Greatest,
        Quantity::Specification
        | Quantity::Name
        | Quantity::Statements
        | Quantity::Instances
        | Quantity::Processes
        | Quantity::Goals
        | Quantity::Fairness
        | Quantity::Tasks
        | Quantity::State
        | Quantity::Atoms => Combination::Sum,
    }
}

// What an instance of a template adds by itself.
fn template_share(scopes: &Scopes, quantity: Quantity, template: &Template) -> u64
    ensures { result ≡ capped (template_share (spec_tree scopes.now) quantity (template_tree template.now)) }
{
    match quantity {
        Quantity::Instances => 1,
        Quantity::Goals => template.goals.len() as u64,
        Quantity::Fairness => template.fairs.len() as u64,
        Quantity::State => vars_bits(scopes, template.vars.as_slice()),
        Quantity::Specification
        | Quantity::Name
        | Quantity::Statements
        | Quantity::Processes
        | Quantity::Tasks
        | Quantity::Choices
        | Quantity::Arguments
        | Quantity::Locations
        | Quantity::Atoms => 0,
    }
}

/// What an instance of the template of a number adds, with its processes and tasks.
pub(crate) fn own_share(
    scopes: &Scopes,
    counts: &TaskCounts,
    quantity: Quantity,
    number: usize,
    template: &Template,
) -> u64
    requires counted { AreTaskCounts (spec_tree scopes.now) counts.now }
    requires numbered { slice_get scopes.now.templates.items number ≡ Some template.now }
    ensures { result ≡ capped (own_share (spec_tree scopes.now) quantity (template_tree template.now)) }
{
    let combination = combination_of(quantity);
    let alone = template_share(scopes, quantity, template);
    let processes = processes_share(scopes, counts, quantity, number, template);
    let tasks = tasks_share(scopes, counts, quantity, number, template);
    combined(combination, combined(combination, alone, processes), tasks)
}

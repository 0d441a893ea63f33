//! What a design lists beside its tree.
ghost use Rattle.std.specs.Prelude.{◌≡◌, ◌≤◌, IfOk, Some, codes, length};
ghost use Rattle.tm_syntax.specs.Tree.View.{spec_tree};
ghost use Rattle.tm_syntax.specs.Scopes.Names.{template_number};
ghost use Rattle.tm_syntax.specs.Scopes.Pauses.{call_depth};
ghost use Rattle.tm_syntax.specs.Faults.{IsTyped};
ghost use Rattle.tm_scope.specs.CallOrder.{CoversTasks, IsCallOrder};
ghost use Rattle.tm_scope.specs.Cells.{ArePausing};
ghost use Rattle.tm_scope.specs.Graph.{graph_of};
ghost use Rattle.tm_limits.specs.TemplateOrders.{AreOrdered};
ghost use Rattle.tm_inst.specs.Answer.{IsWithinCounts};
ghost use Rattle.tm_inst.specs.Inner.Parts.{HasParts};
ghost use Rattle.tm_inst.specs.ShortTexts.{IsOfShortText};

use crate::sizes::template_sizes;
use crate::{Items, list_instances, list_items, variables};
use std::alloc::{AllocError, Global};
use tm_scope::{Scopes, TaskSet, ordered_tasks_are_pausing, pausing_tasks};
use tm_syntax::design::{Instance, Var};
use tm_syntax::member::Member;

/// The instances, the state variables and the items of a design.
#[derive(Drop)]
pub(crate) struct Parts {
    pub(crate) instances: Vec<Instance>,
    pub(crate) vars: Vec<Var>,
    pub(crate) items: Items,
}

/// What the design of a specification lists that is within its limits. `AllocError` is want of memory.
///
/// `graph` and `order` are what `template_order` of `tm_limits` answers, and `pausing` are the tasks that may pause.
pub(crate) fn list_parts(
    alloc: Global,
    scopes: &Scopes,
    graph: &[Vec<usize>],
    order: &[usize],
    pausing: &TaskSet,
) -> Result<Parts, AllocError>
    requires typed { IsTyped (spec_tree scopes.now) }
    requires short_text { IsOfShortText (spec_tree scopes.now) }
    requires within { IsWithinCounts (spec_tree scopes.now) }
    requires templates { AreOrdered (spec_tree scopes.now) (graph_of graph.now) order.now }
    requires pausing { ArePausing (spec_tree scopes.now) pausing.now }
    ensures { IfOk result (HasParts (spec_tree scopes.now)) }
{
    let sizes = template_sizes(alloc, graph, order)?;
    let instances = list_instances(alloc, scopes, sizes.as_slice(), main_number(scopes))?;
    let vars = variables(alloc, scopes, pausing, instances.as_slice())?;
    let items = list_items(alloc, scopes.spec(), instances.as_slice())?;
    Ok(Parts {
        instances,
        vars,
        items,
    })
}

// The number of the template `main`.
fn main_number(scopes: &Scopes) -> usize
    requires { IsTyped (spec_tree scopes.now) }
    ensures { template_number (spec_tree scopes.now) (codes "main") ≡ Some result }
{
    match scopes.template_number(b"main") {
        Some(main) => main,
        None => unreachable!(),
    }
}

/// The tasks that may pause, from an order of all tasks. `AllocError` is want of memory.
pub(crate) fn pausing_of(
    alloc: Global,
    scopes: &Scopes,
    calls: &[Member],
) -> Result<TaskSet, AllocError>
    requires ordered { IsCallOrder (spec_tree scopes.now) calls.now }
    requires covers { CoversTasks (spec_tree scopes.now) calls.now }
    requires short { length calls.now ≤ call_depth (spec_tree scopes.now) }
    ensures { IfOk result (ArePausing (spec_tree scopes.now)) }
{
    let tasks = pausing_tasks(alloc, scopes, calls)?;
    ordered_tasks_are_pausing();
    Ok(tasks)
}

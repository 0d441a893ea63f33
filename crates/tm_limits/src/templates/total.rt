//! What the instances of a text count together.
ghost use Rattle.std.specs.Prelude.{◌≡◌, ℕ, IfOk, length, map};
ghost use Rattle.tm_syntax.specs.Tree.{TemplateTree};
ghost use Rattle.tm_syntax.specs.Tree.View.{spec_tree};
ghost use Rattle.tm_syntax.specs.Counts.Instances.{instance_templates};
ghost use Rattle.tm_limits.specs.Amount.{capped};
ghost use Rattle.tm_limits.specs.TemplateOrders.{AreOrdered};
ghost use Rattle.tm_scope.specs.Graph.{graph_of};
ghost use Rattle.tm_limits.specs.Totals.{over};

use crate::totals::{Combination, count_at, totals};
use std::alloc::{AllocError, Global};
use tm_scope::Scopes;

/// What all instances of a text count together, from what one instance of each template counts. Linear in the graph of
/// templates, however many instances there are. `AllocError` is want of memory.
pub(crate) fn instances_total(
    alloc: Global,
    scopes: &Scopes,
    graph: &[Vec<usize>],
    order: &[usize],
    own: &[u64],
    combination: Combination,
) -> Result<u64, AllocError>
    requires ordered { AreOrdered (spec_tree scopes.now) (graph_of graph.now) order.now }
    requires same { length own.now ≡ length graph.now }
    ensures { IfOk result (λ total. (count : TemplateTree → ℕ)
        → own.now ≡ map (λ t. capped (count t)) (spec_tree scopes.now).templates
        → total ≡ capped (over combination (map count (instance_templates (spec_tree scopes.now))))) }
{
    let totals = totals(alloc, graph, order, own, combination)?;
    match scopes.template_number(b"main") {
        Some(main) => Ok(count_at(totals.as_slice(), main)),
        None => Ok(0),
    }
}

//! Which templates hold instances of which: in an order in which each stands behind all that it holds, or the first one
//! that holds itself.
ghost use Rattle.std.specs.Prelude.{◌≡◌, IfOk, map};
ghost use Rattle.tm_scope.specs.declared.graph.Walked as stepped;
ghost use Rattle.tm_limits.specs.TemplateOrders.{IsTemplateOrder};

mod cycle;
mod held;
mod total;

use cycle::{first_marked, looping_nodes};
use held::held_templates;
use std::alloc::{AllocError, Global};
use tm_scope::{Scopes, Walked, walk_graph};
use tm_syntax::tree::Ident;
pub(crate) use total::instances_total;

/// The name of the first template that holds itself, or for each template those that it holds, and an order of them.
#[derive(Drop)]
pub enum TemplateOrder<'a> {
    Cyclic(&'a Ident),
    Ordered(Vec<Vec<usize>>, Vec<usize>),
}

/// An order of the templates of a text, each behind all that it holds, or the first one that holds itself. Linear in
/// the text. `AllocError` is want of memory.
pub fn template_order<'a>(
    alloc: Global,
    scopes: &Scopes<'a>,
) -> Result<TemplateOrder<'a>, AllocError>
    ensures { IfOk result (IsTemplateOrder scopes.now) }
{
    let spec = scopes.spec();
    let graph = held_templates(alloc, scopes, spec)?;
    let walk = walk_graph(alloc, graph.as_slice())?;
    let looping = looping_nodes(alloc, graph.as_slice(), walk.as_slice())?;
    match first_marked(looping.as_slice(), spec.templates.as_slice()) {
        Some(name) => Ok(TemplateOrder::Cyclic(name)),
        None => {
            let order = nodes_of(alloc, walk.as_slice())?;
            Ok(TemplateOrder::Ordered(graph, order))
        }
    }
}

// The nodes of a walk, in its order.
fn nodes_of(alloc: Global, walk: &[Walked]) -> Result<Vec<usize>, AllocError>
    ensures { IfOk result (λ nodes. nodes.items ≡ map (λ (w : stepped.Walked). w.node) walk.now) }
{
    walk.iter().map(|walked| walked.node).collect(alloc)
}

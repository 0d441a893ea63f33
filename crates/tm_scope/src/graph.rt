//! Directed graphs: an order of the nodes of one, and which of them reach themselves.
ghost use Rattle.std.specs.Prelude.{IfOk};
ghost use Rattle.tm_scope.specs.Graph.{HasEdgesWithin, IsWalk, graph_of};

mod groups;
mod walk;

use std::alloc::{AllocError, Global};
use walk::Walk;

/// A node that a walk has left, and whether it reaches itself.
#[derive(Clone, Copy, PartialEq, Eq, Debug)]
pub struct Walked {
    pub node: usize,
    pub loops: bool,
}

/// All nodes of a graph in an order in which each one that does not reach itself stands behind all to which its edges
/// lead. `edges` has, at the number of each node, the numbers of the nodes to which its edges lead.
///
/// The strongly connected components of the graph are left one after the other, as on the paths of Purdom and Gabow:
/// linear in its nodes and edges, with a stack of its own. `AllocError` is want of memory.
pub fn walk_graph(alloc: Global, edges: &[Vec<usize>]) -> Result<Vec<Walked>, AllocError>
    requires { HasEdgesWithin (graph_of edges.now) }
    ensures { IfOk result (λ order. IsWalk (graph_of edges.now) order.items) }
{
    let mut walk = Walk::new(alloc, edges)?;
    while let Some(node) = walk.pending.pop() {
        walk.follow(edges, node)?;
        walk.close_groups()?;
    }
    Ok(walk.order)
}

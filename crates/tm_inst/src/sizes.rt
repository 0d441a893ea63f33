//! How many instances one of each template is.
ghost use Rattle.std.specs.Prelude.{◌≡◌, ℕ, Contains, IfOk, get_or, map};
ghost use Rattle.tm_scope.specs.Graph.{graph_of};
ghost use Rattle.tm_limits.specs.Amount.{capped};
ghost use Rattle.tm_limits.specs.Orders.{IsOrder};
ghost use Rattle.tm_limits.specs.Totals.{combined, over};
ghost use Rattle.tm_syntax.specs.declared.fault.Quantity.TheVariants as quantity;
ghost use Rattle.tm_limits.specs.Shares.{combination_of};
ghost use Rattle.tm_inst.specs.Inner.Sizes.{HasSizes};

use std::alloc::{AllocError, Global};

/// For each node of a graph how many nodes it is with all below it, each as often as paths lead to it, along an order
/// of them; numbers stay at the greatest one of 64 bits. Linear in the graph. `AllocError` is want of memory.
pub(crate) fn template_sizes(
    alloc: Global,
    graph: &[Vec<usize>],
    order: &[usize],
) -> Result<Vec<usize>, AllocError>
    requires { IsOrder (graph_of graph.now) order.now }
    ensures { IfOk result (λ sizes. HasSizes (graph_of graph.now) order.now sizes.items) }
{
    let mut sizes = Vec::new(alloc);
    sizes.resize(graph.len(), 0)?;
    for node in order {
        let size = size_with(graph[*node].as_slice(), sizes.as_slice());
        sizes[*node] = size;
    }
    Ok(sizes)
}

// The size of a node, from the nodes to which it leads and the sizes of these.
fn size_with(below: &[usize], sizes: &[usize]) -> usize
    ensures { (size : ℕ → ℕ) → ((n : ℕ) → Contains below.now n → get_or sizes.now n 0 ≡ capped (size n))
        → result ≡ capped (combined (combination_of quantity.Instances) 1
        (over (combination_of quantity.Instances) (map size below.now))) }
{
    let mut size: usize = 1;
    for node in below {
        size = size.saturating_add(size_at(sizes, *node));
    }
    size
}

// The size of a node, 0 where there is none.
fn size_at(sizes: &[usize], node: usize) -> usize
    ensures { result ≡ get_or sizes.now node 0 }
{
    sizes.get(node).copied().unwrap_or(0)
}

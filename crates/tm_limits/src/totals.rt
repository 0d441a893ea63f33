//! Counts over a node of a graph and all that lie below it, along an order of the nodes.
ghost use Rattle.std.specs.Prelude.{◌≡◌, ℕ, Contains, IfOk, Some, get_or, length, map, slice_get};
ghost use Rattle.tm_limits.specs.Amount.{capped};
ghost use Rattle.tm_scope.specs.Graph.{graph_of};
ghost use Rattle.tm_limits.specs.Orders.{IsOrder, targets};
ghost use Rattle.tm_limits.specs.Totals.{combined, nodes_below, over};

use crate::amount::{greater, sum};
use std::alloc::{AllocError, Global};

/// How counts are put together: they are added, or the greatest of them counts.
#[derive(Clone, Copy)]
pub(crate) enum Combination {
    Sum,
    Greatest,
}

/// Two counts, put together.
pub(crate) fn combined(combination: Combination, first: u64, second: u64) -> u64
    ensures { (m n : ℕ) → first ≡ capped m → second ≡ capped n → result ≡ capped (combined combination m n) }
{
    match combination {
        Combination::Sum => sum(first, second),
        Combination::Greatest => greater(first, second),
    }
}

/// For each node of an order its own count, put together with those of all nodes below it, each as often as paths lead
/// to it. Linear in the graph. `AllocError` is want of memory.
pub(crate) fn totals(
    alloc: Global,
    graph: &[Vec<usize>],
    order: &[usize],
    own: &[u64],
    combination: Combination,
) -> Result<Vec<u64>, AllocError>
    requires ordered { IsOrder (graph_of graph.now) order.now }
    requires same { length own.now ≡ length graph.now }
    ensures { IfOk result (λ totals. (counts : ℕ → ℕ) → ((k : ℕ) → get_or own.now k 0 ≡ capped (counts k))
        → (k n : ℕ) → slice_get order.now k ≡ Some n → get_or totals.items n 0
        ≡ capped (over combination (map counts (nodes_below (length order.now) (graph_of graph.now) n)))) }
{
    let mut totals = Vec::new(alloc);
    for _count in own {
        totals.push(0)?;
    }
    for node in order {
        let total = total(
            combination,
            count_at(own, *node),
            targets_of(graph, *node),
            totals.as_slice(),
        );
        totals[*node] = total;
    }
    Ok(totals)
}

// The count of a node, put together with those of the nodes to which it leads.
fn total(combination: Combination, own: u64, below: &[usize], totals: &[u64]) -> u64
    ensures { (m : ℕ) (count : ℕ → ℕ) → own ≡ capped m
        → ((n : ℕ) → Contains below.now n → get_or totals.now n 0 ≡ capped (count n))
        → result ≡ capped (combined combination m (over combination (map count below.now))) }
{
    let mut total = own;
    for target in below {
        total = combined(combination, total, count_at(totals, *target));
    }
    total
}

// The nodes to which a node leads.
fn targets_of(graph: &[Vec<usize>], node: usize) -> &[usize]
    ensures { result.now ≡ targets (graph_of graph.now) node }
{
    match graph.get(node) {
        Some(row) => row.as_slice(),
        None => &[],
    }
}

/// The count of a number, 0 where there is none.
pub(crate) fn count_at(counts: &[u64], number: usize) -> u64
    ensures { result ≡ get_or counts.now number 0 }
{
    counts.get(number).copied().unwrap_or(0)
}

//! The counts of a text that have limits.
ghost use Rattle.std.specs.Prelude.{◌≡◌, ◌+◌, ℕ, IfOk, map};
ghost use Rattle.tm_syntax.specs.Tree.View.{spec_tree};
ghost use Rattle.tm_syntax.specs.Design.Sizes.{bits_of_number};
ghost use Rattle.tm_scope.specs.Graph.{graph_of};
ghost use Rattle.tm_limits.specs.Amount.{capped};
ghost use Rattle.tm_limits.specs.TemplateOrders.{AreOrdered};
ghost use Rattle.tm_limits.specs.Shares.{AreTaskCounts, all_shares, own_share, whole_count};

use crate::amount::sum;
use crate::shares::{TaskCounts, combination_of, own_share};
use crate::sizes::bits_of_number;
use crate::templates::instances_total;
use std::alloc::{AllocError, Global};
use tm_scope::Scopes;
use tm_syntax::fault::Quantity;

/// A quantity of a text, as its limit counts it, from the graph of its templates with an order of them, and from the
/// counts of its tasks. `AllocError` is want of memory.
pub(crate) fn count(
    alloc: Global,
    scopes: &Scopes,
    graph: &[Vec<usize>],
    order: &[usize],
    counts: &TaskCounts,
    quantity: Quantity,
) -> Result<u64, AllocError>
    requires ordered { AreOrdered (spec_tree scopes.now) (graph_of graph.now) order.now }
    requires counted { AreTaskCounts (spec_tree scopes.now) counts.now }
    ensures { IfOk result (λ n. n ≡ capped (whole_count (spec_tree scopes.now) quantity)) }
{
    let total = all_shares(alloc, scopes, graph, order, counts, quantity)?;
    match quantity {
        Quantity::Fairness => Ok(sum(1, total)),
        Quantity::State => {
            let processes = all_shares(alloc, scopes, graph, order, counts, Quantity::Processes)?;
            Ok(with_last_bits(total, processes))
        }
        _ => Ok(total),
    }
}

// State bits, with those of the last move, which is at most one more than there are processes.
fn with_last_bits(bits: u64, processes: u64) -> u64
    ensures { (m n : ℕ) → bits ≡ capped m → processes ≡ capped n → result ≡ capped (m + bits_of_number (n + 1)) }
{
    sum(bits, bits_of_number(sum(processes, 1)))
}

// What all instances of a text add.
fn all_shares(
    alloc: Global,
    scopes: &Scopes,
    graph: &[Vec<usize>],
    order: &[usize],
    counts: &TaskCounts,
    quantity: Quantity,
) -> Result<u64, AllocError>
    requires ordered { AreOrdered (spec_tree scopes.now) (graph_of graph.now) order.now }
    requires counted { AreTaskCounts (spec_tree scopes.now) counts.now }
    ensures { IfOk result (λ n. n ≡ capped (all_shares (spec_tree scopes.now) quantity)) }
{
    let own = own_shares(alloc, scopes, counts, quantity)?;
    instances_total(
        alloc,
        scopes,
        graph,
        order,
        own.as_slice(),
        combination_of(quantity),
    )
}

// What an instance of each template adds.
fn own_shares(
    alloc: Global,
    scopes: &Scopes,
    counts: &TaskCounts,
    quantity: Quantity,
) -> Result<Vec<u64>, AllocError>
    requires { AreTaskCounts (spec_tree scopes.now) counts.now }
    ensures { IfOk result (λ own. own.items
        ≡ map (λ t. capped (own_share (spec_tree scopes.now) quantity t)) (spec_tree scopes.now).templates) }
{
    let templates = scopes.spec().templates.as_slice();
    let mut own = Vec::new(alloc);
    for (number, template) in templates.iter().enumerate() {
        own.push(own_share(scopes, counts, quantity, number, template))?;
    }
    Ok(own)
}

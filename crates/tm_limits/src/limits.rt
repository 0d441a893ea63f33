//! The limits of a specification.
ghost use Rattle.std.specs.Prelude.{◌≡◌, ◌≤◌, ℕ, IfOk, MatchOption, None, Some, length};
ghost use Rattle.tm_syntax.specs.declared.fault.FaultKind.TheVariants as kind;
ghost use Rattle.tm_syntax.specs.declared.fault.Quantity as quantities;
ghost use Rattle.tm_syntax.specs.Tree.View.{spec_tree};
ghost use Rattle.tm_syntax.specs.Places.{text_start};
ghost use Rattle.tm_syntax.specs.Faults.{fault};
ghost use Rattle.tm_syntax.specs.Faults.Limits.{above, count_of, counted, first_above, limit_of};
ghost use Rattle.tm_syntax.specs.Scopes.Pauses.{call_depth};
ghost use Rattle.tm_scope.specs.CallOrder.{CoversTasks, IsCallOrder};
ghost use Rattle.tm_scope.specs.Graph.{graph_of};
ghost use Rattle.tm_limits.specs.Amount.{capped};
ghost use Rattle.tm_limits.specs.TemplateOrders.{AreOrdered};
ghost use Rattle.tm_limits.specs.FirstLimit.{IsFirstLimit};
ghost use Rattle.tm_limits.specs.Shares.{AreTaskCounts};

use crate::counts::count;
use crate::names::first_long_name;
use crate::shares::{TaskCounts, task_counts};
use std::alloc::{AllocError, Global};
use tm_base::Place;
use tm_scope::Scopes;
use tm_syntax::fault::{Detail, FaultKind, Faulty, Quantity};
use tm_syntax::member::Member;
use tm_syntax::tree::Ident;

// The first place of a text.
const START: Place = Place { line: 1, column: 1 };

// The greatest number that a fault tells.
const MOST_TOLD: u64 = 4294967295;

// The quantities that are counted over the text, in the order of their limits.
const COUNTED: [Quantity; 10] = [
    Quantity::Statements,
    Quantity::Instances,
    Quantity::Processes,
    Quantity::Goals,
    Quantity::Fairness,
    Quantity::Tasks,
    Quantity::State,
    Quantity::Choices,
    Quantity::Arguments,
    Quantity::Locations,
];

// The limit of a quantity.
fn limit_of(quantity: Quantity) -> u64
    ensures { result ≡ limit_of quantity }
{
    match quantity {
        Quantity::Specification => 1048576,
        Quantity::Name => 63,
        Quantity::Statements => 65536,
        Quantity::Instances => 64,
        Quantity::Processes => 30,
        Quantity::Goals => 16,
        Quantity::Fairness => 32,
        Quantity::Tasks => 64,
        Quantity::State => 256,
        Quantity::Choices => 64,
        Quantity::Arguments => 64,
        Quantity::Locations => 1024,
        Quantity::Atoms => 512,
    }
}

/// The fault of a quantity above its limit.
pub fn above(place: Place, what: Quantity, found: u64) -> Faulty
    ensures { (n : ℕ) → found ≡ capped n → result ≡ fault kind.Limit (above place what n) }
{
    Faulty {
        kind: FaultKind::Limit,
        place,
        detail: Detail::Limit {
            what,
            limit: limit_of(what),
            found: found.min(MOST_TOLD),
        },
    }
}

// The number of bytes of a name.
fn length_of(name: &Ident) -> u64
    ensures { result ≡ capped (length name.now.text) }
{
    name.text.as_bytes().len() as u64
}

/// The first limit of a text that is not kept, in the order of the limits, apart from that on atoms: the first name
/// that is too long, or the first quantity that is above its limit. Linear in the text, however many instances there
/// are and however often bodies are called. `AllocError` is want of memory.
///
/// `graph` and `order` are what `template_order` answers, and `calls` what `call_order` of `tm_scope` does.
pub fn first_limit(
    alloc: Global,
    scopes: &Scopes,
    graph: &[Vec<usize>],
    order: &[usize],
    calls: &[Member],
) -> Result<Option<Faulty>, AllocError>
    requires templates { AreOrdered (spec_tree scopes.now) (graph_of graph.now) order.now }
    requires ordered { IsCallOrder (spec_tree scopes.now) calls.now }
    requires covers { CoversTasks (spec_tree scopes.now) calls.now }
    requires short { length calls.now ≤ call_depth (spec_tree scopes.now) }
    ensures { IfOk result (IsFirstLimit (spec_tree scopes.now)) }
{
    if let Some(name) = first_long_name(scopes.spec()) {
        return Ok(Some(above(name.place, Quantity::Name, length_of(name))));
    }
    let counts = given!(task_counts(alloc, scopes, calls));
    let found = first_above(alloc, scopes, graph, order, &counts);
    drop(counts);
    found
}

// The fault of the first quantity that is above its limit, in the order of the limits.
fn first_above(
    alloc: Global,
    scopes: &Scopes,
    graph: &[Vec<usize>],
    order: &[usize],
    counts: &TaskCounts,
) -> Result<Option<Faulty>, AllocError>
    requires ordered { AreOrdered (spec_tree scopes.now) (graph_of graph.now) order.now }
    requires counted { AreTaskCounts (spec_tree scopes.now) counts.now }
    ensures { IfOk result (λ o. MatchOption o (first_above (spec_tree scopes.now) ≡ None)
        (λ f. (what : quantities.Quantity) × (first_above (spec_tree scopes.now) ≡ Some what)
        × (f ≡ fault kind.Limit (above text_start what (count_of (spec_tree scopes.now) what))))) }
{
    for quantity in &COUNTED {
        let found = count(alloc, scopes, graph, order, counts, *quantity)?;
        if found > limit_of(*quantity) {
            return Ok(Some(above(START, *quantity, found)));
        }
    }
    Ok(None)
}

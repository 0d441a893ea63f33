//! The design of a checked specification, phase by phase.
ghost use Rattle.std.specs.Prelude.{◌≡◌, ◌≤◌, IfErr, IfOk, MatchResult, length};
ghost use Rattle.tm_syntax.specs.declared.fault.Faulty as fault;
ghost use Rattle.tm_syntax.specs.Tree.View.{spec_tree};
ghost use Rattle.tm_syntax.specs.Design.View.{design_tree};
ghost use Rattle.tm_syntax.specs.Scopes.Pauses.{call_depth};
ghost use Rattle.tm_syntax.specs.Faults.{HasTreeFault, IsSound, IsTyped};
ghost use Rattle.tm_scope.specs.CallOrder.{CoversTasks, IsCallOrder};
ghost use Rattle.tm_scope.specs.Graph.{graph_of};
ghost use Rattle.tm_limits.specs.TemplateOrders.{AreOrdered};
ghost use Rattle.tm_inst.specs.Answer.{IsMemoryOr, IsWithinCounts};
ghost use Rattle.tm_inst.specs.Inner.Parts.{HasSoundParts};
ghost use Rattle.tm_inst.specs.ShortTexts.{IsOfShortText};

use crate::atoms::with_few_atoms;
use crate::calls::call_order_of;
use crate::faults::template_cycle;
use crate::parts::{Parts, list_parts, pausing_of};
use std::alloc::{AllocError, Global};
use tm_limits::{TemplateOrder, first_limit, template_order};
use tm_scope::Scopes;
use tm_syntax::design::Design;
use tm_syntax::fault::FrontError;
use tm_syntax::member::Member;
use tm_syntax::tree::Spec;
use tm_syntax::typed::Typed;

/// Makes the design of a checked specification, whose tree is that of a text of at most 1 MiB: its instances, variables
/// and items, numbered.
///
/// `Faulty` is `F11`, the first template that holds itself, or else `F12`, the first limit that is not kept, in the
/// order of the limits; the specification is dropped then. `Memory` is want of memory. `Ok` gives the design: neither
/// fault holds. Near linear in the text, in what is listed and in the bodies of the instances, but for the heights of
/// comparisons within comparisons.
pub fn instantiate(alloc: Global, typed: Typed) -> Result<Design, FrontError>
    requires { IsOfShortText (spec_tree typed.spec) }
    ensures tree { IfOk result (λ design. design.spec ≡ typed.spec) }
    ensures sound { IfOk result (λ design. IsSound (design_tree design)) }
    ensures faulty { IfErr result (IsMemoryOr (HasTreeFault (spec_tree typed.spec))) }

    // Where there is such a fault, nothing else is told but want of memory.
    ensures told { (f : fault.Faulty) → HasTreeFault (spec_tree typed.spec) f
        → MatchResult result (λ _. ⊥) (IsMemoryOr (λ g. g ≡ f)) }
{
    let parts = parts_of(alloc, &typed.spec)?;
    Ok(Design {
        spec: typed.spec,
        instances: parts.instances,
        vars: parts.vars,
        processes: parts.items.processes,
        tasks: parts.items.tasks,
        goals: parts.items.goals,
        fairs: parts.items.fairs,
    })
}

// What the design of a specification lists.
fn parts_of(alloc: Global, spec: &Spec) -> Result<Parts, FrontError>
    requires typed { IsTyped (spec_tree spec.now) }
    requires short { IsOfShortText (spec_tree spec.now) }
    ensures ok { IfOk result (HasSoundParts (spec_tree spec.now)) }
    ensures faulty { IfErr result (IsMemoryOr (HasTreeFault (spec_tree spec.now))) }
{
    let scopes = match Scopes::new(alloc, spec) {
        Ok(scopes) => scopes,
        Err(AllocError) => return Err(FrontError::Memory),
    };
    let parts = parts_in(alloc, &scopes);
    drop(scopes);
    parts
}

// What the design of a specification lists, by its scopes.
fn parts_in(alloc: Global, scopes: &Scopes) -> Result<Parts, FrontError>
    requires typed { IsTyped (spec_tree scopes.now) }
    requires short { IsOfShortText (spec_tree scopes.now) }
    ensures ok { IfOk result (HasSoundParts (spec_tree scopes.now)) }
    ensures faulty { IfErr result (IsMemoryOr (HasTreeFault (spec_tree scopes.now))) }
{
    match template_order(alloc, scopes)? {
        TemplateOrder::Cyclic(name) => Err(FrontError::Faulty(template_cycle(alloc, name)?)),
        TemplateOrder::Ordered(graph, order) => {
            ordered_parts(alloc, scopes, graph.as_slice(), order.as_slice())
        }
    }
}

// What the design of a specification lists, given an order of its templates, of which none holds itself.
fn ordered_parts(
    alloc: Global,
    scopes: &Scopes,
    graph: &[Vec<usize>],
    order: &[usize],
) -> Result<Parts, FrontError>
    requires typed { IsTyped (spec_tree scopes.now) }
    requires short { IsOfShortText (spec_tree scopes.now) }
    requires ordered { AreOrdered (spec_tree scopes.now) (graph_of graph.now) order.now }
    ensures ok { IfOk result (HasSoundParts (spec_tree scopes.now)) }
    ensures faulty { IfErr result (IsMemoryOr (HasTreeFault (spec_tree scopes.now))) }
{
    let calls = call_order_of(alloc, scopes)?;
    match first_limit(alloc, scopes, graph, order, calls.as_slice())? {
        Some(fault) => Err(FrontError::Faulty(fault)),
        None => counted_parts(alloc, scopes, graph, order, calls.as_slice()),
    }
}

// What the design of a specification lists, given an order of its templates and one of its tasks, where each limit that
// is counted over the text is kept.
fn counted_parts(
    alloc: Global,
    scopes: &Scopes,
    graph: &[Vec<usize>],
    order: &[usize],
    calls: &[Member],
) -> Result<Parts, FrontError>
    requires typed { IsTyped (spec_tree scopes.now) }
    requires short_text { IsOfShortText (spec_tree scopes.now) }
    requires within { IsWithinCounts (spec_tree scopes.now) }
    requires templates { AreOrdered (spec_tree scopes.now) (graph_of graph.now) order.now }
    requires ordered { IsCallOrder (spec_tree scopes.now) calls.now }
    requires covers { CoversTasks (spec_tree scopes.now) calls.now }
    requires short { length calls.now ≤ call_depth (spec_tree scopes.now) }
    ensures ok { IfOk result (HasSoundParts (spec_tree scopes.now)) }
    ensures faulty { IfErr result (IsMemoryOr (HasTreeFault (spec_tree scopes.now))) }
{
    let pausing = pausing_of(alloc, scopes, calls)?;
    let parts = list_parts(alloc, scopes, graph, order, &pausing)?;
    with_few_atoms(alloc, scopes, &pausing, parts)
}

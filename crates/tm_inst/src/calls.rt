//! The order of the calls of a specification in which no task reaches itself.
ghost use Rattle.std.specs.Prelude.{◌≤◌, IfOk, length};
ghost use Rattle.tm_syntax.specs.declared.member.Member as numbered;
ghost use Rattle.tm_syntax.specs.Tree.View.{spec_tree};
ghost use Rattle.tm_syntax.specs.Scopes.Calls.{Reaches};
ghost use Rattle.tm_syntax.specs.Scopes.Pauses.{call_depth};
ghost use Rattle.tm_scope.specs.CallOrder.{CoversTasks, IsCallOrder};

use std::alloc::{AllocError, Global};
use tm_scope::{Scopes, call_order};
use tm_syntax::member::Member;

/// The tasks and procedures of a text in an order in which each stands behind all that it calls. `AllocError` is want
/// of memory.
pub(crate) fn call_order_of(alloc: Global, scopes: &Scopes) -> Result<Vec<Member>, AllocError>
    requires { (m : numbered.Member) → ¬ Reaches (spec_tree scopes.now) m m }
    ensures ordered { IfOk result (λ order. IsCallOrder (spec_tree scopes.now) order.items) }
    ensures covers { IfOk result (λ order. CoversTasks (spec_tree scopes.now) order.items) }
    ensures short { IfOk result (λ order. length order.items ≤ call_depth (spec_tree scopes.now)) }
{
    match call_order(alloc, scopes)? {
        Some(order) => Ok(order),
        None => unreachable!(),
    }
}

//! Which bodies may pause and which are sure to cross, by the tasks that do.
ghost use Rattle.std.specs.Prelude.{◌≡◌, map};
ghost use Rattle.std.specs.List.{list_any};
ghost use Rattle.tm_syntax.specs.Tree.View.{body_tree, local_tree};
ghost use Rattle.tm_syntax.specs.Scopes.Crossing.{value_crosses};
ghost use Rattle.tm_syntax.specs.Scopes.Pauses.{value_pauses};
ghost use Rattle.tm_scope.specs.Marks.{crosses_by, is_marked, pauses_by};

use crate::calls::crossing::{row_crosses, value_crosses};
use crate::calls::marks::CallMarks;
use crate::calls::pausing::{row_pauses, value_pauses};
use tm_syntax::tree::{Body, LocalDef};

/// Whether a body holds a location or a call of a task that may pause.
pub fn body_pauses(calls: &CallMarks, body: &Body) -> bool
    ensures { result ≡ pauses_by (is_marked calls.now) (body_tree body.now) }
{
    local_pauses(calls, body.locals.as_slice()) || row_pauses(calls, body.stmts.as_slice())
}

// Whether the value of some local is a call of a task that may pause.
fn local_pauses(calls: &CallMarks, locals: &[LocalDef]) -> bool
    ensures { result ≡ list_any (λ l. value_pauses (is_marked calls.now) l.value) (map local_tree locals.now) }
{
    for local in locals {
        if value_pauses(calls, &local.value) {
            return true;
        }
    }
    false
}

/// Whether a body is sure to cross a location.
pub fn body_crosses(calls: &CallMarks, body: &Body) -> bool
    ensures { result ≡ crosses_by (is_marked calls.now) (body_tree body.now) }
{
    local_crosses(calls, body.locals.as_slice()) || row_crosses(calls, body.stmts.as_slice())
}

// Whether the value of some local is a call of a body that is sure to cross.
fn local_crosses(calls: &CallMarks, locals: &[LocalDef]) -> bool
    ensures { result ≡ list_any (λ l. value_crosses (is_marked calls.now) l.value) (map local_tree locals.now) }
{
    for local in locals {
        if value_crosses(calls, &local.value) {
            return true;
        }
    }
    false
}

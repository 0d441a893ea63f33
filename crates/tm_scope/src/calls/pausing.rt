//! Which statements may pause, by the tasks that do.
ghost use Rattle.std.specs.Prelude.{◌≡◌, map};
ghost use Rattle.tm_syntax.specs.Tree.{alternatives_of, row_of};
ghost use Rattle.tm_syntax.specs.Tree.View.{stmt_tree, stmt_trees, value_tree};
ghost use Rattle.tm_syntax.specs.Scopes.Pauses.{block_pauses, row_pauses, stmt_pauses, value_pauses};
ghost use Rattle.tm_scope.specs.Marks.{is_marked};

use crate::calls::marks::CallMarks;
use tm_syntax::tree::{Stmt, Value};

/// Whether a statement holds a location or a call of a task that may pause. Linear in the statement, and as deep as it
/// nests.
#[cycle(pausing)]
#[tactic(auto, using(tm_syntax::proofs::Views::views))]
pub fn stmt_pauses(calls: &CallMarks, stmt: &Stmt) -> bool
    ensures { result ≡ stmt_pauses (is_marked calls.now) (stmt_tree stmt.now) }
{
    match stmt {
        Stmt::Assign(_, _, value) => value_pauses(calls, value),
        Stmt::Call(path, _) => calls.is_marked(path.names.as_slice()),
        Stmt::If(_, first, second) => {
            row_pauses(calls, first.as_slice()) || row_pauses(calls, second.as_slice())
        }
        Stmt::While(_, _, body) => row_pauses(calls, body.as_slice()),
        Stmt::Forever(_, body) => row_pauses(calls, body.as_slice()),
        Stmt::Choice(_, blocks) => block_pauses(calls, blocks.as_slice()),
        Stmt::Assert(_, _) => false,
        Stmt::Assume(_, _) => false,
        Stmt::Pause(_) => true,
        Stmt::Wait(_, _) => true,
        Stmt::Magic(_) => true,
    }
}

/// Whether some statement of a row may pause.
#[cycle(pausing)]
pub fn row_pauses(calls: &CallMarks, stmts: &[Stmt]) -> bool
    ensures { result ≡ row_pauses (is_marked calls.now) (row_of (stmt_trees stmts.now)) }
{
    for stmt in stmts {
        if stmt_pauses(calls, stmt) {
            return true;
        }
    }
    false
}

// Whether some alternative may pause.
#[cycle(pausing)]
fn block_pauses(calls: &CallMarks, blocks: &[Vec<Stmt>]) -> bool
    ensures { result ≡ block_pauses (is_marked calls.now)
        (alternatives_of (map (λ b. row_of (stmt_trees b.items)) blocks.now)) }
{
    for block in blocks {
        if row_pauses(calls, block.as_slice()) {
            return true;
        }
    }
    false
}

// Whether a value is a call of a task that may pause.
pub(crate) fn value_pauses(calls: &CallMarks, value: &Value) -> bool
    ensures { result ≡ value_pauses (is_marked calls.now) (value_tree value.now) }
{
    match value {
        Value::Star(_) => false,
        Value::Call(path, _) => calls.is_marked(path.names.as_slice()),
        Value::Plain(_) => false,
    }
}

//! Which statements are sure to cross a location, by the tasks that do.
ghost use Rattle.std.specs.Prelude.{◌≡◌, map};
ghost use Rattle.tm_syntax.specs.Tree.{alternatives_of, row_of};
ghost use Rattle.tm_syntax.specs.Tree.View.{stmt_tree, stmt_trees, value_tree};
ghost use Rattle.tm_syntax.specs.Scopes.Crossing.{blocks_cross, row_crosses, stmt_crosses, value_crosses};
ghost use Rattle.tm_scope.specs.Marks.{is_marked};

use crate::calls::marks::CallMarks;
use tm_syntax::tree::{Stmt, Value};

/// Whether a statement is sure to cross. Linear in the statement, and as deep as it nests.
#[cycle(crossing)]
#[tactic(auto, using(tm_syntax::proofs::Views::views))]
pub fn stmt_crosses(calls: &CallMarks, stmt: &Stmt) -> bool
    ensures { result ≡ stmt_crosses (is_marked calls.now) (stmt_tree stmt.now) }
{
    match stmt {
        Stmt::Assign(_, _, value) => value_crosses(calls, value),
        Stmt::Call(path, _) => calls.is_marked(path.names.as_slice()),
        Stmt::If(_, first, second) => {
            row_crosses(calls, first.as_slice()) && row_crosses(calls, second.as_slice())
        }
        Stmt::While(_, _, _) => false,
        Stmt::Forever(_, body) => row_crosses(calls, body.as_slice()),
        Stmt::Choice(_, blocks) => blocks_cross(calls, blocks.as_slice()),
        Stmt::Assert(_, _) => false,
        Stmt::Assume(_, _) => false,
        Stmt::Pause(_) => true,
        Stmt::Wait(_, _) => true,
        Stmt::Magic(_) => true,
    }
}

/// Whether some statement of a row is sure to cross.
#[cycle(crossing)]
pub fn row_crosses(calls: &CallMarks, stmts: &[Stmt]) -> bool
    ensures { result ≡ row_crosses (is_marked calls.now) (row_of (stmt_trees stmts.now)) }
{
    for stmt in stmts {
        if stmt_crosses(calls, stmt) {
            return true;
        }
    }
    false
}

// Whether every alternative is sure to cross, and there is one.
#[cycle(crossing)]
fn blocks_cross(calls: &CallMarks, blocks: &[Vec<Stmt>]) -> bool
    ensures { result ≡ blocks_cross (is_marked calls.now)
        (alternatives_of (map (λ b. row_of (stmt_trees b.items)) blocks.now)) }
{
    if blocks.is_empty() {
        return false;
    }
    for block in blocks {
        if !row_crosses(calls, block.as_slice()) {
            return false;
        }
    }
    true
}

// Whether a value is a call of a body that is sure to cross.
pub(crate) fn value_crosses(calls: &CallMarks, value: &Value) -> bool
    ensures { result ≡ value_crosses (is_marked calls.now) (value_tree value.now) }
{
    match value {
        Value::Star(_) => false,
        Value::Call(path, _) => calls.is_marked(path.names.as_slice()),
        Value::Plain(_) => false,
    }
}

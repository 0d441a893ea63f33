//! Which expressions are a state variable.
ghost use Rattle.std.specs.Prelude.{◌≡◌};
ghost use Rattle.tm_syntax.specs.Tree.View.{expr_tree};
ghost use Rattle.tm_syntax.specs.Scopes.Names.{last_name};
ghost use Rattle.tm_syntax.specs.Design.{DesignTree};
ghost use Rattle.tm_syntax.specs.Design.Atoms as atoms;
ghost use Rattle.tm_syntax.specs.Design.Cells.{cell};
ghost use Rattle.tm_scope.specs.Cells.{HasCells, scope_of};
ghost use Rattle.tm_atoms.specs.Inner.Numbers.{literal as literal_of};
ghost use Rattle.tm_flat_pool.specs.Inner.Marks.{variable_in};

use tm_scope::{CellNumber, CellScope};
use tm_syntax::tree::{Expr, Ident};

// The state variable that a path means, with the index of an element where there is one.
fn path_variable(scope: &CellScope, path: &[Ident], index: Option<u64>) -> Option<usize>
    ensures { (d : DesignTree) → HasCells scope.now.tables d → result
        ≡ variable_in (atoms.resolved_cell (cell d (scope_of scope.now.at) path.now index) (last_name path.now)) }
{
    match scope.cell(path, index) {
        None => None,
        Some(CellNumber::State(number)) => Some(number),
        Some(CellNumber::Step(_)) => None,
    }
}

// The value of an expression that is a number.
fn literal(e: &Expr) -> Option<u64>
    ensures { result ≡ literal_of (expr_tree e.now) }
{
    match e {
        Expr::Number(number) => Some(number.value.unwrap_or(0)),
        Expr::Truth(_, _) => None,
        Expr::Path(_) => None,
        Expr::Group(_, _) => None,
        Expr::Unary(_, _, _) => None,
        Expr::Binary(_, _, _, _) => None,
        Expr::Shift(_, _, _, _) => None,
        Expr::Conditional(_, _, _, _) => None,
        Expr::Cast(_, _, _) => None,
        Expr::Element(_, _) => None,
    }
}

// The state variable that an element is, whose index is a number.
fn element_variable(scope: &CellScope, path: &[Ident], index: &Expr) -> Option<usize>
    ensures { (d : DesignTree) → HasCells scope.now.tables d → (r : atoms.Resolved) →
        result ≡ variable_in (atoms.resolved_element d (scope_of scope.now.at) path.now (expr_tree index.now) r) }
{
    match literal(index) {
        Some(number) => path_variable(scope, path, Some(number)),
        None => None,
    }
}

/// The state variable that an expression of a scope is, if it is one: a path, or an element whose index is a number.
/// Linear in the path.
pub(crate) fn variable(scope: &CellScope, e: &Expr) -> Option<usize>
    ensures { (d : DesignTree) → HasCells scope.now.tables d →
        result ≡ variable_in (atoms.resolved d (scope_of scope.now.at) (expr_tree e.now)) }
{
    match e {
        Expr::Path(path) => path_variable(scope, path.names.as_slice(), None),
        Expr::Group(_, e) => variable(scope, e),
        Expr::Element(path, index) => element_variable(scope, path.names.as_slice(), index),
        Expr::Number(_) => None,
        Expr::Truth(_, _) => None,
        Expr::Unary(_, _, _) => None,
        Expr::Binary(_, _, _, _) => None,
        Expr::Shift(_, _, _, _) => None,
        Expr::Conditional(_, _, _, _) => None,
        Expr::Cast(_, _, _) => None,
    }
}

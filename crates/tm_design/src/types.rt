//! The types in which operands are valued.
ghost use Rattle.std.specs.Prelude.{◌≡◌};
ghost use Rattle.std.specs.Option.{option_map};
ghost use Rattle.tm_base.specs.declared.place.Place.{Place};
ghost use Rattle.tm_syntax.specs.Tree as trees;
ghost use Rattle.tm_syntax.specs.Tree.View.{expr_tree};
ghost use Rattle.tm_syntax.specs.Scopes.Types.{valued_in};
ghost use Rattle.tm_syntax.specs.Design.{DesignTree};
ghost use Rattle.tm_syntax.specs.Design.Scope.{index_type, joint_type, operand_type, type_in};
ghost use Rattle.tm_scope.specs.Cells.{HasCells, scope_of};
ghost use Rattle.tm_scope.specs.Types.{ty_of};
ghost use Rattle.tm_design.specs.Typed.{HasTypeAt};

use crate::sorts::{OperatorSort, sort_of};
use tm_scope::{CellScope, ExprType};
use tm_syntax::tree::{BinaryOperator, Expr};

// A type that is there, or the asked one.
fn valued_in<'a>(asked: ExprType<'a>, own: Option<ExprType<'a>>) -> ExprType<'a>
    ensures { ty_of result ≡ valued_in (ty_of asked.entry) (option_map ty_of own.entry) }
{
    match own {
        Some(ty) => ty,
        None => asked,
    }
}

/// The type in which an expression is valued: its own, or the one that its place asks for. What is cast has one of its
/// own. Linear in the expression, and as deep as it nests.
pub fn valued_type<'a>(scope: &CellScope<'a>, e: &Expr, asked: ExprType<'a>) -> ExprType<'a>
    ensures { (d : DesignTree) → HasCells scope.now.tables d →
        ty_of result ≡ valued_in (ty_of asked.entry) (type_in d (scope_of scope.now.at) (expr_tree e.now)) }
{
    valued_in(asked, scope.own_type(e))
}

/// The type in which two expressions that are joined or compared are valued: the own type of the first one that has
/// one, or the one that their place asks for. Linear in the expressions, and as deep as they nest.
pub fn joint_type<'a>(
    scope: &CellScope<'a>,
    a: &Expr,
    b: &Expr,
    asked: ExprType<'a>,
) -> ExprType<'a>
    ensures { (d : DesignTree) → HasCells scope.now.tables d → ty_of result
        ≡ joint_type d (scope_of scope.now.at) (ty_of asked.entry) (expr_tree a.now) (expr_tree b.now) }
{
    match scope.own_type(a) {
        Some(ty) => ty,
        None => valued_in(asked, scope.own_type(b)),
    }
}

/// The type that an operator asks its operands for, which both have. In constant time where the operator is one of
/// arithmetic or logic, and else as `joint_type`.
pub fn operand_type<'a>(
    scope: &CellScope<'a>,
    op: BinaryOperator,
    a: &Expr,
    b: &Expr,
    asked: ExprType<'a>,
) -> ExprType<'a>
    requires { (at : Place) × HasTypeAt scope.now (ty_of asked)
        (trees.binary at op (expr_tree a.now) (expr_tree b.now)) }
    ensures asks { (d : DesignTree) → HasCells scope.now.tables d → ty_of result
        ≡ operand_type d (scope_of scope.now.at) op (ty_of asked.entry) (expr_tree a.now) (expr_tree b.now) }
    ensures first { HasTypeAt scope.now (ty_of result) (expr_tree a.now) }
    ensures second { HasTypeAt scope.now (ty_of result) (expr_tree b.now) }
{
    match sort_of(op) {
        OperatorSort::Arithmetic => asked,
        OperatorSort::Comparison => joint_type(scope, a, b, asked),
        OperatorSort::Conjunction | OperatorSort::Disjunction => ExprType::Bool,
    }
}

/// The type in which an index is valued: its own, or for a number one that holds every length. Linear in the index, and
/// as deep as it nests.
pub fn index_type<'a>(scope: &CellScope<'a>, index: &Expr) -> ExprType<'a>
    ensures { (d : DesignTree) → HasCells scope.now.tables d →
        ty_of result ≡ index_type d (scope_of scope.now.at) (expr_tree index.now) }
{
    valued_type(scope, index, ExprType::Uint(Some(64)))
}

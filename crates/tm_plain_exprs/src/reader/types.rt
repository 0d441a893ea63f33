//! The types that the parts of expressions are asked for.
ghost use Rattle.std.specs.Prelude.{◌≡◌};
ghost use Rattle.tm_base.specs.declared.place.Place.{Place};
ghost use Rattle.tm_syntax.specs.Tree as trees;
ghost use Rattle.tm_syntax.specs.Tree.View.{expr_tree};
ghost use Rattle.tm_syntax.specs.Scopes.Types.{valued_in};
ghost use Rattle.tm_syntax.specs.Design.{DesignTree};
ghost use Rattle.tm_syntax.specs.Design.Scope.{index_type, type_in};
ghost use Rattle.tm_scope.specs.Cells.{HasCells, scope_of};
ghost use Rattle.tm_scope.specs.Types.{ty_of};
ghost use Rattle.tm_design.specs.Typed.{HasTypeAt};
ghost use Rattle.tm_plain_exprs.specs.Valued.{IsOperandType};

use crate::reader::Reader;
use tm_scope::ExprType;
use tm_syntax::tree::{BinaryOperator, Expr};

impl<'a> Reader<'a> {
    /// The type that an operator asks its operands for. Linear in the operands up to what has a type of its own, and
    /// in constant time where the operator is one of arithmetic or logic.
    pub(crate) fn operand_type(
        &self,
        op: BinaryOperator,
        a: &Expr,
        b: &Expr,
        asked: ExprType<'a>,
    ) -> ExprType<'a>
        requires { (at : Place) × HasTypeAt self.now (ty_of asked)
            (trees.binary at op (expr_tree a.now) (expr_tree b.now)) }
        ensures { IsOperandType self.now op (ty_of asked.entry) (expr_tree a.now) (expr_tree b.now) (ty_of result) }
    {
        tm_design::operand_type(&self.scope, op, a, b, asked)
    }

    /// The type in which what is cast is valued: its own.
    pub(crate) fn cast_type(&self, e: &Expr, asked: ExprType<'a>) -> ExprType<'a>
        ensures { (d : DesignTree) → HasCells self.now.tables d →
            ty_of result ≡ valued_in (ty_of asked.entry) (type_in d (scope_of self.now.at) (expr_tree e.now)) }
    {
        tm_design::valued_type(&self.scope, e, asked)
    }

    /// The type in which an index is valued.
    pub(crate) fn index_type(&self, index: &Expr) -> ExprType<'a>
        ensures { (d : DesignTree) → HasCells self.now.tables d →
            ty_of result ≡ index_type d (scope_of self.now.at) (expr_tree index.now) }
    {
        tm_design::index_type(&self.scope, index)
    }
}

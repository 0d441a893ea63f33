//! The values of expressions.
ghost use Rattle.std.specs.Prelude.{◌≡◌, ◌<◌, IfOk, OnErr};
ghost use Rattle.tm_base.specs.declared.place.Place.{Place};
ghost use Rattle.tm_base.specs.Arithmetic as numbers;
ghost use Rattle.tm_syntax.specs.declared.design.Ty.{Ty};
ghost use Rattle.tm_syntax.specs.Tree as trees;
ghost use Rattle.tm_syntax.specs.Tree.View.{expr_tree};
ghost use Rattle.tm_syntax.specs.Scopes.Names.{number_of};
ghost use Rattle.tm_syntax.specs.Design.Sizes.{width};
ghost use Rattle.tm_scope.specs.Types.{ty_of};
ghost use Rattle.tm_typing.specs.HasType.{IsSized, IsWidth};
ghost use Rattle.tm_plain_exprs.specs.Operators.{decides};
ghost use Rattle.tm_design.specs.Typed.{HasTypeAt};
ghost use Rattle.tm_plain_exprs.specs.Valued.{IsIndex, IsOperandType, IsValued, Overruns};

use crate::operators::{binary_value, unary_value};
use crate::overrun::Overrun;
use crate::reader::Reader;
use crate::store::Store;
use tm_base::{ShiftOperator, bit, resize, shift};
use tm_scope::ExprType;
use tm_syntax::tree::{BinaryOperator, Expr, Ident, Num, UnaryOperator};

// The width of the arithmetic on a type that numbers can have.
fn width_of(ty: ExprType<'_>) -> u8
    requires { IsSized (ty_of ty) }
    ensures width { result ≡ width (ty_of ty.entry) }
    ensures is_width { numbers.IsWidth result }
{
    match ty.width() {
        Some(bits) => bits as u8,
        None => unreachable!(),
    }
}

// The value of a number that is a width.
fn width_in(number: &Num) -> u8
    requires { IsWidth (number_of number.now) }
    ensures width { result ≡ number_of number.now }
    ensures is_width { numbers.IsWidth result }
{
    number.value.unwrap_or(0) as u8
}

// The number of bits by which a number is shifted.
fn shift_amount(by: &Num) -> u8
    requires { number_of by.now < 64 }
    ensures { result ≡ number_of by.now }
{
    by.value.unwrap_or(0) as u8
}

// Whether the value of the first operand decides what an operator gives.
fn decides(op: BinaryOperator, first: u64) -> bool
    ensures { result ≡ decides op first }
{
    match op {
        BinaryOperator::AndAlso => first == 0,
        BinaryOperator::OrElse => first != 0,
        BinaryOperator::Add
        | BinaryOperator::Subtract
        | BinaryOperator::And
        | BinaryOperator::Or
        | BinaryOperator::Xor
        | BinaryOperator::Equal
        | BinaryOperator::NotEqual
        | BinaryOperator::Less
        | BinaryOperator::LessEqual
        | BinaryOperator::Greater
        | BinaryOperator::GreaterEqual => false,
    }
}

impl<'a> Reader<'a> {
    /// The value of an expression that has a type, where its place asks for this type. Linear in the expression, and as
    /// deep as it nests: the text's limit on nesting bounds the recursion. `Overrun` comes exactly where an index that
    /// is valued is not below the length of its array.
    #[cycle(value)]
    pub fn value(&self, store: &Store, e: &Expr, asked: ExprType<'a>) -> Result<u64, Overrun>
        requires { HasTypeAt self.now (ty_of asked) (expr_tree e.now) }
        ensures value { IfOk result (IsValued self.now store.now (ty_of asked.entry) (expr_tree e.now)) }
        ensures overrun { OnErr result (Overruns self.now store.now (expr_tree e.now)) }
    {
        match e {
            Expr::Truth(_, truth) => Ok(bit(*truth)),
            Expr::Number(number) => Ok(number.value.unwrap_or(0)),
            Expr::Path(path) => Ok(self.path_value(store, path.names.as_slice())),
            Expr::Group(_, e) => self.value(store, e, asked),
            Expr::Unary(_, op, e) => self.unary(store, *op, e, asked),
            Expr::Binary(_, op, a, b) => {
                let ty = self.operand_type(*op, a, b, asked);
                let first = self.value(store, a, ty)?;
                self.joined(store, *op, first, b, ty)
            }
            Expr::Shift(_, op, e, by) => self.shifted(store, *op, e, by, asked),
            Expr::Conditional(_, test, a, b) => {
                let tested = self.value(store, test, ExprType::Bool)?;
                if tested == 0 {
                    self.value(store, b, asked)
                } else {
                    self.value(store, a, asked)
                }
            }
            Expr::Cast(_, to, e) => self.cast(store, to, e, asked),
            Expr::Element(path, index) => {
                self.element(store, path.names.as_slice(), index, asked)
            }
        }
    }
}

impl<'a> Reader<'a> {
    // The value of what a path means: of its cell, or of the enum constant.
    fn path_value(&self, store: &Store, path: &[Ident]) -> u64
        ensures { (asked : Ty) → IsValued self.now store.now asked (trees.path path.now) result }
    {
        match self.cell_value(store, path, None) {
            Some(value) => value,
            None => self.constant(path),
        }
    }

    // The value of a prefix operator.
    #[cycle(value)]
    fn unary(
        &self,
        store: &Store,
        op: UnaryOperator,
        e: &Expr,
        asked: ExprType<'a>,
    ) -> Result<u64, Overrun>
        requires { (at : Place) × HasTypeAt self.now (ty_of asked) (trees.unary at op (expr_tree e.now)) }
        ensures value { IfOk result (λ n. (at : Place) →
            IsValued self.now store.now (ty_of asked.entry) (trees.unary at op (expr_tree e.now)) n) }
        ensures overrun { OnErr result ((at : Place) →
            Overruns self.now store.now (trees.unary at op (expr_tree e.now))) }
    {
        let operand = self.value(store, e, asked)?;
        Ok(unary_value(op, width_of(asked), operand))
    }

    // The value of an operator between two expressions, where the first has this value: the second is valued only where
    // the first does not decide.
    #[cycle(value)]
    fn joined(
        &self,
        store: &Store,
        op: BinaryOperator,
        first: u64,
        b: &Expr,
        ty: ExprType<'a>,
    ) -> Result<u64, Overrun>
        requires { HasTypeAt self.now (ty_of ty) (expr_tree b.now) }
        ensures value { IfOk result (λ n. (at : Place) (asked : Ty) (a : trees.ExprTree) →
            IsOperandType self.now op asked a (expr_tree b.now) (ty_of ty.entry) →
            IsValued self.now store.now (ty_of ty.entry) a first →
            IsValued self.now store.now asked (trees.binary at op a (expr_tree b.now)) n) }
        ensures overrun { OnErr result ((at : Place) (asked : Ty) (a : trees.ExprTree) →
            IsOperandType self.now op asked a (expr_tree b.now) (ty_of ty.entry) →
            IsValued self.now store.now (ty_of ty.entry) a first →
            Overruns self.now store.now (trees.binary at op a (expr_tree b.now))) }
    {
        if decides(op, first) {
            return Ok(binary_value(op, width_of(ty), first, 0));
        }
        let second = self.value(store, b, ty)?;
        Ok(binary_value(op, width_of(ty), first, second))
    }

    // The value of a shift.
    #[cycle(value)]
    fn shifted(
        &self,
        store: &Store,
        op: ShiftOperator,
        e: &Expr,
        by: &Num,
        asked: ExprType<'a>,
    ) -> Result<u64, Overrun>
        requires { (at : Place) × HasTypeAt self.now (ty_of asked) (trees.shift at op (expr_tree e.now) by.now) }
        ensures value { IfOk result (λ n. (at : Place) →
            IsValued self.now store.now (ty_of asked.entry) (trees.shift at op (expr_tree e.now) by.now) n) }
        ensures overrun { OnErr result ((at : Place) →
            Overruns self.now store.now (trees.shift at op (expr_tree e.now) by.now)) }
    {
        let operand = self.value(store, e, asked)?;
        Ok(shift(op, width_of(asked), operand, shift_amount(by)))
    }

    // The value of a cast.
    #[cycle(value)]
    fn cast(&self, store: &Store, to: &Num, e: &Expr, asked: ExprType<'a>) -> Result<u64, Overrun>
        requires { (at : Place) × HasTypeAt self.now (ty_of asked) (trees.cast at to.now (expr_tree e.now)) }
        ensures value { IfOk result (λ n. (at : Place) →
            IsValued self.now store.now (ty_of asked.entry) (trees.cast at to.now (expr_tree e.now)) n) }
        ensures overrun { OnErr result ((at : Place) →
            Overruns self.now store.now (trees.cast at to.now (expr_tree e.now))) }
    {
        let own = self.cast_type(e, asked);
        let operand = self.value(store, e, own)?;
        Ok(resize(width_in(to), operand))
    }

    // The value of an element of an array.
    #[cycle(value)]
    fn element(
        &self,
        store: &Store,
        path: &[Ident],
        index: &Expr,
        asked: ExprType<'a>,
    ) -> Result<u64, Overrun>
        requires { HasTypeAt self.now (ty_of asked) (trees.element path.now (expr_tree index.now)) }
        ensures value { IfOk result
            (IsValued self.now store.now (ty_of asked.entry) (trees.element path.now (expr_tree index.now))) }
        ensures overrun { OnErr result (Overruns self.now store.now (trees.element path.now (expr_tree index.now))) }
    {
        let number = self.index(store, path, index)?;
        Ok(self.cell_value(store, path, Some(number)).unwrap_or(0))
    }

    /// The value of the index of an element. `Overrun` comes exactly where the element overruns: an index that is
    /// valued is not below the length of its array.
    #[cycle(value)]
    pub fn index(&self, store: &Store, path: &[Ident], index: &Expr) -> Result<u64, Overrun>
        requires { (asked : Ty) × HasTypeAt self.now asked (trees.element path.now (expr_tree index.now)) }
        ensures value { IfOk result (IsIndex self.now store.now path.now (expr_tree index.now)) }
        ensures overrun { OnErr result (Overruns self.now store.now (trees.element path.now (expr_tree index.now))) }
    {
        let length = self.length(path);
        let ty = self.index_type(index);
        let number = self.value(store, index, ty)?;
        if length <= number {
            return Err(Overrun);
        }
        Ok(number)
    }
}

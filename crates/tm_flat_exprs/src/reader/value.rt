//! The terms of expressions.
ghost use Rattle.std.specs.Prelude.{◌≡◌, ◌<◌, IfOk};
ghost use Rattle.tm_base.specs.declared.place.Place.{Place};
ghost use Rattle.tm_base.specs.Arithmetic as numbers;
ghost use Rattle.tm_syntax.specs.Tree as trees;
ghost use Rattle.tm_syntax.specs.Tree.View.{expr_tree};
ghost use Rattle.tm_syntax.specs.Scopes.Names.{number_of};
ghost use Rattle.tm_scope.specs.Types.{ty_of};
ghost use Rattle.tm_typing.specs.HasType.{IsWidth};
ghost use Rattle.tm_design.specs.Typed.{HasTypeAt};
ghost use Rattle.tm_flat_exprs.specs.Valued.{Finds, IsOperandType, IsReady};

use crate::gates::{either, make};
use crate::memory::TermMemory;
use crate::operators::{chosen_overrun, joined, joined_overrun, shifted_term};
use crate::reader::TermReader;
use crate::reader::elements::{past_end, reachable};
use crate::valued::Valued;
use std::alloc::AllocError;
use tm_base::{ShiftOperator, bit};
use tm_design::{index_type, operand_type, valued_type};
use tm_scope::ExprType;
use tm_syntax::tree::{BinaryOperator, Expr, Ident, Num, UnaryOperator};
use tm_term::{Term, Terms};

// The value of a number that is a width.
fn width_in(number: &Num) -> u8
    requires { IsWidth (number_of number.now) }
    ensures width { result ≡ number_of number.now }
    ensures is_width { numbers.IsWidth result }
{
    number.value.unwrap_or(0) as u8
}

// The number of bits by which a number is shifted.
fn shift_amount(by: &Num) -> u8
    requires { number_of by.now < 64 }
    ensures { result ≡ number_of by.now }
{
    by.value.unwrap_or(0) as u8
}

impl<'s> TermReader<'s> {
    /// The terms of an expression that has a type, where its place asks for this type: over all values of the inputs,
    /// its value and whether it overruns. Linear in the expression and in the lengths of the arrays that it indexes,
    /// and as deep as it nests: the text's limit on nesting bounds the recursion. `AllocError` is want of memory.
    #[cycle(value)]
    pub fn value(
        &self,
        terms: &mut Terms,
        memory: &TermMemory,
        e: &Expr,
        asked: ExprType<'s>,
    ) -> Result<Valued, AllocError>
        requires typed { HasTypeAt self.now (ty_of asked) (expr_tree e.now) }
        requires ready { IsReady self.now terms.old memory.now }
        ensures { IfOk result
            (Finds self.now memory.now (ty_of asked.entry) (expr_tree e.now) terms.old terms.new) }
    {
        match e {
            Expr::Truth(_, truth) => self.truth_term(terms, memory, *truth, asked),
            Expr::Number(number) => self.literal_term(terms, memory, number, asked),
            Expr::Path(path) => self.path_term(terms, memory, path.names.as_slice(), asked),
            Expr::Group(_, e) => self.value(terms, memory, e, asked),
            Expr::Unary(_, op, e) => self.unary(terms, memory, *op, e, asked),
            Expr::Binary(_, op, a, b) => self.binary(terms, memory, *op, a, b, asked),
            Expr::Shift(_, op, e, by) => self.shifted(terms, memory, *op, e, by, asked),
            Expr::Conditional(_, test, a, b) => { self.chosen(terms, memory, test, a, b, asked) }
            Expr::Cast(_, to, e) => self.cast(terms, memory, to, e, asked),
            Expr::Element(path, index) => {
                self.element(terms, memory, path.names.as_slice(), index, asked)
            }
        }
    }
}

impl<'s> TermReader<'s> {
    // The term of a truth of the text.
    fn truth_term(
        &self,
        terms: &mut Terms,
        memory: &TermMemory,
        truth: bool,
        asked: ExprType<'s>,
    ) -> Result<Valued, AllocError>
        requires typed { (at : Place) × HasTypeAt self.now (ty_of asked) (trees.truth at truth) }
        requires ready { IsReady self.now terms.old memory.now }
        ensures { (at : Place) → IfOk result
            (Finds self.now memory.now (ty_of asked.entry) (trees.truth at truth) terms.old terms.new) }
    {
        let value = make(terms, Term::Const(1, bit(truth)))?;
        Ok(Valued {
            value,
            overrun: None,
        })
    }

    // The term of a number of the text.
    fn literal_term(
        &self,
        terms: &mut Terms,
        memory: &TermMemory,
        number: &Num,
        asked: ExprType<'s>,
    ) -> Result<Valued, AllocError>
        requires typed { HasTypeAt self.now (ty_of asked) (trees.number number.now) }
        requires ready { IsReady self.now terms.old memory.now }
        ensures { IfOk result
            (Finds self.now memory.now (ty_of asked.entry) (trees.number number.now) terms.old terms.new) }
    {
        let value = self.number_term(terms, number.value.unwrap_or(0), asked)?;
        Ok(Valued {
            value,
            overrun: None,
        })
    }

    // The terms of a prefix operator: the denial of a truth is its complement.
    #[cycle(value)]
    fn unary(
        &self,
        terms: &mut Terms,
        memory: &TermMemory,
        op: UnaryOperator,
        e: &Expr,
        asked: ExprType<'s>,
    ) -> Result<Valued, AllocError>
        requires typed { (at : Place) × HasTypeAt self.now (ty_of asked) (trees.unary at op (expr_tree e.now)) }
        requires ready { IsReady self.now terms.old memory.now }
        ensures { (at : Place) → IfOk result (Finds self.now memory.now (ty_of asked.entry)
            (trees.unary at op (expr_tree e.now)) terms.old terms.new) }
    {
        let operand = self.value(terms, memory, e, asked)?;
        let value = make(terms, Term::Not(operand.value))?;
        Ok(Valued {
            value,
            overrun: operand.overrun,
        })
    }

    // The type that an operator asks its operands for, with what it says of the bits of all three.
    fn operand_type(
        &self,
        op: BinaryOperator,
        a: &Expr,
        b: &Expr,
        asked: ExprType<'s>,
    ) -> ExprType<'s>
        requires { (at : Place) × HasTypeAt self.now (ty_of asked)
            (trees.binary at op (expr_tree a.now) (expr_tree b.now)) }
        ensures { IsOperandType self.now op (ty_of asked.entry) (expr_tree a.now) (expr_tree b.now) (ty_of result) }
    {
        operand_type(&self.scope, op, a, b, asked)
    }

    // The terms of an operator between two expressions.
    #[cycle(value)]
    fn binary(
        &self,
        terms: &mut Terms,
        memory: &TermMemory,
        op: BinaryOperator,
        a: &Expr,
        b: &Expr,
        asked: ExprType<'s>,
    ) -> Result<Valued, AllocError>
        requires typed { (at : Place) × HasTypeAt self.now (ty_of asked)
            (trees.binary at op (expr_tree a.now) (expr_tree b.now)) }
        requires ready { IsReady self.now terms.old memory.now }
        ensures { (at : Place) → IfOk result (Finds self.now memory.now (ty_of asked.entry)
            (trees.binary at op (expr_tree a.now) (expr_tree b.now)) terms.old terms.new) }
    {
        let ty = self.operand_type(op, a, b, asked);
        let first = self.value(terms, memory, a, ty)?;
        let second = self.value(terms, memory, b, ty)?;
        let value = joined(terms, op, first.value, second.value)?;
        let overrun = joined_overrun(terms, op, first, second.overrun)?;
        Ok(Valued { value, overrun })
    }

    // The terms of a shift.
    #[cycle(value)]
    fn shifted(
        &self,
        terms: &mut Terms,
        memory: &TermMemory,
        op: ShiftOperator,
        e: &Expr,
        by: &Num,
        asked: ExprType<'s>,
    ) -> Result<Valued, AllocError>
        requires typed { (at : Place) × HasTypeAt self.now (ty_of asked) (trees.shift at op (expr_tree e.now) by.now) }
        requires ready { IsReady self.now terms.old memory.now }
        ensures { (at : Place) → IfOk result (Finds self.now memory.now (ty_of asked.entry)
            (trees.shift at op (expr_tree e.now) by.now) terms.old terms.new) }
    {
        let operand = self.value(terms, memory, e, asked)?;
        let value = make(terms, shifted_term(op, operand.value, shift_amount(by)))?;
        Ok(Valued {
            value,
            overrun: operand.overrun,
        })
    }

    // The terms of a conditional, which overruns where its test or the branch that is chosen does.
    #[cycle(value)]
    fn chosen(
        &self,
        terms: &mut Terms,
        memory: &TermMemory,
        test: &Expr,
        a: &Expr,
        b: &Expr,
        asked: ExprType<'s>,
    ) -> Result<Valued, AllocError>
        requires typed { (at : Place) × HasTypeAt self.now (ty_of asked)
            (trees.conditional at (expr_tree test.now) (expr_tree a.now) (expr_tree b.now)) }
        requires ready { IsReady self.now terms.old memory.now }
        ensures { (at : Place) → IfOk result (Finds self.now memory.now (ty_of asked.entry)
            (trees.conditional at (expr_tree test.now) (expr_tree a.now) (expr_tree b.now)) terms.old terms.new) }
    {
        let tested = self.value(terms, memory, test, ExprType::Bool)?;
        let first = self.value(terms, memory, a, asked)?;
        let second = self.value(terms, memory, b, asked)?;
        let value = make(terms, Term::Ite(tested.value, first.value, second.value))?;
        let overrun = chosen_overrun(terms, tested, first.overrun, second.overrun)?;
        Ok(Valued { value, overrun })
    }

    // The terms of a cast.
    #[cycle(value)]
    fn cast(
        &self,
        terms: &mut Terms,
        memory: &TermMemory,
        to: &Num,
        e: &Expr,
        asked: ExprType<'s>,
    ) -> Result<Valued, AllocError>
        requires typed { (at : Place) × HasTypeAt self.now (ty_of asked) (trees.cast at to.now (expr_tree e.now)) }
        requires ready { IsReady self.now terms.old memory.now }
        ensures { (at : Place) → IfOk result (Finds self.now memory.now (ty_of asked.entry)
            (trees.cast at to.now (expr_tree e.now)) terms.old terms.new) }
    {
        let own = valued_type(&self.scope, e, asked);
        let operand = self.value(terms, memory, e, own)?;
        let value = make(terms, Term::Resize(width_in(to), operand.value))?;
        Ok(Valued {
            value,
            overrun: operand.overrun,
        })
    }

    /// The terms of an element of an array, by its path and its index: what `value` gives of it.
    #[cycle(value)]
    pub fn element(
        &self,
        terms: &mut Terms,
        memory: &TermMemory,
        path: &[Ident],
        index: &Expr,
        asked: ExprType<'s>,
    ) -> Result<Valued, AllocError>
        requires typed { HasTypeAt self.now (ty_of asked) (trees.element path.now (expr_tree index.now)) }
        requires ready { IsReady self.now terms.old memory.now }
        ensures { IfOk result (Finds self.now memory.now (ty_of asked.entry)
            (trees.element path.now (expr_tree index.now)) terms.old terms.new) }
    {
        if let Expr::Number(number) = index {
            return self.element_of_number(terms, memory, path, number, asked);
        }
        let length = self.length(path);
        let ty = index_type(&self.scope, index);
        let number = self.value(terms, memory, index, ty)?;
        let count = reachable(terms.width(number.value), length);
        let value = self.elements(terms, memory, path, number.value, count, asked)?;
        let past = past_end(terms, number.value, length)?;
        let overrun = either(terms, number.overrun, past)?;
        Ok(Valued { value, overrun })
    }
}

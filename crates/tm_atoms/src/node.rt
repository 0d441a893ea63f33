//! The nodes of resolved expressions.
ghost use Rattle.std.specs.Prelude.{◌≡◌};
ghost use Rattle.tm_atoms.specs.Inner.Nodes.{binary_of, shift_of, unary_of};

use tm_base::ShiftOperator;
use tm_syntax::tree::{BinaryOperator, UnaryOperator};

/// The operators of expressions: the prefix operators, those between two expressions, and the shifts.
#[derive(Clone, Copy, PartialEq, Eq, Hash, Debug)]
pub(crate) enum Operator {
    Complement,
    Not,
    Equal,
    NotEqual,
    Less,
    LessEqual,
    Greater,
    GreaterEqual,
    Add,
    Subtract,
    And,
    AndAlso,
    Or,
    OrElse,
    Xor,
    ShiftLeft,
    ShiftRight,
}

/// A resolved expression over the numbers of its parts. A constant has the number of its name, a variable that of a
/// state variable, and an element the number of the first one of its array.
#[derive(Clone, Copy, PartialEq, Eq, Hash, Debug)]
pub(crate) enum Node {
    Truth(bool),
    Number(u64),
    Constant(usize),
    Variable(usize),
    Step,
    Unary(Operator, usize),
    Binary(Operator, usize, usize),
    Shift(Operator, usize, u64),
    Conditional(usize, usize, usize),
    Cast(u64, usize),
    Element(usize, usize),
}

// A prefix operator.
pub(crate) fn unary_operator(operator: UnaryOperator) -> Operator
    ensures { result ≡ unary_of operator }
{
    match operator {
        UnaryOperator::Complement => Operator::Complement,
        UnaryOperator::Not => Operator::Not,
    }
}

// An operator between two expressions.
pub(crate) fn binary_operator(operator: BinaryOperator) -> Operator
    ensures { result ≡ binary_of operator }
{
    match operator {
        BinaryOperator::Equal => Operator::Equal,
        BinaryOperator::NotEqual => Operator::NotEqual,
        BinaryOperator::Less => Operator::Less,
        BinaryOperator::LessEqual => Operator::LessEqual,
        BinaryOperator::Greater => Operator::Greater,
        BinaryOperator::GreaterEqual => Operator::GreaterEqual,
        BinaryOperator::Add => Operator::Add,
        BinaryOperator::Subtract => Operator::Subtract,
        BinaryOperator::And => Operator::And,
        BinaryOperator::AndAlso => Operator::AndAlso,
        BinaryOperator::Or => Operator::Or,
        BinaryOperator::OrElse => Operator::OrElse,
        BinaryOperator::Xor => Operator::Xor,
    }
}

// A shift.
pub(crate) fn shift_operator(operator: ShiftOperator) -> Operator
    ensures { result ≡ shift_of operator }
{
    match operator {
        ShiftOperator::Left => Operator::ShiftLeft,
        ShiftOperator::Right => Operator::ShiftRight,
    }
}

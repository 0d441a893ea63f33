//! What operators ask of their operands.
ghost use Rattle.std.specs.Prelude.{◌≡◌};
ghost use Rattle.tm_design.specs.Sorts.{sort_of};

use tm_syntax::tree::BinaryOperator;

/// What an operator asks of its operands: numbers of its own type, two values of one type, or truths, of which the
/// second is valued only where the first does not decide.
#[derive(Clone, Copy, Debug, PartialEq, Eq)]
pub enum OperatorSort {
    Arithmetic,
    Comparison,
    Conjunction,
    Disjunction,
}

/// The sort of an operator.
pub fn sort_of(op: BinaryOperator) -> OperatorSort
    ensures { result ≡ sort_of op }
{
    match op {
        BinaryOperator::Add
        | BinaryOperator::Subtract
        | BinaryOperator::And
        | BinaryOperator::Or
        | BinaryOperator::Xor => OperatorSort::Arithmetic,
        BinaryOperator::Equal
        | BinaryOperator::NotEqual
        | BinaryOperator::Less
        | BinaryOperator::LessEqual
        | BinaryOperator::Greater
        | BinaryOperator::GreaterEqual => OperatorSort::Comparison,
        BinaryOperator::AndAlso => OperatorSort::Conjunction,
        BinaryOperator::OrElse => OperatorSort::Disjunction,
    }
}

//! What operators give of numbers.
ghost use Rattle.std.specs.Prelude.{◌≡◌};
ghost use Rattle.tm_base.specs.Arithmetic.{IsWidth};
ghost use Rattle.tm_base.specs.Arithmetic as numbers;
ghost use Rattle.tm_sem.specs.Value.{binary_value, unary_value};

use tm_base::{bit, difference, equal, greatest, less, less_equal, not_equal, resize, sum};
use tm_syntax::tree::{BinaryOperator, UnaryOperator};

/// What a prefix operator gives of any number, which counts as one of the width.
pub(crate) fn unary_value(op: UnaryOperator, width: u8, a: u64) -> u64
    requires { IsWidth width }
    ensures { result ≡ unary_value op width a }
{
    match op {
        UnaryOperator::Not => bit(a == 0),
        UnaryOperator::Complement => inverted(width, a),
    }
}

// Each bit turned over; of a number that is too large for the width nothing is left.
fn inverted(width: u8, a: u64) -> u64
    requires { IsWidth width }
    ensures { result ≡ numbers.complement width a }
{
    greatest(width).saturating_sub(a)
}

// The difference, modulo 2 to the width; a number that is too large for the width takes nothing away.
fn minus(width: u8, a: u64, b: u64) -> u64
    requires { IsWidth width }
    ensures { result ≡ numbers.difference width a b }
{
    if b <= greatest(width) {
        difference(width, a, b)
    } else {
        resize(width, a)
    }
}

/// What an operator gives of two numbers.
pub(crate) fn binary_value(op: BinaryOperator, width: u8, a: u64, b: u64) -> u64
    requires { IsWidth width }
    ensures { result ≡ binary_value op width a b }
{
    match op {
        BinaryOperator::Add => sum(width, a, b),
        BinaryOperator::Subtract => minus(width, a, b),
        BinaryOperator::And => a & b,
        BinaryOperator::Or => a | b,
        BinaryOperator::Xor => a ^ b,
        BinaryOperator::Equal => equal(a, b),
        BinaryOperator::NotEqual => not_equal(a, b),
        BinaryOperator::Less => less(a, b),
        BinaryOperator::LessEqual => less_equal(a, b),
        BinaryOperator::Greater => less(b, a),
        BinaryOperator::GreaterEqual => less_equal(b, a),
        BinaryOperator::AndAlso => { if a == 0 { 0 } else { b } }
        BinaryOperator::OrElse => { if a == 0 { b } else { 1 } }
    }
}

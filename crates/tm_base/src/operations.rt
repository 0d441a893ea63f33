//! The operations. Each takes no memory and constant time.
ghost use Rattle.std.specs.Prelude.{◌≡◌, ◌^◌, ◌<◌, ◌↔◌, IsTrue};
ghost use Rattle.tm_base.specs.Arithmetic as numbers;
ghost use Rattle.tm_base.specs.Shift as shifts;

use crate::shift_operator::ShiftOperator;

/// Whether a number is a width: 1 to 64.
pub fn is_width(width: u8) -> bool
    ensures { IsTrue result ↔ numbers.IsWidth width }
{
    1 <= width && width <= 64
}

/// The greatest number of the width, which is the mask of its bits.
pub fn greatest(width: u8) -> u64
    requires { numbers.IsWidth width }
    ensures { result ≡ numbers.greatest width }
{
    u64::MAX >> (64 - width)
}

/// The low bits of a number, as many as the width.
pub fn resize(width: u8, a: u64) -> u64
    requires { numbers.IsWidth width }
    ensures { result ≡ numbers.resize width a }
{
    a & greatest(width)
}

/// Each bit turned over.
pub fn complement(width: u8, a: u64) -> u64
    requires width { numbers.IsWidth width }
    requires in_range { a < 2 ^ width }
    ensures { result ≡ numbers.complement width a }
{
    greatest(width) - a
}

/// The sum, modulo 2 to the width.
pub fn sum(width: u8, a: u64, b: u64) -> u64
    requires { numbers.IsWidth width }
    ensures { result ≡ numbers.sum width a b }
{
    resize(width, a.wrapping_add(b))
}

/// The difference, modulo 2 to the width.
pub fn difference(width: u8, a: u64, b: u64) -> u64
    requires width { numbers.IsWidth width }
    requires in_range { b < 2 ^ width }
    ensures { result ≡ numbers.difference width a b }
{
    resize(width, a.wrapping_sub(b))
}

/// A number shifted to the left, modulo 2 to the width.
pub fn shift_left(width: u8, a: u64, by: u8) -> u64
    requires width { numbers.IsWidth width }
    requires by { by < 64 }
    ensures { result ≡ numbers.shift_left width a by }
{
    resize(width, a << by)
}

/// A number shifted to the right, with zeros from above.
pub fn shift_right(a: u64, by: u8) -> u64
    requires { by < 64 }
    ensures { result ≡ numbers.shift_right a by }
{
    a >> by
}

/// What a shift operator gives, modulo 2 to the width.
pub fn shift(op: ShiftOperator, width: u8, a: u64, by: u8) -> u64
    requires width { numbers.IsWidth width }
    requires by { by < 64 }
    ensures { result ≡ shifts.shift op width a by }
{
    match op {
        ShiftOperator::Left => shift_left(width, a, by),
        ShiftOperator::Right => shift_right(a, by),
    }
}

/// A test as a number: 1 where it holds, and else 0.
pub fn bit(test: bool) -> u64
    ensures { result ≡ numbers.bit test }
{
    u64::from(test)
}

/// Whether a number counts as true: it is not 0.
pub fn is_nonzero(a: u64) -> bool
    ensures { result ≡ numbers.is_nonzero a }
{
    a != 0
}

/// Whether two numbers are equal, as a number.
pub fn equal(a: u64, b: u64) -> u64
    ensures { result ≡ numbers.equal a b }
{
    bit(a == b)
}

/// Whether two numbers differ, as a number.
pub fn not_equal(a: u64, b: u64) -> u64
    ensures { result ≡ numbers.not_equal a b }
{
    bit(a != b)
}

/// Whether the first number is below the second, as a number.
pub fn less(a: u64, b: u64) -> u64
    ensures { result ≡ numbers.less a b }
{
    bit(a < b)
}

/// Whether the first number is at most the second, as a number.
pub fn less_equal(a: u64, b: u64) -> u64
    ensures { result ≡ numbers.less_equal a b }
{
    bit(a <= b)
}

/// The second number where the first is not 0, and else the third.
pub fn choice(c: u64, a: u64, b: u64) -> u64
    ensures { result ≡ numbers.choice c a b }
{
    if is_nonzero(c) { a } else { b }
}

//! The operators that shift a number.

/// The shifts of a number by a number of bits.
#[derive(Clone, Copy, Debug, PartialEq, Eq)]
pub enum ShiftOperator {
    /// Towards the most significant bit. What is shifted out is lost.
    Left,
    /// Towards the least significant bit, with zeros from above.
    Right,
}

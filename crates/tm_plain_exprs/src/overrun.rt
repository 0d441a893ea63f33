//! Where an expression has no value.

/// An index that is valued is not below the length of its array.
#[derive(Clone, Copy, Debug)]
pub struct Overrun;

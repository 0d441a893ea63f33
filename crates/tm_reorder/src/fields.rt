//! The numbers of a state.

/// A number of a state of a design: the value of a variable, the location of a process, or who moved last.
#[derive(Clone, Copy)]
pub struct Field {
    /// How many bits it has, 1 to 64.
    pub width: u8,
    /// The greatest value that it has at a valid state, a number of so many bits.
    pub last: u64,
}

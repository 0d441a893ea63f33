//! The blocks of a driver, and the expressions in them: the subset of C11 that a driver's text is written in.

use tm_base::ShiftOperator;

/// The greatest number of arguments of a call. A parameter has at least one bit, and a task's parameters at most 64.
pub const MOST_ARGUMENTS: usize = 64;

/// The operators between two numbers, in the order in which the C text's grammar lists them.
#[derive(Clone, Copy, Debug, PartialEq, Eq)]
pub enum NumOperator {
    Add,
    Subtract,
    And,
    Or,
    Xor,
}

/// The comparisons of two numbers.
#[derive(Clone, Copy, Debug, PartialEq, Eq)]
pub enum Comparison {
    Equal,
    NotEqual,
    Less,
    LessEqual,
    Greater,
    GreaterEqual,
}

/// The operators between two truth values.
#[derive(Clone, Copy, Debug, PartialEq, Eq)]
pub enum Junction {
    And,
    Or,
}

/// A number of 64 bits without a sign: `uint64_t`. Variables and locations are named by their numbers in the design.
#[derive(Drop)]
#[cycle(expression)]
pub enum Num64 {
    Const(u64),
    Var(u32),
    Location(u32),
    /// `termite_goal`: the number of the pending goal.
    Goal,
    /// `termite_last`: who moved last.
    Last,
    /// `~`: each bit turned over.
    Not(Box<Num64>),
    Binary(NumOperator, Box<Num64>, Box<Num64>),
    /// A shift by a constant number of bits.
    Shift(ShiftOperator, Box<Num64>, u8),
    /// `? :`
    Cond(Box<Truth>, Box<Num64>, Box<Num64>),
}

/// What stands where C tests for zero.
#[derive(Drop)]
#[cycle(expression)]
pub enum Truth {
    Num(Num64),
    Not(Box<Truth>),
    Compare(Comparison, Num64, Num64),
    Join(Junction, Box<Truth>, Box<Truth>),
}

/// A block: a test with the blocks to go on at where it holds and where it does not, a call of a controllable task,
/// a leave of the magic block at which a process stands, or nothing.
#[derive(Drop)]
pub enum Block {
    Test(Truth, u32, u32),
    Call(u32, Vec<Num64>),
    Leave(u32),
    Idle,
}

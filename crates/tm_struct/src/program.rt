//! A driver as nested tests and functions: the structured subset of C11 that its text is written in.

use tm_cir::{Num64, Truth};

/// The most `if` that may be open at once. So many levels the readers, the printer and dropping go down at most.
pub const MOST_IFS: u32 = 128;

/// A structured driver. It is well made over a design where its text is in the grammar: expressions, tasks and
/// processes are the design's, a call has as many arguments as its task has parameters, `driver_turn` names functions
/// that there are and each function earlier ones alone, and at most 128 `if` are open at once.
#[derive(Drop)]
pub struct Structured {
    /// What the functions `b0`, `b1` and so on do.
    pub functions: Vec<Tree>,
    /// What `driver_turn` does.
    pub main: Tree,
}

/// What a function does: a test with what is done where it holds and where it does not, a call of a controllable task,
/// a leave of the magic block at which a process stands, what the function of this number does, or nothing.
#[derive(Drop)]
pub enum Tree {
    If(Truth, Box<Tree>, Box<Tree>),
    Call(u32, Vec<Num64>),
    Leave(u32),
    Go(u32),
    Idle,
}

//! The tokens of the C text, with any names. A name is told by its number in the design; one of more than 32 bits
//! counts as the greatest, since no design has so many items.

use tm_base::ShiftOperator;
use tm_cir::block::{Comparison, Junction, NumOperator};

/// A word that has one meaning.
#[derive(Clone, Copy, Debug, PartialEq, Eq)]
pub enum Word {
    Void,
    DriverTurn,
    If,
    Else,
    Goto,
    Return,
    TermiteLeave,
    TermiteGoal,
    TermiteLast,
}

/// A sign; an operator's sign is told by its operator.
#[derive(Clone, Copy, Debug, PartialEq, Eq)]
pub enum Sign {
    OpenParenthesis,
    CloseParenthesis,
    OpenBrace,
    CloseBrace,
    Colon,
    Semicolon,
    Comma,
    Question,
    Tilde,
    Bang,
    Arithmetic(NumOperator),
    Shifting(ShiftOperator),
    Comparing(Comparison),
    Joining(Junction),
}

/// A token: a word, the label of a block, a variable, the location of a process, a controllable task, a constant or a
/// sign.
#[derive(Clone, Copy, Debug, PartialEq, Eq)]
pub enum Token {
    Word(Word),
    Label(u32),
    Variable(u32),
    Location(u32),
    Task(u32),
    Constant(u64),
    Sign(Sign),
}

//! The tokens of a specification.

use tm_base::Place;

/// The reserved words, in the order in which they are listed in the language's definition.
#[derive(Clone, Copy, Debug, PartialEq, Eq)]
pub enum Word {
    Typedef,
    Enum,
    Template,
    EndTemplate,
    Instance,
    Bool,
    Uint,
    Goal,
    Fair,
    Lazy,
    Process,
    Task,
    Controllable,
    Uncontrollable,
    Procedure,
    Void,
    Return,
    If,
    Else,
    While,
    Forever,
    Choice,
    Or,
    Assert,
    Assume,
    Pause,
    Wait,
    True,
    False,
}

/// The signs, in the order in which they are listed in the language's definition.
#[derive(Clone, Copy, Debug, PartialEq, Eq)]
pub enum Sign {
    OpenBrace,
    CloseBrace,
    OpenParenthesis,
    CloseParenthesis,
    OpenBracket,
    CloseBracket,
    Semicolon,
    Comma,
    Dot,
    Ellipsis,
    Colon,
    Question,
    Assign,
    Equal,
    NotEqual,
    Less,
    LessEqual,
    Greater,
    GreaterEqual,
    ShiftLeft,
    ShiftRight,
    Plus,
    Minus,
    And,
    AndAnd,
    Or,
    OrOr,
    Xor,
    Tilde,
    Bang,
    Star,
}

/// What a token is. A number keeps its text, which is the slice of its span.
#[derive(Clone, Copy, Debug, PartialEq, Eq)]
pub enum TokenKind {
    Name,
    Number,
    Word(Word),
    Sign(Sign),
}

/// A token: its kind, the bytes `start..end` of the text that it is, and where it begins.
#[derive(Clone, Copy, Debug, PartialEq, Eq)]
pub struct Token {
    pub kind: TokenKind,
    pub start: u32,
    pub end: u32,
    pub place: Place,
}

//! The operators of expressions, and how strongly they bind.

ghost use Rattle.std.specs.Prelude.{◌≡◌, ◌≢◌, MatchOption};
ghost use Rattle.tm_syntax.specs.declared.token.TokenKind.TheVariants as token;
ghost use Rattle.tm_syntax.specs.declared.tree.BinaryOperator.{BinaryOperator};
ghost use Rattle.tm_syntax.specs.Grammar.Expressions.{binary_sign, unary_sign, strength};
ghost use Rattle.tm_parse.specs.declared.operators.Infix.{Infix};
ghost use Rattle.tm_parse.specs.Operands.{infix_sign, infix_strength, IsPrefix, primary_at};

use tm_base::ShiftOperator;
use tm_syntax::token::{Sign, Token, TokenKind, Word};
use tm_syntax::tree::{BinaryOperator, UnaryOperator};

/// An operator behind an expression.
#[derive(Clone, Copy)]
pub enum Infix {
    Binary(BinaryOperator),
    Shift(ShiftOperator),
}

/// The primaries, by their first tokens.
#[derive(Clone, Copy)]
pub enum Primary {
    Number,
    True,
    False,
    Place,
    Group,
    Cast,
}

/// The primary that begins here.
pub fn primary_at(tokens: &[Token]) -> Option<Primary>
    ensures { result ≡ primary_at tokens.now }
{
    match tokens.first()?.kind {
        TokenKind::Number => Some(Primary::Number),
        TokenKind::Name => Some(Primary::Place),
        TokenKind::Word(Word::True) => Some(Primary::True),
        TokenKind::Word(Word::False) => Some(Primary::False),
        TokenKind::Word(Word::Uint) => Some(Primary::Cast),
        TokenKind::Sign(Sign::OpenParenthesis) => Some(Primary::Group),
        _ => None,
    }
}

/// How strongly an operator binds: from 1, loosest, to 9.
pub fn strength(operator: Infix) -> u8
    ensures { result ≡ infix_strength operator }
{
    match operator {
        Infix::Binary(binary) => binary_strength(binary),
        Infix::Shift(_) => 8,
    }
}

fn binary_strength(operator: BinaryOperator) -> u8
    ensures { result ≡ strength operator }
{
    match operator {
        BinaryOperator::OrElse => 1,
        BinaryOperator::AndAlso => 2,
        BinaryOperator::Or => 3,
        BinaryOperator::Xor => 4,
        BinaryOperator::And => 5,
        BinaryOperator::Equal => 6,
        BinaryOperator::NotEqual => 6,
        BinaryOperator::Less => 7,
        BinaryOperator::LessEqual => 7,
        BinaryOperator::Greater => 7,
        BinaryOperator::GreaterEqual => 7,
        BinaryOperator::Add => 9,
        BinaryOperator::Subtract => 9,
    }
}

/// The operator that a token behind an expression is.
pub fn infix_of(kind: TokenKind) -> Option<Infix>
    ensures { MatchOption result
        ((op : Infix) → kind ≢ token.Sign (infix_sign op))
        (λ op. kind ≡ token.Sign (infix_sign op)) }
{
    match kind {
        TokenKind::Sign(Sign::ShiftLeft) => Some(Infix::Shift(ShiftOperator::Left)),
        TokenKind::Sign(Sign::ShiftRight) => Some(Infix::Shift(ShiftOperator::Right)),
        TokenKind::Sign(sign) => binary(sign).map(Infix::Binary),
        _ => None,
    }
}

fn binary(sign: Sign) -> Option<BinaryOperator>
    ensures { MatchOption result
        ((op : BinaryOperator) → sign ≢ binary_sign op)
        (λ op. sign ≡ binary_sign op) }
{
    match sign {
        Sign::Equal => Some(BinaryOperator::Equal),
        Sign::NotEqual => Some(BinaryOperator::NotEqual),
        Sign::Less => Some(BinaryOperator::Less),
        Sign::LessEqual => Some(BinaryOperator::LessEqual),
        Sign::Greater => Some(BinaryOperator::Greater),
        Sign::GreaterEqual => Some(BinaryOperator::GreaterEqual),
        Sign::Plus => Some(BinaryOperator::Add),
        Sign::Minus => Some(BinaryOperator::Subtract),
        Sign::And => Some(BinaryOperator::And),
        Sign::AndAnd => Some(BinaryOperator::AndAlso),
        Sign::Or => Some(BinaryOperator::Or),
        Sign::OrOr => Some(BinaryOperator::OrElse),
        Sign::Xor => Some(BinaryOperator::Xor),
        _ => None,
    }
}

/// The prefix operator that a token is.
pub fn prefix_of(kind: TokenKind) -> Option<UnaryOperator>
    ensures { MatchOption result (¬ IsPrefix kind) (λ op. kind ≡ token.Sign (unary_sign op)) }
{
    match kind {
        TokenKind::Sign(Sign::Tilde) => Some(UnaryOperator::Complement),
        TokenKind::Sign(Sign::Bang) => Some(UnaryOperator::Not),
        _ => None,
    }
}

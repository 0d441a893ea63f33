//! Signs and words, and the levels that they open.

ghost use Rattle.std.specs.Prelude.{◌≡◌, ◌+◌, ◌<◌, ◌≤◌, IfSome, IfOk, IfErr, IsNone, ◌∷◌, length};
ghost use Rattle.tm_syntax.specs.Grammar.Parts.{IsMark};
ghost use Rattle.tm_parse.specs.Reading.{first_kind, Takes, IsRefused, AnyOf, Nothing, TheMark, IsOpening};

use crate::stop::Stop;
use tm_base::Place;
use tm_syntax::token::{Token, TokenKind};

/// The most levels that may be open at once; the left operand of an operator is lower than this.
pub const LIMIT: u8 = 128;

/// What was read, and the tokens behind it.
pub type Read<'a, T> = Result<(T, &'a [Token]), Stop<'a>>;

/// The kind of the first token.
pub fn first_kind(tokens: &[Token]) -> Option<TokenKind>
    ensures { result ≡ first_kind tokens.now }
{
    let first = tokens.first()?;
    Some(first.kind)
}

/// A first token of this kind, and the tokens behind it.
pub fn token(tokens: &[Token], kind: TokenKind) -> Option<(&Token, &[Token])>
    ensures whole { IfSome result (λ r. tokens.now ≡ r.0.now ∷ r.1.now) }
    ensures is { IfSome result (λ r. r.0.now.kind ≡ kind) }
    ensures none { IsNone result → ¬ (first_kind tokens.now ≡ Some kind) }
{
    let (first, rest) = tokens.split_first()?;
    if first.kind == kind {
        Some((first, rest))
    } else {
        None
    }
}

/// The place of a first token of this kind, and the tokens behind it.
pub fn mark(tokens: &[Token], kind: TokenKind) -> Option<(Place, &[Token])>
    ensures taken { IfSome result (λ r. Takes (λ _. IsMark kind) Nothing r.0 tokens.now r.1.now) }
    ensures shorter { IfSome result (λ r. length r.1.now < length tokens.now) }
    ensures some { IfSome result (λ _. first_kind tokens.now ≡ Some kind) }
    ensures none { IsNone result → ¬ (first_kind tokens.now ≡ Some kind) }
{
    let (first, rest) = token(tokens, kind)?;
    Some((first.place, rest))
}

/// The place of the first token, which has to be of this kind.
pub fn need(tokens: &[Token], kind: TokenKind) -> Read<'_, Place>
    ensures taken { IfOk result (λ r. Takes (λ _. IsMark kind) Nothing r.0 tokens.now r.1.now) }
    ensures shorter { IfOk result (λ r. length r.1.now < length tokens.now) }
    ensures refused { IfErr result (IsRefused (AnyOf (TheMark kind)) Nothing tokens.now) }
{
    match mark(tokens, kind) {
        Some(read) => Ok(read),
        None => Err(Stop::Unexpected(tokens)),
    }
}

/// The place of the first token, which has to be of this kind, and opens a level.
pub fn open(depth: u8, tokens: &[Token], kind: TokenKind) -> Read<'_, Place>
    ensures taken { IfOk result (λ r. Takes (IsOpening kind depth) Nothing r.0 tokens.now r.1.now) }
    ensures shorter { IfOk result (λ r. length r.1.now < length tokens.now) }
    ensures below { IfOk result (λ _. depth < 128) }
    ensures refused { IfErr result (IsRefused (AnyOf (IsOpening kind depth)) Nothing tokens.now) }
{
    let Some((at, rest)) = mark(tokens, kind) else {
        return Err(Stop::Unexpected(tokens));
    };
    if depth < LIMIT {
        Ok((at, rest))
    } else {
        Err(Stop::TooDeep(tokens))
    }
}

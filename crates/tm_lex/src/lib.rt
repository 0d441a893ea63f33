//! Cuts the text of a specification into its tokens, by longest match.
#![tactic(auto)]

ghost use Rattle.std.specs.Prelude.{◌≡◌, ◌+◌, ◌<◌, ◌≤◌, ◌^◌, ◌++◌, ◌⊎◌, List, ℕ, length, All, IfOk, IfErr, OnOk, MatchResult};
ghost use Rattle.std.specs.Option.{option_map, option_to_list};
ghost use Rattle.tm_base.specs.declared.place.Place.{Place};
ghost use Rattle.tm_syntax.specs.declared.token.Token.{Token};
ghost use Rattle.tm_syntax.specs.Tokens.{AreTokens, HasByteFault, StandsIn, place_after};
ghost use Rattle.tm_lex.specs.Answer.{byte_fault, IsByteFaultOf, IsMemoryOr};

mod class;
mod comment;
mod number;
mod piece;
mod sign;
mod word;

use piece::{Piece, first_piece};
use std::alloc::{AllocError, Global};
use tm_base::Place;
use tm_syntax::fault::{Detail, FaultKind, Faulty, FrontError};
use tm_syntax::token::Token;

/// The most bytes that a text may have: 1 MiB.
pub const MAX_TEXT_LEN: usize = 1_048_576;

/// The tokens of a text, in its order, by longest match (as in ISO/IEC 9899:2011, 6.4). A token keeps its span, and a
/// number is not valued.
///
/// `Faulty` is `F1`, at the first byte that begins no token and no gap, and comes exactly where there is one. `Memory`
/// is want of memory.
pub fn lex(alloc: Global, text: &[u8]) -> Result<Vec<Token>, FrontError>
    requires { length text.now ≤ MAX_TEXT_LEN }
    ensures ok { IfOk result (λ tokens. AreTokens text.now tokens.items) }
    ensures spans { IfOk result (λ tokens. All (StandsIn text.now) tokens.items) }
    ensures faulty { IfErr result (IsByteFaultOf text.now) }

    // A text with tokens has no answer beside them but want of memory, and so has a text with a byte fault.
    ensures read { (tokens : List Token) → AreTokens text.now tokens
        → MatchResult result (λ found. found.items ≡ tokens) (λ e. e ≡ FrontError.Memory) }
    ensures refused { (place : Place) → HasByteFault text.now place
        → MatchResult result (λ _. ⊥) (IsMemoryOr (byte_fault place)) }
{
    let mut tokens = Vec::new(alloc);
    let mut place = Place { line: 1, column: 1 };
    let mut start = 0;
    while start < text.len() {
        let Some(piece) = first_piece(&text[start..]) else {
            return Err(byte_fault(place));
        };
        push_token(&mut tokens, piece, start, place)?;
        let end = start + piece.len;
        place = place_after(place, &text[start..end]);
        start = end;
    }
    Ok(tokens)
}

/// The tokens of a text are determined.
pub fn tokens_are_determined()
    ensures { (text : List ℕ) (one other : List Token) → AreTokens text one → AreTokens text other → one ≡ other }
{}

/// Each text has tokens or a byte fault, and none has both.
pub fn tokens_or_fault()
    ensures one { (text : List ℕ)
        → ((tokens : List Token) × AreTokens text tokens) ⊎ ((place : Place) × HasByteFault text place) }
    ensures not_both { (text : List ℕ) (tokens : List Token) (place : Place)
        → AreTokens text tokens → ¬ HasByteFault text place }
{}

/// A text has a byte fault at one place at most.
pub fn fault_is_determined()
    ensures { (text : List ℕ) (one other : Place) → HasByteFault text one → HasByteFault text other → one ≡ other }
{}

/// `F1` at a place.
fn byte_fault(place: Place) -> FrontError
    ensures { result ≡ byte_fault place }
{
    FrontError::Faulty(Faulty {
        kind: FaultKind::Byte,
        place,
        detail: Detail::Nothing,
    })
}

/// Adds the token that a piece at `start` is, if it is one.
fn push_token(
    tokens: &mut Vec<Token>,
    piece: Piece,
    start: usize,
    place: Place,
) -> Result<(), AllocError>
    requires { start + piece.len < 2 ^ 32 }
    ensures { OnOk result (tokens.new.items ≡ tokens.old.items ++ option_to_list (option_map
        (λ kind. record { kind = kind; start = start; end = start + piece.len; place = place }) piece.kind)) }
{
    if let Some(kind) = piece.kind {
        tokens.push(Token {
            kind,
            start: start as u32,
            end: (start + piece.len) as u32,
            place,
        })?;
    }
    Ok(())
}

/// The place after these bytes, which stand at `place`.
fn place_after(place: Place, bytes: &[u8]) -> Place
    requires line { place.line + length bytes.now < 2 ^ 32 }
    requires column { place.column + length bytes.now < 2 ^ 32 }
    ensures { (front : List ℕ) → place ≡ place_after front → result ≡ place_after (front ++ bytes.now) }
{
    let mut place = place;
    for byte in bytes {
        if *byte == b'\n' {
            place = Place {
                line: place.line + 1,
                column: 1,
            };
        } else {
            place.column += 1;
        }
    }
    place
}

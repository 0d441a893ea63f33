//! Signs.

ghost use Rattle.std.specs.Prelude.{◌≡◌, ◌≢◌, ◌<◌, length, slice_index, MatchOption, [], ◌∷◌};
ghost use Rattle.tm_syntax.specs.declared.token.Sign.{Sign};
ghost use Rattle.tm_syntax.specs.Tokens.{sign_text, BeginsNothing};
ghost use Rattle.tm_lex.specs.Class.{class_of};
ghost use Rattle.tm_lex.specs.Front.{IsFirstPiece};

use crate::class::Class;
use crate::piece::Piece;
use tm_syntax::token::{Sign, TokenKind};

/// The longest sign at the front of bytes that begin with no blank, slash, letter, `_` or digit, if a sign begins
/// there.
pub fn sign(bytes: &[u8]) -> Option<Piece>
    requires some { 0 < length bytes.now }
    requires mark { class_of (slice_index bytes.now 0) ≡ Class.Mark }
    ensures { MatchOption result (BeginsNothing bytes.now) (λ p. IsFirstPiece bytes.now p.kind p.len) }
{
    if bytes.starts_with(b"...") {
        return Some(Piece {
            kind: Some(TokenKind::Sign(Sign::Ellipsis)),
            len: 3,
        });
    }
    if bytes.len() > 1 {
        if let Some(sign) = two_byte_sign(bytes[0], bytes[1]) {
            return Some(Piece {
                kind: Some(TokenKind::Sign(sign)),
                len: 2,
            });
        }
    }
    if let Some(sign) = one_byte_sign(bytes[0]) {
        return Some(Piece {
            kind: Some(TokenKind::Sign(sign)),
            len: 1,
        });
    }
    None
}

fn two_byte_sign(first: u8, second: u8) -> Option<Sign>
    ensures { MatchOption result
        ((s : Sign) → sign_text s ≢ first ∷ second ∷ [])
        (λ s. sign_text s ≡ first ∷ second ∷ []) }
{
    match (first, second) {
        (b'=', b'=') => Some(Sign::Equal),
        (b'!', b'=') => Some(Sign::NotEqual),
        (b'<', b'=') => Some(Sign::LessEqual),
        (b'>', b'=') => Some(Sign::GreaterEqual),
        (b'<', b'<') => Some(Sign::ShiftLeft),
        (b'>', b'>') => Some(Sign::ShiftRight),
        (b'&', b'&') => Some(Sign::AndAnd),
        (b'|', b'|') => Some(Sign::OrOr),
        _ => None,
    }
}

fn one_byte_sign(byte: u8) -> Option<Sign>
    ensures { MatchOption result
        ((s : Sign) → sign_text s ≢ byte ∷ [])
        (λ s. sign_text s ≡ byte ∷ []) }
{
    match byte {
        b'{' => Some(Sign::OpenBrace),
        b'}' => Some(Sign::CloseBrace),
        b'(' => Some(Sign::OpenParenthesis),
        b')' => Some(Sign::CloseParenthesis),
        b'[' => Some(Sign::OpenBracket),
        b']' => Some(Sign::CloseBracket),
        b';' => Some(Sign::Semicolon),
        b',' => Some(Sign::Comma),
        b'.' => Some(Sign::Dot),
        b':' => Some(Sign::Colon),
        b'?' => Some(Sign::Question),
        b'=' => Some(Sign::Assign),
        b'<' => Some(Sign::Less),
        b'>' => Some(Sign::Greater),
        b'+' => Some(Sign::Plus),
        b'-' => Some(Sign::Minus),
        b'&' => Some(Sign::And),
        b'|' => Some(Sign::Or),
        b'^' => Some(Sign::Xor),
        b'~' => Some(Sign::Tilde),
        b'!' => Some(Sign::Bang),
        b'*' => Some(Sign::Star),
        _ => None,
    }
}

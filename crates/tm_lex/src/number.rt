//! Numbers.

ghost use Rattle.std.specs.Prelude.{◌≡◌, ◌<◌, ◌≤◌, length, slice_index};
ghost use Rattle.std.specs.Char.{is_ascii_digit, is_ascii_hexdigit};
ghost use Rattle.std.specs.List.{prefix_len};
ghost use Rattle.tm_lex.specs.Class.{class_of};
ghost use Rattle.tm_lex.specs.Front.{IsFirstPiece};

use crate::class::Class;
use crate::piece::Piece;
use tm_syntax::token::TokenKind;

/// The number at the front of bytes that begin with a digit.
pub fn number(bytes: &[u8]) -> Piece
    requires some { 0 < length bytes.now }
    requires digit { class_of (slice_index bytes.now 0) ≡ Class.Digit }
    ensures { IsFirstPiece bytes.now result.kind result.len }
{
    Piece {
        kind: Some(TokenKind::Number),
        len: number_len(bytes),
    }
}

fn number_len(bytes: &[u8]) -> usize
    requires some { 0 < length bytes.now }
    requires digit { class_of (slice_index bytes.now 0) ≡ Class.Digit }
    ensures { IsFirstPiece bytes.now (Some TokenKind.Number) result }
{
    if bytes.starts_with(b"0x") {
        let digits = hexadecimal_len(&bytes[2..]);
        if digits > 0 {
            return 2 + digits;
        }
    }
    decimal_len(bytes)
}

/// How many bytes at the front are decimal digits.
fn decimal_len(bytes: &[u8]) -> usize
    ensures { result ≡ prefix_len is_ascii_digit bytes.now }
{
    bytes
        .iter()
        .take_while(|byte| byte.is_ascii_digit())
        .count()
}

/// How many bytes at the front are hexadecimal digits.
fn hexadecimal_len(bytes: &[u8]) -> usize
    ensures value { result ≡ prefix_len is_ascii_hexdigit bytes.now }
    ensures within { result ≤ length bytes.now }
{
    bytes
        .iter()
        .take_while(|byte| byte.is_ascii_hexdigit())
        .count()
}

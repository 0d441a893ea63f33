//! The pieces of a text: its tokens, and the gaps between them.

ghost use Rattle.std.specs.Prelude.{◌≡◌, ◌<◌, length, MatchOption};
ghost use Rattle.tm_syntax.specs.Tokens.{BeginsNothing};
ghost use Rattle.tm_lex.specs.Front.{IsFirstPiece};

use crate::class::{Class, class_of};
use crate::comment::comment_len;
use crate::number::number;
use crate::sign::sign;
use crate::word::word_or_name;
use tm_syntax::token::TokenKind;

/// A piece of a text: a token of its kind, or a gap where it has none, and its length in bytes.
#[derive(Clone, Copy, Debug)]
pub struct Piece {
    pub kind: Option<TokenKind>,
    pub len: usize,
}

/// The longest piece at the front, or `None` where no piece begins with the first byte.
pub fn first_piece(bytes: &[u8]) -> Option<Piece>
    requires { 0 < length bytes.now }
    ensures { MatchOption result (BeginsNothing bytes.now) (λ p. IsFirstPiece bytes.now p.kind p.len) }
{
    match class_of(bytes[0]) {
        Class::Blank => Some(gap(1)),
        Class::Slash => comment_len(bytes).map(gap),
        Class::Letter => Some(word_or_name(bytes)),
        Class::Digit => Some(number(bytes)),
        Class::Mark => sign(bytes),
    }
}

fn gap(len: usize) -> Piece
    ensures { result ≡ record { kind = None; len = len } }
{
    Piece { kind: None, len }
}

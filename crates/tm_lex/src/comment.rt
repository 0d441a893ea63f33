//! Comments.

ghost use Rattle.std.specs.Prelude.{◌≡◌, ◌<◌, length, slice_index, not, MatchOption, codes, ◌++◌, drop};
ghost use Rattle.std.specs.List.{prefix_len};
ghost use Rattle.tm_syntax.specs.Tokens.{is_line_feed, BeginsNothing};
ghost use Rattle.tm_lex.specs.Class.{class_of};
ghost use Rattle.tm_lex.specs.Front.{IsFirstPiece};

use crate::class::Class;

/// The length of the comment at the front of bytes that begin with `/`, if one begins there. A `/*` that is never
/// closed begins none.
pub fn comment_len(bytes: &[u8]) -> Option<usize>
    requires some { 0 < length bytes.now }
    requires slash { class_of (slice_index bytes.now 0) ≡ Class.Slash }
    ensures { MatchOption result (BeginsNothing bytes.now) (IsFirstPiece bytes.now None) }
{
    if bytes.starts_with(b"//") {
        return Some(line_len(bytes));
    }
    if bytes.starts_with(b"/*") {
        return block_comment_len(bytes);
    }
    None
}

/// How many bytes stand before the first line feed.
fn line_len(bytes: &[u8]) -> usize
    ensures { result ≡ prefix_len (λ b. not (is_line_feed b)) bytes.now }
{
    bytes.iter().take_while(|byte| **byte != b'\n').count()
}

/// The length of the comment that begins with the `/*` at the front, if it is closed.
fn block_comment_len(bytes: &[u8]) -> Option<usize>
    requires { bytes.now ≡ codes "/*" ++ drop 2 bytes.now }
    ensures { MatchOption result (BeginsNothing bytes.now) (IsFirstPiece bytes.now None) }
{
    for star in 2..bytes.len() {
        if bytes[star..].starts_with(b"*/") {
            return Some(star + 2);
        }
    }
    None
}
